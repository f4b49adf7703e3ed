ghost use Rattle.std.specs.Prelude.{◌≡◌, IfOk};
ghost use Rattle.std.specs.FinSet as set;
ghost use Rattle.fx_subset.specs.Elements.{gathered};
ghost use Rattle.fx_subset.specs.Indices.{union_of};
ghost use Rattle.fx_subset.specs.Runs.{AreApart};

use crate::elements::gather_runs;
use crate::runs::{covers, joined, total};
use fx_base::{Elems, NoMemory, Sparse};
use std::marker::Model;

/// A set of indices, each below 4,294,967,295.
#[derive(Debug, Drop)]
pub struct Subset {
    runs: Vec<(u32, u32)>,
}

impl Model for Subset {
    ghost use Rattle.std.specs.Ordering.{nat_cmp};
    ghost use Rattle.std.specs.FinSet as set;
    ghost use Rattle.std.specs.Coded.{coded_ℕ};
    ghost use Rattle.fx_subset.specs.Indices.{union_of};
    ghost use Rattle.fx_subset.specs.Runs.{AreApart};

    ghost Value = { set.FinSet nat_cmp };

    ghost coded = { set.code coded_ℕ };

    ghost view = { λ s. union_of s.runs.items };

    ghost invariant = { λ s. AreApart 0 s.runs.items };
}

impl Subset {
    /// The set of the indices of runs that neither overlap nor touch.
    pub(crate) fn of_runs(runs: Vec<(u32, u32)>) -> Subset
        requires { AreApart 0 runs.items }
        ensures { result ≡ union_of runs.items }
    {
        Subset { runs }
    }

    /// Whether the index is in the set. It takes no memory.
    pub fn contains(&self, index: u32) -> bool
        ensures { result ≡ set.contains self.now index }
    {
        covers(self.runs.as_slice(), index)
    }

    /// The number of indices. It takes no memory.
    pub fn count(&self) -> u32
        ensures { result ≡ set.len self.now }
    {
        total(self.runs.as_slice())
    }

    /// The indices of either set.
    pub fn union(&self, other: &Subset) -> Result<Subset, NoMemory>
        ensures { IfOk result (λ both. both ≡ set.union self.now other.now) }
    {
        let alloc = *self.runs.allocator();
        let mut intervals = Vec::from_slice(alloc, self.runs.as_slice())?;
        intervals.extend_from_slice(other.runs.as_slice())?;
        let runs = joined(alloc, intervals)?;
        Ok(Subset::of_runs(runs))
    }

    /// The elements of an array at the indices of the set, as far as the array goes.
    pub fn gather(&self, from: &Elems) -> Result<Sparse, NoMemory>
        ensures { IfOk result (λ elements. elements ≡ gathered self.now from.now) }
    {
        gather_runs(*self.runs.allocator(), self.runs.as_slice(), from)
    }
}
