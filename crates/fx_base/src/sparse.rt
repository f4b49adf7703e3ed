ghost use Rattle.std.specs.Prelude.{◌≡◌, ◌==◌, OnOk, OnErr, IfOk, slice_get};
ghost use Rattle.std.specs.Option.{option_copied, option_map};
ghost use Rattle.std.specs.FinMap as map;

use crate::copied::Copied;
use crate::keyed::{copy_entries, entry_at, put_entry, value_of};
use crate::memory::NoMemory;
use std::alloc::Global;
use std::marker::Model;

/// A finite map from index to element, as of the elements of one member that a snapshot has.
#[derive(Debug, Drop)]
pub struct Sparse {
    entries: Vec<(u32, i64)>,
}

impl Model for Sparse {
    ghost use Rattle.std.specs.Prelude.{IsTrue, ℤ};
    ghost use Rattle.std.specs.Ordering.{nat_cmp};
    ghost use Rattle.std.specs.FinMap as map;
    ghost use Rattle.std.specs.Coded.{coded_ℕ, coded_ℤ};

    ghost Value = { map.FinMap nat_cmp ℤ };

    ghost coded = { map.code coded_ℕ coded_ℤ };

    ghost view = { λ m. map.from_sorted m.entries.items };

    ghost invariant = { λ m. IsTrue (map.is_sorted nat_cmp m.entries.items) };
}

impl Sparse {
    /// The map with no index.
    pub fn new(alloc: Global) -> Sparse
        ensures { result ≡ map.empty }
    {
        Sparse {
            entries: Vec::new(alloc),
        }
    }

    /// Puts an element at an index, in the place of what was there. Without memory the map stays as it was.
    pub fn put(&mut self, key: u32, value: i64) -> Result<(), NoMemory>
        ensures ok { OnOk result (self.new ≡ map.insert self.old key value) }
        ensures no_memory { OnErr result (self.new ≡ self.old) }
    {
        put_entry(&mut self.entries, key, value)?;
        Ok(())
    }

    /// The number of indices.
    pub fn len(&self) -> usize
        ensures { result ≡ map.len self.now }
    {
        self.entries.len()
    }

    /// Whether there is no index.
    pub fn is_empty(&self) -> bool
        ensures { result ≡ (map.len self.now == 0) }
    {
        self.entries.is_empty()
    }

    /// The element at the index, if there is one.
    pub fn get(&self, key: u32) -> Option<&i64>
        ensures { option_copied result ≡ map.get self.now key }
    {
        value_of(&self.entries, key)
    }

    /// Pair `k` in rising index, from 0; `None` exactly where `k` isn't below the length.
    pub fn nth(&self, k: usize) -> Option<(u32, &i64)>
        ensures { option_map (λ e. (e.0, e.1.now)) result ≡ slice_get (map.entries self.now) k }
    {
        entry_at(&self.entries, k)
    }

    /// An equal map.
    pub fn copy(&self) -> Result<Sparse, NoMemory>
        ensures { IfOk result (λ copy. copy ≡ self.now) }
    {
        let entries = copy_entries(*self.entries.allocator(), &self.entries)?;
        Ok(Sparse { entries })
    }
}

impl Copied for Sparse {
    fn copied(&self) -> Result<Self, NoMemory> {
        self.copy()
    }
}
