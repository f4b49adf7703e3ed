ghost use Rattle.std.specs.Prelude.{◌≡◌, ◌<◌, ◌==◌, OnOk, OnErr, IfOk, slice_get};
ghost use Rattle.std.specs.Option.{option_copied, option_map};
ghost use Rattle.std.specs.FinMap as map;
ghost use Rattle.fx_base.specs.Bounds.{IsBounded, HasIndicesBelow256};

use crate::copied::Copied;
use crate::keyed::{copy_entries, entry_at, put_entry, value_of};
use crate::memory::NoMemory;
use crate::names::MemberId;
use crate::sparse::Sparse;
use std::alloc::Global;
use std::marker::Model;

/// A finite map from member to the elements that it has: what a process stored in a data group. Members are below 8,
/// indices below 256.
#[derive(Debug, Drop)]
pub struct Snapshot {
    entries: Vec<(MemberId, Sparse)>,
}

impl Model for Snapshot {
    ghost use Rattle.std.specs.Prelude.{IsTrue};
    ghost use Rattle.fx_base.specs.Keys.{by_number, member_code};
    ghost use Rattle.fx_base.specs.declared.sparse.Sparse.{Sparse};
    ghost use Rattle.std.specs.FinMap as map;
    ghost use Rattle.std.specs.Coded.{coded_ℕ, coded_ℤ};

    ghost Value = { map.FinMap by_number Sparse };

    ghost coded = { map.code member_code (map.code coded_ℕ coded_ℤ) };

    ghost view = { λ m. map.from_sorted m.entries.items };

    ghost use Rattle.fx_base.specs.Bounds.{IsBounded};

    ghost invariant = { λ m. IsTrue (map.is_sorted by_number m.entries.items) × IsBounded (map.from_sorted m.entries.items) };
}

impl Snapshot {
    /// The map with no member.
    pub fn new(alloc: Global) -> Snapshot
        ensures { result ≡ map.empty }
    {
        Snapshot {
            entries: Vec::new(alloc),
        }
    }

    /// Puts the elements of a member, from 0 to 7, in the place of what it had. Their indices are from 0 to 255.
    /// Without memory the map stays as it was.
    pub fn put(&mut self, key: MemberId, value: Sparse) -> Result<(), NoMemory>
        requires member { key.0 < 8 }
        requires indices { HasIndicesBelow256 value }
        ensures ok { OnOk result (self.new ≡ map.insert self.old key value) }
        ensures no_memory { OnErr result (self.new ≡ self.old) }
    {
        put_entry(&mut self.entries, key, value)?;
        Ok(())
    }

    /// The number of members.
    pub fn len(&self) -> usize
        ensures len { result ≡ map.len self.now }
        ensures bounded { IsBounded self.now }
    {
        self.entries.len()
    }

    /// Whether there is no member.
    pub fn is_empty(&self) -> bool
        ensures { result ≡ (map.len self.now == 0) }
    {
        self.entries.is_empty()
    }

    /// The elements of the member, if it is there.
    pub fn get(&self, key: MemberId) -> Option<&Sparse>
        ensures held { option_copied result ≡ map.get self.now key }
        ensures bounded { IsBounded self.now }
    {
        value_of(&self.entries, key)
    }

    /// Pair `k` in rising member, from 0; `None` exactly where `k` isn't below the length.
    pub fn nth(&self, k: usize) -> Option<(MemberId, &Sparse)>
        ensures pair { option_map (λ e. (e.0, e.1.now)) result ≡ slice_get (map.entries self.now) k }
        ensures bounded { IsBounded self.now }
    {
        entry_at(&self.entries, k)
    }

    /// An equal map.
    pub fn copy(&self) -> Result<Snapshot, NoMemory>
        ensures { IfOk result (λ copy. copy ≡ self.now) }
    {
        let entries = copy_entries(*self.entries.allocator(), &self.entries)?;
        Ok(Snapshot { entries })
    }
}

impl Copied for Snapshot {
    fn copied(&self) -> Result<Self, NoMemory> {
        self.copy()
    }
}
