ghost use Rattle.std.specs.Prelude.{◌≡◌, ◌==◌, OnOk, OnErr, IfOk, slice_get};
ghost use Rattle.std.specs.Option.{option_copied, option_map};
ghost use Rattle.std.specs.FinMap as map;

use crate::copied::Copied;
use crate::keyed::{copy_entries, entry_at, put_entry, take_entry, value_of};
use crate::lists::Bytes;
use crate::memory::NoMemory;
use crate::names::Stamp;
use std::alloc::Global;
use std::marker::Model;

/// A finite map from time stamp to bytes, as of the packed snapshots that one process sends to another.
#[derive(Debug, Drop)]
pub struct StampShares {
    entries: Vec<(Stamp, Bytes)>,
}

impl Model for StampShares {
    ghost use Rattle.std.specs.Prelude.{IsTrue, ℕ, List};
    ghost use Rattle.fx_base.specs.Keys.{by_time, stamp_code};
    ghost use Rattle.std.specs.FinMap as map;
    ghost use Rattle.std.specs.Coded.{coded_list, coded_ℕ};

    ghost Value = { map.FinMap by_time (List ℕ) };

    ghost coded = { map.code stamp_code (coded_list coded_ℕ) };

    ghost view = { λ m. map.from_sorted m.entries.items };

    ghost invariant = { λ m. IsTrue (map.is_sorted by_time m.entries.items) };
}

impl StampShares {
    /// The map with no stamp.
    pub fn new(alloc: Global) -> StampShares
        ensures { result ≡ map.empty }
    {
        StampShares {
            entries: Vec::new(alloc),
        }
    }

    /// Puts bytes at a stamp, in the place of what was there. Without memory the map stays as it was.
    pub fn put(&mut self, key: Stamp, value: Bytes) -> Result<(), NoMemory>
        ensures ok { OnOk result (self.new ≡ map.insert self.old key value) }
        ensures no_memory { OnErr result (self.new ≡ self.old) }
    {
        put_entry(&mut self.entries, key, value)?;
        Ok(())
    }

    /// Takes the stamp out. Where it is absent nothing changes.
    pub fn remove(&mut self, key: Stamp)
        ensures { self.new ≡ map.remove self.old key }
    {
        take_entry(&mut self.entries, key);
    }

    /// The number of stamps.
    pub fn len(&self) -> usize
        ensures { result ≡ map.len self.now }
    {
        self.entries.len()
    }

    /// Whether there is no stamp.
    pub fn is_empty(&self) -> bool
        ensures { result ≡ (map.len self.now == 0) }
    {
        self.entries.is_empty()
    }

    /// The bytes at the stamp, if it is there.
    pub fn get(&self, key: Stamp) -> Option<&Bytes>
        ensures { option_copied result ≡ map.get self.now key }
    {
        value_of(&self.entries, key)
    }

    /// Pair `k` in rising stamp, from 0; `None` exactly where `k` isn't below the length.
    pub fn nth(&self, k: usize) -> Option<(Stamp, &Bytes)>
        ensures { option_map (λ e. (e.0, e.1.now)) result ≡ slice_get (map.entries self.now) k }
    {
        entry_at(&self.entries, k)
    }

    /// An equal map.
    pub fn copy(&self) -> Result<StampShares, NoMemory>
        ensures { IfOk result (λ copy. copy ≡ self.now) }
    {
        let entries = copy_entries(*self.entries.allocator(), &self.entries)?;
        Ok(StampShares { entries })
    }
}

impl Copied for StampShares {
    fn copied(&self) -> Result<Self, NoMemory> {
        self.copy()
    }
}
