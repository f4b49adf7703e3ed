ghost use Rattle.std.specs.Prelude.{◌≡◌, IsTrue, OnOk, OnErr, IfOk, IfErr, not, slice_get};
ghost use Rattle.std.specs.Ordering.{nat_cmp, eq_by_cmp};
ghost use Rattle.std.specs.Option.{option_copied, option_map};
ghost use Rattle.std.specs.FinMap.{IsAntisymmetric, nat_cmp-IsAntisymmetric, is_sorted, find, put};
ghost use Rattle.std.specs.FinMap.Entries.{where_key};
ghost use Rattle.std.specs.declared.cmp.Ordering.{Ordering};
ghost use Rattle.std.specs.Cmp.{IsTotalOrder, nat_cmp_total};
ghost use Rattle.fx_base.specs.Keys.{by_number, by_time, IsPlaceOf, IsGapFor, by_number_total, by_number_same, by_time_total, by_time_same};

use crate::copied::Copied;
use crate::memory::NoMemory;
use crate::names::{MemberId, Stamp};
use std::alloc::Global;
use std::cmp::Ordering;

/// A key of a finite map.
pub trait Key: Copy {
    ghost order: { Self → Self → Ordering };

    /// How two keys stand to each other.
    fn compare(self, other: Self) -> Ordering
        ensures { result ≡ order self other };

    ghost total: { IsTotalOrder order };

    ghost same: { IsAntisymmetric order };
}

impl Key for u32 {
    ghost order = { nat_cmp };

    ghost total = { nat_cmp_total };

    ghost same = { nat_cmp-IsAntisymmetric };

    fn compare(self, other: u32) -> Ordering {
        self.cmp(&other)
    }
}

impl Key for MemberId {
    ghost order = { by_number };

    ghost total = { by_number_total };

    ghost same = { by_number_same };

    fn compare(self, other: MemberId) -> Ordering {
        self.0.cmp(&other.0)
    }
}

impl Key for Stamp {
    ghost order = { by_time };

    ghost total = { by_time_total };

    ghost same = { by_time_same };

    fn compare(self, other: Stamp) -> Ordering {
        self.0.cmp(&other.0)
    }
}

/// Where the key stands in a list in rising key, or else where it would go.
fn place_of<K: Key, V>(entries: &[(K, V)], key: K) -> Result<usize, usize>
    requires { IsTrue (is_sorted K.order entries.now) }
    ensures found { IfOk result (IsPlaceOf K.order key entries.now) }
    ensures absent { IfErr result (IsGapFor K.order key entries.now) }
{
    let mut low = 0;
    let mut high = entries.len();
    while low < high {
        // Entries mostly come in rising key, so the last one is looked at first.
        let middle = if high == entries.len() {
            high - 1
        } else {
            low + (high - low) / 2
        };
        match key.compare(entries[middle].0) {
            Ordering::Less => high = middle,
            Ordering::Equal => return Ok(middle),
            Ordering::Greater => low = middle + 1,
        }
    }
    Err(low)
}

/// Puts the value at the key, in the place of what was there. Without memory nothing changes.
pub(crate) fn put_entry<K: Key, V: Drop>(
    entries: &mut Vec<(K, V)>,
    key: K,
    value: V,
) -> Result<(), NoMemory>
    requires { IsTrue (is_sorted K.order entries.old.items) }
    ensures ok { OnOk result (entries.new.items ≡ put K.order key value entries.old.items) }
    ensures no_memory { OnErr result (entries.new.items ≡ entries.old.items) }
{
    match place_of(entries, key) {
        Ok(at) => {
            entries[at] = (key, value);
            Ok(())
        }
        Err(at) => Ok(entries.insert(at, (key, value))?),
    }
}

/// Takes the key out, where it is there.
pub(crate) fn take_entry<K: Key, V: Drop>(entries: &mut Vec<(K, V)>, key: K)
    requires { IsTrue (is_sorted K.order entries.old.items) }
    ensures { entries.new.items ≡ where_key K.order (λ x. not (eq_by_cmp K.order key x)) entries.old.items }
{
    if let Ok(at) = place_of(entries, key) {
        entries.remove(at);
    }
}

/// The value at the key, if it is there.
pub(crate) fn value_of<K: Key, V>(entries: &[(K, V)], key: K) -> Option<&V>
    requires { IsTrue (is_sorted K.order entries.now) }
    ensures { option_copied result ≡ find K.order key entries.now }
{
    match place_of(entries, key) {
        Ok(at) => Some(&entries[at].1),
        Err(_) => None,
    }
}

/// Entry `k`, from 0.
pub(crate) fn entry_at<K: Key, V>(entries: &[(K, V)], k: usize) -> Option<(K, &V)>
    ensures { option_map (λ e. (e.0, e.1.now)) result ≡ slice_get entries.now k }
{
    match entries.get(k) {
        Some(entry) => Some((entry.0, &entry.1)),
        None => None,
    }
}

/// An equal list.
pub(crate) fn copy_entries<K: Key, V: Copied>(
    alloc: Global,
    entries: &[(K, V)],
) -> Result<Vec<(K, V)>, NoMemory>
    ensures { IfOk result (λ copy. copy.items ≡ entries.now) }
{
    let mut copy = Vec::with_capacity(alloc, entries.len())?;
    for entry in entries {
        copy.push((entry.0, entry.1.copied()?))?;
    }
    Ok(copy)
}
