ghost use Rattle.std.specs.Prelude.{◌≡◌, MatchOption, IfOk, None};
ghost use Rattle.std.specs.Option.{option_copied};
ghost use Rattle.std.specs.FinMap.{find};
ghost use Rattle.fx_base.specs.Keys.{by_time};
ghost use Rattle.fx_store.specs.Store.{newest, newest_stamp, stamps_of};
ghost use Rattle.fx_snap.specs.Stores.{IsPlaceOfStamp};

use fx_base::{NoMemory, Snapshot, Stamp, Stamps};
use std::alloc::Global;

/// The snapshot of the stamp, if there is one.
pub(crate) fn snapshot_at(entries: &[(Stamp, Snapshot)], stamp: Stamp) -> Option<&Snapshot>
    ensures { option_copied result ≡ find by_time stamp entries.now }
{
    for entry in entries {
        if entry.0 == stamp {
            return Some(&entry.1);
        }
    }
    None
}

/// Where a snapshot of the stamp stands, if there is one.
pub(crate) fn place_of(entries: &[(Stamp, Snapshot)], stamp: Stamp) -> Option<usize>
    ensures { MatchOption result (find by_time stamp entries.now ≡ None) (IsPlaceOfStamp stamp entries.now) }
{
    for (at, entry) in entries.iter().enumerate() {
        if entry.0 == stamp {
            return Some(at);
        }
    }
    None
}

/// The stamp of the last snapshot, if there is one.
pub(crate) fn last_stamp(entries: &[(Stamp, Snapshot)]) -> Option<Stamp>
    ensures { result ≡ newest_stamp entries.now }
{
    match entries.last() {
        Some(entry) => Some(entry.0),
        None => None,
    }
}

/// The stamps, in the order of the list.
pub(crate) fn all_stamps(alloc: Global, entries: &[(Stamp, Snapshot)]) -> Result<Stamps, NoMemory>
    ensures { IfOk result (λ stamps. stamps ≡ stamps_of entries.now) }
{
    let mut stamps = Stamps::new(alloc);
    for entry in entries {
        stamps.push(entry.0)?;
    }
    Ok(stamps)
}

/// Keeps the last `count` snapshots.
pub(crate) fn keep_newest(entries: &mut Vec<(Stamp, Snapshot)>, count: usize)
    ensures { entries.new.items ≡ newest count entries.old.items }
{
    while entries.len() > count {
        entries.remove(0);
    }
}
