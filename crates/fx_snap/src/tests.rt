ghost use Rattle.fx_base.specs.Bounds.{HasIndicesBelow256};
ghost use Rattle.std.specs.Prelude.{IfOk};

use super::*;
use fx_base::{MemberId, Sparse, Stamp};
use std::alloc::Global;
use std::test::Fail;

/// An element at index 0.
fn at_0(alloc: Global, element: i64) -> Result<Sparse, Fail>
    ensures { IfOk result HasIndicesBelow256 }
{
    let mut piece = Sparse::new(alloc);
    piece.put(0, element)?;
    Ok(piece)
}

fn element_at_0(store: &GroupStore, stamp: i64) -> Result<Option<i64>, FindEnd> {
    Ok(store.find(MemberId(0), Stamp(stamp))?.get(0).copied())
}

#[test]
fn closed_snapshots_are_found(rt: HostRuntime) -> Result<(), Fail> {
    let mut store = GroupStore::new(rt.alloc(), Stamp(0), 0);
    let piece = at_0(rt.alloc(), 4)?;
    assert_eq!(rt;
        store.store(MemberId(0), &piece),
        Err(StoreEnd::NotAttached)
    );
    store.attach(MemberId(0));
    assert_eq!(rt; store.store(MemberId(0), &piece), Ok(()));
    for stamp in [0, 1] {
        assert_eq!(rt; store.next_stamp(), Stamp(stamp));
        assert_eq!(rt; store.commit(), Ok(Stamp(stamp)));
        assert_eq!(rt; element_at_0(&store, stamp), Err(FindEnd::NoStamp));
        store.close();
        assert_eq!(rt; store.latest(), Some(Stamp(stamp)));
        let found = if stamp == 0 {
            Ok(Some(4))
        } else {
            Err(FindEnd::NotStored)
        };
        assert_eq!(rt; element_at_0(&store, stamp), found);
    }
    assert_eq!(rt; element_at_0(&store, 0), Err(FindEnd::NoStamp));
    assert_eq!(rt; store.delete(Stamp(1)), Ok(()));
    assert_eq!(rt; store.latest(), None);
    store.discard();
    assert_eq!(rt; element_at_0(&store, 5), Err(FindEnd::NotAttached));
    Ok(())
}

#[test]
fn sixteen_commits_wait_and_the_newest_are_kept(rt: HostRuntime) -> Result<(), Fail> {
    let mut store = GroupStore::new(rt.alloc(), Stamp(3), 14);
    for stamp in 3..20 {
        assert_eq!(rt; store.next_stamp(), Stamp(stamp));
        let end = if stamp < 19 {
            Ok(Stamp(stamp))
        } else {
            Err(CommitEnd::Full)
        };
        assert_eq!(rt; store.commit(), end);
    }
    store.close();
    assert_eq!(rt;
        (store.stamps()?.len(), store.next_stamp()),
        (15, Stamp(19))
    );
    assert_eq!(rt; store.delete(Stamp(3)), Err(DeleteEnd::NoStamp));
    assert_eq!(rt; store.delete(Stamp(4)), Ok(()));
    assert_eq!(rt; store.kept(0).map(|entry| entry.0), Some(Stamp(5)));
    Ok(())
}
