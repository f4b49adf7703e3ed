use super::*;
use std::alloc::Global;
use std::test::Fail;

#[test]
fn bytes_grow_at_their_end(rt: HostRuntime) -> Result<(), Fail> {
    let mut bytes = Bytes::new(rt.alloc());
    assert_eq!(rt; bytes.len(), 0);
    bytes.push(b'a')?;
    bytes.append(b"bc")?;
    bytes.reserve(8)?;
    let copy = bytes.copy()?;
    assert_eq!(rt; copy.as_slice(), b"abc".as_slice());
    assert_eq!(rt; copy.nth(2).copied(), Some(b'c'));
    assert_eq!(rt; copy.nth(3).copied(), None);
    assert!(rt; copy == bytes);
    let mut more = Bytes::new(rt.alloc());
    more.append(b"de")?;
    bytes.append_list(&mut more)?;
    assert_eq!(rt; bytes.as_slice(), b"abcde".as_slice());
    assert!(rt; more.is_empty() && more.pop().is_none());
    assert_eq!(rt; bytes.pop(), Some(b'e'));
    assert_eq!(rt; bytes.as_slice(), b"abcd".as_slice());
    bytes.clear();
    assert_eq!(rt; bytes.len(), 0);
    let items = copy.into_items();
    assert_eq!(rt; items.as_slice(), b"abc".as_slice());
    Ok(())
}

#[test]
fn shares_are_in_rising_place(rt: HostRuntime) -> Result<(), Fail> {
    let mut shares = Shares::new(rt.alloc());
    assert!(rt; shares.is_empty());
    let mut bytes = Bytes::new(rt.alloc());
    bytes.append(b"ab")?;
    shares.push((2, bytes))?;
    shares.push((5, Bytes::new(rt.alloc())))?;
    let copy = Copied::copied(&shares)?;
    assert_eq!(rt; copy.len(), 2);
    assert_eq!(rt; copy.nth(1).map(|share| share.0), Some(5));
    assert_eq!(rt; copy.as_slice()[0].1.as_slice(), b"ab".as_slice());
    Ok(())
}

#[test]
fn sets_hold_numbers_below_32(rt: HostRuntime) -> Result<(), Fail> {
    let mut lost = ProcSet::new();
    assert_eq!(rt; lost.least(), None);
    for n in [31, 4, 9] {
        lost.insert(n);
    }
    let mut more = lost;
    more.remove(4);
    more.insert(0);
    assert_eq!(rt; (lost.count(), lost.least()), (3, Some(4)));
    assert_eq!(rt; (more.count(), more.least()), (3, Some(0)));
    assert!(rt; lost.has(31) && lost.has(4) && !lost.has(0) && !more.has(4));
    assert_eq!(rt; lost.union(more).count(), 4);
    assert_eq!(rt; lost.difference(more).least(), Some(4));
    Ok(())
}

#[test]
fn maps_are_in_rising_key(rt: HostRuntime) -> Result<(), Fail> {
    let mut map = Sparse::new(rt.alloc());
    for (key, value) in [(7, 70), (2, -20), (9, 90), (7, 71)] {
        map.put(key, value)?;
    }
    let copy = map.copy()?;
    assert_eq!(rt; copy.len(), 3);
    for (k, pair) in [(0, (2, -20)), (1, (7, 71)), (2, (9, 90))] {
        assert_eq!(rt; copy.nth(k).map(|(key, value)| (key, *value)), Some(pair));
    }
    assert!(rt; copy.nth(3).is_none());
    assert_eq!(rt; copy.get(9).copied(), Some(90));
    assert_eq!(rt; copy.get(8).copied(), None);
    Ok(())
}

#[test]
fn snapshots_hold_members(rt: HostRuntime) -> Result<(), Fail> {
    let mut elements = Sparse::new(rt.alloc());
    elements.put(3, 5)?;
    let mut snapshot = Snapshot::new(rt.alloc());
    snapshot.put(MemberId(6), elements)?;
    snapshot.put(MemberId(1), Sparse::new(rt.alloc()))?;
    let copy = snapshot.copy()?;
    assert_eq!(rt; copy.len(), 2);
    assert_eq!(rt;
        copy.nth(0).map(|(member, held)| (member, held.len())),
        Some((MemberId(1), 0))
    );
    assert_eq!(rt;
        copy.nth(1).map(|(member, held)| (member, held.len())),
        Some((MemberId(6), 1))
    );
    assert!(rt; copy.nth(2).is_none() && copy.get(MemberId(0)).is_none());
    Ok(())
}

#[test]
fn shares_lose_a_stamp(rt: HostRuntime) -> Result<(), Fail> {
    let mut shares = StampShares::new(rt.alloc());
    for stamp in [5, -1, 3] {
        let mut bytes = Bytes::new(rt.alloc());
        bytes.append(b"FX")?;
        shares.put(Stamp(stamp), bytes)?;
    }
    shares.remove(Stamp(3));
    shares.remove(Stamp(4));
    let copy = shares.copy()?;
    assert_eq!(rt; copy.len(), 2);
    assert_eq!(rt; copy.nth(0).map(|(stamp, _)| stamp), Some(Stamp(-1)));
    assert_eq!(rt;
        copy.nth(1).map(|(stamp, bytes)| (stamp, bytes.len())),
        Some((Stamp(5), 2))
    );
    assert!(rt; copy.get(Stamp(3)).is_none());
    Ok(())
}

#[test]
fn names_are_copied(rt: HostRuntime) -> Result<(), Fail> {
    assert_eq!(rt; Copied::copied(&7u8)?, 7u8);
    assert_eq!(rt; Copied::copied(&8u32)?, 8u32);
    assert_eq!(rt; Copied::copied(&-9i64)?, -9i64);
    assert_eq!(rt; Copied::copied(&Proc(1))?, Proc(1));
    assert_eq!(rt; Copied::copied(&Place(2))?, Place(2));
    assert_eq!(rt; Copied::copied(&Ident(3))?, Ident(3));
    assert_eq!(rt; Copied::copied(&GroupId(4))?, GroupId(4));
    assert_eq!(rt; Copied::copied(&MemberId(5))?, MemberId(5));
    assert_eq!(rt; Copied::copied(&Epoch(6))?, Epoch(6));
    assert_eq!(rt; Copied::copied(&CallNo(7))?, CallNo(7));
    assert_eq!(rt; Copied::copied(&Stamp(-8))?, Stamp(-8));
    let pair = (Ident(9), Proc(10));
    assert_eq!(rt; Copied::copied(&pair)?, (Ident(9), Proc(10)));
    assert_eq!(rt; Copied::copied(&Some(Stamp(11)))?, Some(Stamp(11)));
    Ok(())
}

#[test]
fn lists_and_maps_are_copied(rt: HostRuntime) -> Result<(), Fail> {
    let mut stamps = Stamps::new(rt.alloc());
    stamps.push(Stamp(4))?;
    assert_eq!(rt; Copied::copied(&stamps)?.nth(0).copied(), Some(Stamp(4)));
    let mut elements = Sparse::new(rt.alloc());
    elements.put(3, 5)?;
    assert_eq!(rt; Copied::copied(&elements)?.get(3).copied(), Some(5));
    let mut snapshot = Snapshot::new(rt.alloc());
    snapshot.put(MemberId(6), elements)?;
    assert_eq!(rt; Copied::copied(&snapshot)?.len(), 1);
    let mut shares = StampShares::new(rt.alloc());
    shares.put(Stamp(2), Bytes::new(rt.alloc()))?;
    assert_eq!(rt; Copied::copied(&shares)?.len(), 1);
    Ok(())
}
