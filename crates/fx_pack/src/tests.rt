ghost use Rattle.fx_base.specs.Bounds.{HasIndicesBelow256};
ghost use Rattle.std.specs.Prelude.{IfOk};

use super::*;
use fx_base::{MemberId, Snapshot, Sparse};
use std::alloc::Global;
use std::test::Fail;

/// Member 0 has element 9 at index 1.
const ONE: [u8; 19] = [
    0x46, 0x58, 1, 1, 0, 0, 1, 0, 1, 0, 1, 0, 0, 0, 0, 0, 0, 0, 9,
];

fn read_one(alloc: Global, bytes: &[u8]) -> Result<Option<(i64, usize)>, Fail> {
    match unpack(alloc, bytes)? {
        Unpacked::NotOne => Ok(None),
        Unpacked::Read(snapshot, used) => Ok(
            snapshot
                .get(MemberId(0))
                .and_then(|elements| elements.get(1))
                .map(|element| (*element, used)),
        ),
    }
}

/// An element at index 1.
fn at_1(alloc: Global, element: i64) -> Result<Sparse, Fail>
    ensures { IfOk result HasIndicesBelow256 }
{
    let mut elements = Sparse::new(alloc);
    elements.put(1, element)?;
    Ok(elements)
}

#[test]
fn one_element_is_packed(rt: HostRuntime) -> Result<(), Fail> {
    let elements = at_1(rt.alloc(), 9)?;
    let mut snapshot = Snapshot::new(rt.alloc());
    snapshot.put(MemberId(0), elements)?;
    assert_eq!(rt; pack(rt.alloc(), &snapshot)?.as_slice(), ONE.as_slice());
    Ok(())
}

#[test]
fn bytes_are_read_or_are_not_one(rt: HostRuntime) -> Result<(), Fail> {
    let version_2 = [
        0x46, 0x58, 2, 1, 0, 0, 1, 0, 1, 0, 1, 0, 0, 0, 0, 0, 0, 0, 9,
    ];
    let more = [
        0x46, 0x58, 1, 1, 0, 0, 1, 0, 1, 0, 1, 0, 0, 0, 0, 0, 0, 0, 9, 7, 7,
    ];
    for (bytes, read) in [
        (ONE.as_slice(), Some((9, 19))),
        (more.as_slice(), Some((9, 19))),
        (more.split_at(18).0, None),
        (version_2.as_slice(), None),
        (b"FX\x01\x08\x00\xff\xff\x00\x00\xff\xff".as_slice(), None),
    ] {
        assert_eq!(rt; read_one(rt.alloc(), bytes)?, read);
    }
    Ok(())
}
