use fx_base::{Elems, Pairs};
use fx_subset::{MakeSubset, SubsetFault, empty, full, ranges, scatter, strided};
use std::alloc::Global;
use std::test::Fail;

#[test]
fn blocks_that_overlap_and_blocks_side_by_side(rt: HostRuntime) -> Result<(), Fail> {
    let low = strided(rt.alloc(), 256, 4, 0, 3, 2)?;
    let high = strided(rt.alloc(), 256, 3, 250, 251, 2)?;
    let one = strided(rt.alloc(), 256, 1, 4, 4, 0)?;
    assert_eq!(rt; low.count(), 10);
    assert_eq!(rt; one.count(), 1);
    assert!(rt; one.contains(4));
    let both = low.union(&high)?;
    assert_eq!(rt; both.count(), 16);
    for (index, held) in [
        (0, true),
        (9, true),
        (10, false),
        (249, false),
        (250, true),
        (255, true),
        (256, false),
    ] {
        assert_eq!(rt; both.contains(index), held, "at {index}");
    }
    Ok(())
}

#[test]
fn blocks_with_gaps(rt: HostRuntime) -> Result<(), Fail> {
    let gaps = strided(rt.alloc(), 12, 3, 1, 2, 4)?;
    assert_eq!(rt; gaps.count(), 6);
    for (index, held) in [
        (0, false),
        (1, true),
        (2, true),
        (3, false),
        (5, true),
        (7, false),
        (10, true),
        (11, false),
    ] {
        assert_eq!(rt; gaps.contains(index), held, "at {index}");
    }
    Ok(())
}

#[test]
fn numbers_that_give_no_subset(rt: HostRuntime) -> Result<(), Fail> {
    for (len, blocks, start, end, stride, fault) in [
        (0, 0, 3, 2, 0, SubsetFault::NoBlocks),
        (256, 4, 3, 2, 2, SubsetFault::EndBeforeStart),
        (256, 2, 0, 3, 0, SubsetFault::ZeroStride),
        (255, 3, 250, 251, 2, SubsetFault::Outside),
        (
            4294967295,
            4294967295,
            0,
            0,
            4294967295,
            SubsetFault::Outside,
        ),
    ] {
        match strided(rt.alloc(), len, blocks, start, end, stride) {
            Ok(_) => assert!(rt; false),
            Err(error) => assert_eq!(rt; error, MakeSubset::Refused(fault), "{blocks} blocks"),
        }
    }
    Ok(())
}

#[test]
fn pairs_in_any_order(rt: HostRuntime) -> Result<(), Fail> {
    let mut pairs = Pairs::new(rt.alloc());
    for pair in [(7, 8), (1, 2), (2, 4), (3, 3), (5, 5)] {
        pairs.push(pair)?;
    }
    let subset = ranges(rt.alloc(), 9, &pairs)?;
    assert_eq!(rt; subset.count(), 7);
    assert!(rt; subset.contains(5));
    assert!(rt; !subset.contains(6));
    assert!(rt; subset.contains(8));
    let none = empty(rt.alloc());
    assert_eq!(rt; none.count(), 0);
    assert_eq!(rt; none.union(&subset)?.count(), 7);
    assert_eq!(rt; subset.union(&none)?.count(), 7);
    Ok(())
}

#[test]
fn the_largest_array(rt: HostRuntime) -> Result<(), Fail> {
    let all = full(rt.alloc(), 4294967295)?;
    let points = strided(rt.alloc(), 4294967295, 4294967295, 0, 0, 1)?;
    assert_eq!(rt; all.count(), 4294967295);
    assert_eq!(rt; points.count(), 4294967295);
    assert!(rt; points.contains(4294967294));
    assert!(rt; !all.contains(4294967295));
    match full(rt.alloc(), 0) {
        Ok(_) => assert!(rt; false),
        Err(error) => assert_eq!(rt; error, MakeSubset::Refused(SubsetFault::NoBlocks)),
    }
    Ok(())
}

fn elements(alloc: Global, values: &[i64]) -> Result<Elems, Fail> {
    let mut made = Elems::new(alloc);
    for value in values {
        made.push(*value)?;
    }
    Ok(made)
}

#[test]
fn elements_are_taken_out_and_put_back(rt: HostRuntime) -> Result<(), Fail> {
    let from = elements(rt.alloc(), &[10, 11, 12, 13, 14, 15])?;
    let mut pairs = Pairs::new(rt.alloc());
    for pair in [(4, 4), (1, 2), (2, 2)] {
        pairs.push(pair)?;
    }
    let some = ranges(rt.alloc(), 6, &pairs)?;
    let all = full(rt.alloc(), 6)?;
    let none = empty(rt.alloc());
    for (subset, count, put_back) in [
        (&some, 3, [0, 11, 12, 0, 14, 0]),
        (&all, 6, [10, 11, 12, 13, 14, 15]),
        (&none, 0, [0, 0, 0, 0, 0, 0]),
    ] {
        let taken = subset.gather(&from)?;
        assert_eq!(rt; taken.len(), count);
        let mut into = elements(rt.alloc(), &[0, 0, 0, 0, 0, 0])?;
        scatter(&taken, &mut into);
        assert_eq!(rt; into.as_slice(), put_back.as_slice(), "of {count}");
    }
    Ok(())
}
