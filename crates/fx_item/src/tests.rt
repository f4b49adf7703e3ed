use super::*;
use fx_base::{Bytes, CallNo, Copied, Elems, Epoch, GroupId, MemberId, Proc, Sparse, Stamp};
use fx_link::{Message, Slot};
use std::alloc::Global;
use std::test::Fail;

fn one_element(alloc: Global) -> Result<Sparse, Fail> {
    let mut list = Sparse::new(alloc);
    list.put(3, -5)?;
    Ok(list)
}

#[test]
fn items_are_copied(rt: HostRuntime) -> Result<(), Fail> {
    let alloc = rt.alloc();
    let mut name = Bytes::new(alloc);
    name.append(b"a")?;
    let mut numbers = Elems::new(alloc);
    numbers.push(7)?;
    let mut items = Items::new(alloc);
    items.push(Item::Print {
        p: Proc(2),
        e: Epoch(1),
        name,
        list: numbers,
    })?;
    items.push(Item::Store {
        p: Proc(2),
        e: Epoch(1),
        g: GroupId(0),
        m: MemberId(4),
        list: one_element(alloc)?,
    })?;
    items.push(Item::Send {
        p: Proc(2),
        q: Proc(3),
        message: Message::Vote {
            e: Epoch(1),
            k: CallNo(9),
            slot: Slot::Flag(6),
        },
    })?;
    items.push(Item::Refused {
        p: Proc(2),
        e: Epoch(1),
        statement: Refusable::Restore,
        g: GroupId(0),
        m: MemberId(4),
        t: Stamp(5),
        answer: Answer::NotStored,
    })?;
    let copies = Copied::copied(&items)?;
    let [first, second, third, fourth] = copies.as_slice() else {
        assert!(rt; false, "there are four items");
        return Ok(());
    };
    assert!(rt; matches!(first, Item::Print { p: Proc(2), .. }));
    assert!(rt; matches!(second, Item::Store { m: MemberId(4), .. }));
    assert!(rt;
        matches!(
            third,
            Item::Send {
                q: Proc(3),
                message: Message::Vote {
                    k: CallNo(9),
                    slot: Slot::Flag(6),
                    ..
                },
                ..
            }
        )
    );
    assert!(rt;
        matches!(
            fourth,
            Item::Refused {
                statement: Refusable::Restore,
                answer: Answer::NotStored,
                ..
            }
        )
    );
    if let Item::Print { name, list, .. } = first {
        assert_eq!(rt; name.as_slice(), b"a".as_slice());
        assert_eq!(rt; list.as_slice(), [7].as_slice());
    }
    if let Item::Store { list, .. } = second {
        assert_eq!(rt; list.get(3).copied(), Some(-5));
    }
    Ok(())
}
