use super::*;
use fx_base::{CallNo, Copied, Epoch, Proc, Seats, Seq, Stamp, Stamps};
use std::alloc::Global;
use std::test::Fail;

fn join(e: u32, kind: Slot) -> Message {
    Message::Join { e: Epoch(e), kind }
}

/// The epoch and the vote of a `join`.
fn vote_of(message: Option<&Message>) -> Option<(u32, Slot)> {
    match message {
        Some(Message::Join { e, kind }) => Some((e.0, *kind)),
        _ => None,
    }
}

#[test]
fn a_link_keeps_the_order(rt: HostRuntime) -> Result<(), Fail> {
    let (zero, one) = (Proc(0), Proc(1));
    let mut links = Links::new(rt.alloc(), 3)?;
    links.send(zero, one, join(1, Slot::Start))?;
    links.send(zero, one, join(2, Slot::Final))?;
    assert_eq!(rt; vote_of(links.front(zero, one)), Some((1, Slot::Start)));
    assert!(rt; links.front(one, zero).is_none());
    assert_eq!(rt;
        vote_of(links.take(zero, one).as_ref()),
        Some((1, Slot::Start))
    );
    assert_eq!(rt;
        vote_of(links.take(zero, one).as_ref()),
        Some((2, Slot::Final))
    );
    assert!(rt; links.take(zero, one).is_none());
    links.send(zero, one, join(1, Slot::Start))?;
    links.close_to(one);
    assert!(rt; links.front(zero, one).is_none());
    links.send(zero, one, join(1, Slot::Start))?;
    assert!(rt; links.front(zero, one).is_none());
    Ok(())
}

#[test]
fn closing_one_link_leaves_the_others(rt: HostRuntime) -> Result<(), Fail> {
    let (zero, one) = (Proc(0), Proc(1));
    let mut links = Links::new(rt.alloc(), 2)?;
    links.send(zero, one, join(1, Slot::Start))?;
    links.send(one, zero, join(1, Slot::Spare))?;
    links.close_from(zero, one);
    assert!(rt; links.front(zero, one).is_none());
    assert_eq!(rt; vote_of(links.front(one, zero)), Some((1, Slot::Spare)));
    links.send(zero, one, join(4, Slot::Error))?;
    assert_eq!(rt; vote_of(links.front(zero, one)), Some((4, Slot::Error)));
    Ok(())
}

/// The next stamp of a `tell`, and the first of those retained.
fn tell_of(message: &Message) -> Option<(Stamp, Option<Stamp>)> {
    match message {
        Message::Tell {
            known: Some(held),
            ..
        } => Some((held.get().next, held.get().stamps.nth(0).copied())),
        _ => None,
    }
}

#[test]
fn a_message_is_copied(rt: HostRuntime) -> Result<(), Fail> {
    let mut stamps = Stamps::new(rt.alloc());
    stamps.push(Stamp(7))?;
    let known = Known {
        created: Epoch(2),
        next: Stamp(8),
        comm: Seats::new(rt.alloc()),
        stamps,
    };
    let tell = Message::Tell {
        e: Epoch(3),
        k: CallNo(4),
        known: Some(Held::new(rt.alloc(), known)?),
    };
    assert_eq!(rt; tell_of(&tell.copy()?), Some((Stamp(8), Some(Stamp(7)))));
    Ok(())
}

#[test]
fn copies_share_a_list(rt: HostRuntime) -> Result<(), Fail> {
    let mut items = Seq::new(rt.alloc());
    items.push(4)?;
    items.push(-9)?;
    let values = Values::of(rt.alloc(), items)?;
    let copy = values.copy()?;
    drop(values);
    assert_eq!(rt; copy.nth(1).copied(), Some(-9));
    assert!(rt; Values::of(rt.alloc(), copy.to_items(rt.alloc())?)? == copy);
    let empty = Values::of(rt.alloc(), Seq::new(rt.alloc()))?;
    assert_eq!(rt; empty.copied()?.len(), 0);
    assert_eq!(rt; Values::empty().to_items(rt.alloc())?.len(), 0);
    Ok(())
}
