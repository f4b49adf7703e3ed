ghost use Rattle.std.specs.Prelude.{◌≡◌, ◌≤◌};
ghost use Rattle.fx_node.specs.Standing.{processes};

use crate::jobs::{TWO_RANKS, job_of};
use fx_base::{CallNo, Epoch, Ident, Proc, Seats, Seq, Stamp, StampShares, Stamps};
use fx_flow::Flow;
use fx_item::{Item, Items};
use fx_link::{Held, Known, Message, Slot, Slots, Values};
use fx_node::{Moved, Node, Outbox};
use std::alloc::Global;
use std::test::Fail;

const NUMBERS: [u32; 3] = [0, 1, u32::MAX];

// Messages of every kind, of the first epochs and calls and the last, with as many slots as there are members, too few and
// too many.
fn messages(alloc: Global) -> Result<Seq<Message>, Fail> {
    let mut all = Seq::new(alloc);
    for number in NUMBERS {
        add_joins(&mut all, Epoch(number))?;
        add_estimates(alloc, &mut all, Epoch(number))?;
        for call in NUMBERS {
            add_of_call(alloc, &mut all, Epoch(number), CallNo(call))?;
        }
    }
    Ok(all)
}

fn add_joins(all: &mut Seq<Message>, e: Epoch) -> Result<(), Fail> {
    for kind in [Slot::Start, Slot::Final, Slot::Yes, Slot::NoLost(Proc(9))] {
        all.push(Message::Join { e, kind })?;
    }
    Ok(())
}

fn add_estimates(alloc: Global, all: &mut Seq<Message>, e: Epoch) -> Result<(), Fail> {
    for count in 0..4 {
        let slots = slots_of(alloc, count)?;
        all.push(Message::Jest { e, r: count, slots })?;
    }
    Ok(())
}

fn add_of_call(alloc: Global, all: &mut Seq<Message>, e: Epoch, k: CallNo) -> Result<(), Fail> {
    for kind in 0..8 {
        all.push(message_of_call(alloc, e, k, kind)?)?;
    }
    Ok(())
}

fn message_of_call(alloc: Global, e: Epoch, k: CallNo, kind: u8) -> Result<Message, Fail> {
    match kind {
        0 => Ok(part(e, k)),
        1 => Ok(vote(e, k)),
        2 => estimate(alloc, e, k),
        3 => Ok(Message::Tell { e, k, known: None }),
        4 => tell(alloc, e, k),
        5 => Ok(share(alloc, e, k)),
        6 => Ok(help(alloc, e, k)),
        _ => Ok(give(alloc, e, k)),
    }
}

fn part(e: Epoch, k: CallNo) -> Message {
    let elems = Values::empty();
    Message::Part { e, k, elems }
}

fn vote(e: Epoch, k: CallNo) -> Message {
    let slot = Slot::Flag(-1);
    Message::Vote { e, k, slot }
}

fn estimate(alloc: Global, e: Epoch, k: CallNo) -> Result<Message, Fail> {
    let slots = slots_of(alloc, 2)?;
    Ok(Message::Est { e, k, r: 0, slots })
}

fn tell(alloc: Global, e: Epoch, k: CallNo) -> Result<Message, Fail> {
    let known = Some(Held::new(alloc, known_of(alloc)?)?);
    Ok(Message::Tell { e, k, known })
}

fn share(alloc: Global, e: Epoch, k: CallNo) -> Message {
    let shares = StampShares::new(alloc);
    Message::Share { e, k, shares }
}

fn help(alloc: Global, e: Epoch, k: CallNo) -> Message {
    let shares = StampShares::new(alloc);
    Message::Help { e, k, shares }
}

fn give(alloc: Global, e: Epoch, k: CallNo) -> Message {
    let shares = StampShares::new(alloc);
    Message::Give { e, k, shares }
}

fn slots_of(alloc: Global, count: u8) -> Result<Slots, Fail> {
    let mut slots = Seq::new(alloc);
    for _ in 0..count {
        slots.push(Slot::Lost)?;
    }
    Ok(Slots::of(alloc, slots)?)
}

fn known_of(alloc: Global) -> Result<Known, Fail> {
    let mut comm = Seats::new(alloc);
    comm.push((Ident(7), Proc(200)))?;
    Ok(Known {
        created: Epoch(u32::MAX),
        next: Stamp(i64::MIN),
        comm,
        stamps: Stamps::new(alloc),
    })
}

// Every one of them comes from every process, the node's own among them.
fn hear_all(alloc: Global, node: &mut Node, procs: u8) -> Result<(), Fail>
    requires { procs ≤ processes node.old }
    ensures { processes node.new ≡ processes node.old }
{
    for from in 0..procs {
        for message in messages(alloc)?.into_items() {
            node.receive(Proc(from), message)?;
        }
    }
    Ok(())
}

#[test]
fn a_node_hears_whatever_comes_between_its_steps(rt: HostRuntime) -> Result<(), Fail> {
    let alloc = rt.alloc();
    let job = job_of(&rt, alloc, TWO_RANKS)?;
    assert!(rt; job.procs() > 1);
    let mut node = Node::new(alloc, &job, &Flow::new(alloc, &job)?, Proc(1))?;
    let mut sends = Outbox::new(alloc);
    let mut items = Items::new(alloc);
    let mut moved = Moved::Acted;
    for _ in 0..4 {
        hear_all(alloc, &mut node, job.procs())?;
        node.notice(Proc(0));
        moved = node.step(&mut sends, &mut items)?;
    }
    assert!(rt; moved != Moved::Ended && !node.has_ended());
    assert!(rt;
        matches!(
            items.nth(0),
            Some(Item::Join {
                p: Proc(1),
                e: Epoch(1),
                kind: Slot::Start
            })
        )
    );
    Ok(())
}
