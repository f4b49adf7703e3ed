ghost use Rattle.std.specs.Prelude.{◌≡◌, IfOk};
ghost use Rattle.fx_inbox.specs.Keeping.{senders};

use super::*;
use fx_base::{CallNo, Epoch, NoMemory, Proc, Seq};
use fx_link::{Message, Slot, Slots};
use std::test::Fail;

fn join(e: u32, kind: Slot) -> Message {
    Message::Join { e: Epoch(e), kind }
}

/// The slots of three members.
fn slots(rt: &HostRuntime, first: Slot, second: Slot, third: Slot) -> Result<Slots, NoMemory> {
    let mut slots = Seq::new(rt.alloc());
    slots.push(first)?;
    slots.push(second)?;
    slots.push(third)?;
    Slots::of(rt.alloc(), slots)
}

/// What the second of three processes keeps that voted `error` in the ballot of epoch 3.
fn voter(rt: &HostRuntime) -> Result<Inbox, NoMemory>
    ensures { IfOk result (λ box. senders box ≡ 3) }
{
    let mut inbox = Inbox::new(rt.alloc(), 3, Proc(1))?;
    inbox.say(join(3, Slot::Error))?;
    Ok(inbox)
}

/// A message came from the first process.
fn hear(inbox: &mut Inbox, message: Message) -> Result<(), NoMemory>
    requires { senders inbox.old ≡ 3 }
    ensures { senders inbox.new ≡ 3 }
{
    inbox.receive(Proc(0), message)
}

fn estimate(e: u32, r: u8, slots: Slots) -> Message {
    let e = Epoch(e);
    Message::Jest { e, r, slots }
}

fn flag(k: u32, n: i64) -> Message {
    let (e, k, slot) = (Epoch(2), CallNo(k), Slot::Flag(n));
    Message::Vote { e, k, slot }
}

/// Whether the turn of the second of three in call 4 of epoch 2 is this one.
fn takes_in_call(inbox: &Inbox, phase: &mut Phase, wanted: Poll) -> Result<bool, NoMemory>
    requires { senders inbox.now ≡ 3 }
{
    let ballot = Ballot {
        about: About::Call(Epoch(2), CallNo(4), Votes::Flags),
        members: &[0, 1, 2],
        present: &[0, 1, 2],
    };
    Ok(inbox.turn(&ballot, phase)? == wanted)
}

/// Whether the turn of the second of three is this one.
fn takes(inbox: &Inbox, phase: &mut Phase, wanted: Poll) -> Result<bool, NoMemory>
    requires { senders inbox.now ≡ 3 }
{
    let ballot = Ballot::of_next(Epoch(2), &[0, 1, 2]);
    Ok(inbox.turn(&ballot, phase)? == wanted)
}

#[test]
fn the_first_vote_and_a_loss_make_an_estimate(rt: HostRuntime) -> Result<(), Fail> {
    let mut inbox = voter(&rt)?;
    let mut phase = Phase::Voting;
    hear(&mut inbox, join(2, Slot::Spare))?;
    hear(&mut inbox, join(3, Slot::Start))?;
    inbox.lose(Proc(2));
    assert!(rt; takes(&inbox, &mut phase, Poll::NotYet)?);
    hear(&mut inbox, join(3, Slot::Final))?;
    hear(&mut inbox, join(3, Slot::Spare))?;
    assert_eq!(rt; inbox.vote_of(Epoch(2), 0), Some(Slot::Final));
    assert!(rt; inbox.is_lost(2) && !inbox.is_lost(0));
    assert!(rt; takes(&inbox, &mut phase, Poll::Moved)?);
    let wanted = slots(&rt, Slot::Final, Slot::Error, Slot::Lost)?;
    assert!(rt; matches!(&phase, Phase::Round(0, held) if *held == wanted));
    Ok(())
}

#[test]
fn the_second_adopts_speaks_and_decides(rt: HostRuntime) -> Result<(), Fail> {
    let mut inbox = voter(&rt)?;
    inbox.lose(Proc(2));
    let mut phase = Phase::Round(0, slots(&rt, Slot::Final, Slot::Error, Slot::Lost)?);
    let other_vote = slots(&rt, Slot::Final, Slot::Spare, Slot::Error)?;
    hear(&mut inbox, estimate(3, 0, other_vote))?;
    let other_round = slots(&rt, Slot::Final, Slot::Error, Slot::Error)?;
    hear(&mut inbox, estimate(3, 1, other_round))?;
    assert!(rt; takes(&inbox, &mut phase, Poll::NotYet)?);
    let fitting = slots(&rt, Slot::Final, Slot::Error, Slot::Error)?;
    hear(&mut inbox, estimate(3, 0, fitting))?;
    assert!(rt; takes(&inbox, &mut phase, Poll::Moved)?);
    let all = slots(&rt, Slot::Final, Slot::Error, Slot::Error)?;
    assert!(rt; takes(&inbox, &mut phase, Poll::SendEstimate(all))?);
    assert!(rt; takes(&inbox, &mut phase, Poll::Moved)?);
    let all = slots(&rt, Slot::Final, Slot::Error, Slot::Error)?;
    assert!(rt; takes(&inbox, &mut phase, Poll::Decided(all))?);
    Ok(())
}

#[test]
fn in_a_call_who_joined_has_left(rt: HostRuntime) -> Result<(), Fail> {
    let mut inbox = Inbox::new(rt.alloc(), 3, Proc(1))?;
    inbox.say(flag(4, 5))?;
    inbox.lose(Proc(2));
    let mut phase = Phase::Voting;
    let (e, k) = (Epoch(2), CallNo(4));
    hear(&mut inbox, flag(3, 6))?;
    hear(&mut inbox, join(2, Slot::Error))?;
    let slot = Slot::Yes;
    hear(&mut inbox, Message::Vote { e, k, slot })?;
    assert!(rt; takes_in_call(&inbox, &mut phase, Poll::NotYet)?);
    hear(&mut inbox, join(3, Slot::Error))?;
    assert!(rt; takes_in_call(&inbox, &mut phase, Poll::Moved)?);
    let wanted = slots(&rt, Slot::Left, Slot::Flag(5), Slot::Lost)?;
    assert!(rt; matches!(&phase, Phase::Round(0, held) if *held == wanted));
    let slots = slots(&rt, Slot::Flag(6), Slot::Flag(5), Slot::Left)?;
    let r = 0;
    hear(&mut inbox, Message::Est { e, k, r, slots })?;
    assert!(rt; takes_in_call(&inbox, &mut phase, Poll::Moved)?);
    assert!(rt; matches!(&phase, Phase::Round(1, held) if held.nth(0) == Some(&Slot::Flag(6))));
    Ok(())
}

#[test]
fn a_loss_or_a_vote_of_an_epoch_ends_the_calm(rt: HostRuntime) -> Result<(), Fail> {
    let mut inbox = Inbox::new(rt.alloc(), 2, Proc(0))?;
    inbox.receive(Proc(1), flag(3, 6))?;
    assert!(rt; inbox.is_calm());
    inbox.receive(Proc(1), join(3, Slot::Error))?;
    assert!(rt; !inbox.is_calm());
    inbox.forget(Epoch(2), CallNo(4));
    assert!(rt; !inbox.is_calm());
    inbox.forget(Epoch(3), CallNo(0));
    assert!(rt; inbox.is_calm());
    inbox.lose(Proc(1));
    assert!(rt; !inbox.is_calm());
    Ok(())
}

#[test]
fn what_is_of_a_later_epoch_is_kept(rt: HostRuntime) -> Result<(), Fail> {
    let mut inbox = Inbox::new(rt.alloc(), 2, Proc(0))?;
    inbox.receive(Proc(1), join(1, Slot::Start))?;
    inbox.receive(Proc(1), join(2, Slot::Error))?;
    inbox.receive(Proc(1), join(3, Slot::Final))?;
    assert_eq!(rt; inbox.vote_of(Epoch(0), 1), Some(Slot::Start));
    inbox.forget(Epoch(1), CallNo(0));
    assert_eq!(rt; inbox.vote_of(Epoch(0), 1), None);
    assert_eq!(rt; inbox.vote_of(Epoch(1), 1), Some(Slot::Error));
    assert_eq!(rt; inbox.vote_of(Epoch(2), 1), Some(Slot::Final));
    inbox.receive(Proc(0), join(2, Slot::Error))?;
    assert_eq!(rt; inbox.vote_of(Epoch(1), 0), None);
    Ok(())
}

#[test]
fn seats_and_joins(rt: HostRuntime) {
    for (who, seat) in [(4, 0), (9, 1), (31, 2), (5, 3)] {
        assert_eq!(rt; seat_of(&[4, 9, 31], who), seat, "{who}");
    }
    for (slot, first, later) in [
        (Slot::Start, true, false),
        (Slot::Spare, false, true),
        (Slot::Error, false, true),
        (Slot::Final, false, true),
        (Slot::Yes, false, false),
        (Slot::Lost, false, false),
    ] {
        assert!(rt; is_join(Epoch(0), slot) == first && is_join(Epoch(1), slot) == later);
    }
}
