ghost use Rattle.std.specs.Prelude.{◌≡◌, length, IfOk};

use fx_agree::{Ballot, Poll};
use fx_base::Seq;
use fx_link::{Slot, Slots};
use std::test::Fail;

fn three(rt: &HostRuntime, first: Slot, second: Slot, third: Slot) -> Result<Slots, Fail>
    ensures { IfOk result (λ slots. length slots ≡ 3) }
{
    let mut slots = Seq::new(rt.alloc());
    slots.push(first)?;
    slots.push(second)?;
    slots.push(third)?;
    Ok(Slots::of(rt.alloc(), slots)?)
}

#[test]
fn the_last_of_three_adopts_speaks_and_decides(rt: HostRuntime) -> Result<(), Fail> {
    let mut ballot = Ballot::new(rt.alloc(), 3, 2, Slot::Yes)?;
    ballot.on_vote(0, Slot::Yes);
    ballot.on_lost(1);
    assert!(rt; ballot.poll()? == Poll::Moved);
    assert!(rt; ballot.poll()? == Poll::NotYet);
    ballot.on_estimate(0, &three(&rt, Slot::Yes, Slot::Yes, Slot::Yes)?)?;
    assert!(rt; ballot.poll()? == Poll::Moved);
    assert!(rt; ballot.poll()? == Poll::Moved);
    assert!(rt; ballot.poll()? == Poll::SendEstimate(three(&rt, Slot::Yes, Slot::Yes, Slot::Yes)?));
    assert!(rt; ballot.poll()? == Poll::Decided(three(&rt, Slot::Yes, Slot::Yes, Slot::Yes)?));
    assert!(rt; ballot.poll()? == Poll::Decided(three(&rt, Slot::Yes, Slot::Yes, Slot::Yes)?));
    Ok(())
}

#[test]
fn the_first_vote_stays_and_one_that_left_has_the_slot_left(rt: HostRuntime) -> Result<(), Fail> {
    let mut ballot = Ballot::new(rt.alloc(), 3, 0, Slot::Kept)?;
    ballot.on_left(2);
    assert!(rt; ballot.poll()? == Poll::NotYet);
    ballot.on_vote(1, Slot::Fresh);
    ballot.on_vote(1, Slot::Gone);
    assert!(rt; ballot.poll()? == Poll::Moved);
    assert!(rt;
        ballot.poll()? == Poll::SendEstimate(three(&rt, Slot::Kept, Slot::Fresh, Slot::Left)?)
    );
    assert!(rt; ballot.poll()? == Poll::NotYet);
    Ok(())
}
