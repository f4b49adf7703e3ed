//! Agreements: the places vote with flags, and the call comes to what the ballot of their votes decides.
ghost use Rattle.std.specs.Prelude.{◌≡◌, ◌<◌, ◌≤◌, ◌++◌, ℕ, ℤ, true, List, All, Some, IfOk, OnOk, length, take};
ghost use Rattle.std.specs.Option.{option_map};
ghost use Rattle.fx_base.specs.declared.names.Proc.{Proc};
ghost use Rattle.fx_comm.specs.Seats.{has_place};
ghost use Rattle.fx_fleet.specs.Runs.{job_setup};
ghost use Rattle.fx_inbox.specs.Keeping.{IsInboxOf};
ghost use Rattle.fx_inbox.specs.declared.phase.Phase.TheVariants as Phase;
ghost use Rattle.fx_link.specs.declared.message.Message.{Message};
ghost use Rattle.fx_link.specs.declared.message.Message.TheVariants as message;
ghost use Rattle.fx_machine.specs.Calls.{common_bits, decides_call};
ghost use Rattle.fx_machine.specs.Messages.{wire_text};
ghost use Rattle.fx_machine.specs.Nodes as defined;
ghost use Rattle.fx_machine.specs.Nodes.{keeping, procs_of};
ghost use Rattle.fx_machine.specs.Numbers.{call_no, epoch_no};
ghost use Rattle.fx_machine.specs.Gathering.{returns_number};
ghost use Rattle.fx_machine.specs.Steps.{in_walk, next};
ghost use Rattle.fx_machine.specs.Waits.{all_agree, error_in, first_error, is_affirmative};
ghost use Rattle.fx_node.specs.Agreeing.{error_of};
ghost use Rattle.fx_node.specs.Standing.{HasTurnedInCall, IsBalloting, IsNodeOf, processes};
ghost use Rattle.fx_node.specs.Stepping.{Steps, broadcast, call_estimate};
ghost use Rattle.fx_node.specs.declared.node.Moved.TheVariants as Moved;
ghost use Rattle.fx_node.specs.declared.stage.Stage.TheVariants as Stage;
ghost use Rattle.fx_script.specs.declared.job.Job.{Job};
ghost use Rattle.fx_walk.specs.State.{State};
ghost use Rattle.fx_walk.specs.Walk.{Asks, Reply, TextPlace, Walk};
ghost use Rattle.fx_walk.specs.declared.wanted.Wanted.TheVariants as wanted;

use crate::node::{Moved, Node, Outbox};
use crate::stage::Stage;
use fx_base::{CallNo, NoMemory, Place, Proc, Seats};
use fx_comm::Comm;
use fx_flow::{At, Wanted};
use fx_inbox::{About, Ballot, Phase, Poll, Votes};
use fx_item::{Item, Items};
use fx_link::{Message, Slot, Slots};

/// Why a call doesn't do what was asked.
#[derive(Clone, Copy, Debug)]
enum CallError {
    /// This process is lost.
    Lost(Proc),
    /// This process left.
    Left(Proc),
}

impl Node {
    /// Enters an agreement with its own flag.
    pub(crate) fn enter_agreement(
        &mut self,
        flag: i64,
        sends: &mut Outbox,
        items: &mut Items,
    ) -> Result<Moved, NoMemory>
        requires walking { self.old.stage ≡ Stage.Walking }
        ensures steps { IfOk result (λ moved. (job : Job) (n : defined.Node) (place : TextPlace) (state : State) (rest : Reply → Walk) → IsNodeOf job self.old n
            → n.walk ≡ Asks place (wanted.Agree flag) state rest
            → Steps job n (in_walk (job_setup job) n (Asks place (wanted.Agree flag) state rest)) moved self.new sends.old sends.new items.old items.new) }
        ensures to_processes { OnOk result (All (λ x. x.0.0 < processes self.old) sends.old → All (λ x. x.0.0 < processes self.old) sends.new) }
        ensures of_all { processes self.new ≡ processes self.old }
    {
        let Some(next) = self.calls.checked_add(1) else {
            return Ok(Moved::Quiet);
        };
        items.push(Item::Agree {
            p: self.me,
            e: self.epoch,
            k: CallNo(next),
            n: flag,
        })?;
        self.cast(next, Slot::Flag(flag), sends)?;
        Ok(Moved::Acted)
    }

    // Enters the next call with its vote.
    fn cast(&mut self, next: u32, slot: Slot, sends: &mut Outbox) -> Result<(), NoMemory>
        ensures casts { OnOk result ((n : defined.Node) → n.epoch ≡ self.old.epoch → n.calls ≤ next → IsInboxOf n self.old.inbox
            → IsInboxOf (keeping (wire_text (message.Vote (epoch_no self.old.epoch) (call_no next) slot)) (record n { calls = next })) self.new.inbox) }
        ensures same { OnOk result (self.new ≡ record self.old { calls = next; stage = Stage.Balloting Phase.Voting; inbox = self.new.inbox }) }
        ensures sends { OnOk result (sends.new ≡ sends.old ++ broadcast self.old.me (procs_of self.old.comm) (message.Vote (epoch_no self.old.epoch) (call_no next) slot)) }
        ensures to_processes { OnOk result (All (λ x. x.0.0 < processes self.old) sends.old → All (λ x. x.0.0 < processes self.old) sends.new) }
        ensures of_all { processes self.new ≡ processes self.old }
    {
        let vote = Message::Vote {
            e: self.epoch,
            k: CallNo(next),
            slot,
        };
        self.calls = next;
        self.inbox.forget(self.epoch, CallNo(next));
        self.tell_places(vote, sends)?;
        self.stage = Stage::Balloting(Phase::Voting);
        Ok(())
    }

    // Sends a vote or an estimate to each other place; it counts as heard by itself.
    fn tell_places(&mut self, message: Message, sends: &mut Outbox) -> Result<(), NoMemory>
        ensures sends { OnOk result (sends.new ≡ sends.old ++ broadcast self.old.me (procs_of self.old.comm) message) }
        ensures says { OnOk result ((n : defined.Node) → IsInboxOf n self.old.inbox → IsInboxOf (keeping (wire_text message) n) self.new.inbox) }
        ensures same { self.new ≡ record self.old { inbox = self.new.inbox } }
        ensures to_processes { OnOk result (All (λ x. x.0.0 < processes self.old) sends.old → All (λ x. x.0.0 < processes self.old) sends.new) }
        ensures of_all { processes self.new ≡ processes self.old }
    {
        let seats = self.comm.seats().as_slice();
        sends.reserve(seats.len())?;
        for seat in seats {
            if seat.1 != self.me {
                sends.push((seat.1, message.copy()?))?;
            }
        }
        self.inbox.say(message)
    }

    /// The turn in the ballot of its call.
    pub(crate) fn take_call_turn(
        &mut self,
        sends: &mut Outbox,
        items: &mut Items,
    ) -> Result<Moved, NoMemory>
        requires { IsBalloting self.old.stage }
        ensures steps { IfOk result (λ moved. (job : Job) (n : defined.Node) → IsNodeOf job self.old n
            → Steps job n (next (job_setup job) n) moved self.new sends.old sends.new items.old items.new) }
        ensures to_processes { OnOk result (All (λ x. x.0.0 < processes self.old) sends.old → All (λ x. x.0.0 < processes self.old) sends.new) }
        ensures of_all { processes self.new ≡ processes self.old }
    {
        match self.call_turn()? {
            Poll::NotYet => Ok(Moved::Quiet),
            Poll::Moved => Ok(Moved::Acted),
            Poll::SendEstimate(slots) => self.say_call_estimate(slots, sends),
            Poll::Decided(slots) => self.decide_call(&slots, items),
        }
    }

    // Takes the turn that is enabled in the ballot of its call, and says what it did.
    fn call_turn(&mut self) -> Result<Poll, NoMemory>
        requires { IsBalloting self.old.stage }
        ensures turned { IfOk result (λ said. HasTurnedInCall self.old self.new said) }
        ensures of_all { processes self.new ≡ processes self.old }
    {
        let members = processes_of(&self.comm);
        let places = usize::from(self.comm.size());
        let Stage::Balloting(phase) = &mut self.stage else {
            return Ok(Poll::NotYet);
        };
        let ballot = Ballot {
            about: About::Call(self.epoch, CallNo(self.calls), Votes::Flags),
            members: &members[..places],
            present: self.present.as_slice(),
        };
        self.inbox.turn(&ballot, phase)
    }

    // Says its estimate, of the round of its own place.
    fn say_call_estimate(&mut self, slots: Slots, sends: &mut Outbox) -> Result<Moved, NoMemory>
        ensures says { IfOk result (λ moved. has_place self.old.comm self.old.me ≡ true → (moved ≡ Moved.Acted)
            × (sends.new ≡ sends.old ++ broadcast self.old.me (procs_of self.old.comm) (call_estimate self.old slots))
            × ((n : defined.Node) → IsInboxOf n self.old.inbox → IsInboxOf (keeping (wire_text (call_estimate self.old slots)) n) self.new.inbox)) }
        ensures same { self.new ≡ record self.old { inbox = self.new.inbox } }
        ensures to_processes { OnOk result (All (λ x. x.0.0 < processes self.old) sends.old → All (λ x. x.0.0 < processes self.old) sends.new) }
        ensures of_all { processes self.new ≡ processes self.old }
    {
        let Some(place) = self.comm.place_of(self.me) else {
            return Ok(Moved::Quiet);
        };
        let estimate = Message::Est {
            e: self.epoch,
            k: CallNo(self.calls),
            r: place.0,
            slots,
        };
        self.tell_places(estimate, sends)?;
        Ok(Moved::Acted)
    }

    // The ballot is decided: the first error of a slot is that of the call; without one it returns the bits that all flags have.
    fn decide_call(&mut self, slots: &Slots, items: &mut Items) -> Result<Moved, NoMemory>
        requires { IsBalloting self.old.stage }
        ensures decides { IfOk result (λ moved. (job : Job) (n : defined.Node) (sends : List (Proc × Message)) (place : TextPlace) (flag : ℤ) (state : State) (rest : Reply → Walk) → IsNodeOf job self.old n
            → n.walk ≡ Asks place (wanted.Agree flag) state rest
            → Steps job n (decides_call (job_setup job) n (wanted.Agree flag) rest slots.now) moved self.new sends sends items.old items.new) }
        ensures of_all { processes self.new ≡ processes self.old }
    {
        match first_error(self.comm.seats(), slots) {
            Some(CallError::Lost(lost)) => self.fail(lost, items),
            Some(CallError::Left(left)) => self.revoke(left, items),
            None if all_agree(slots) => self.give_agreed(common_bits(slots), items),
            None => Ok(Moved::Quiet),
        }
    }

    // The body goes on with what was agreed.
    fn give_agreed(&mut self, bits: i64, items: &mut Items) -> Result<Moved, NoMemory>
        requires { IsBalloting self.old.stage }
        ensures gives { IfOk result (λ moved. (job : Job) (n : defined.Node) (sends : List (Proc × Message)) (place : TextPlace) (flag : ℤ) (state : State) (rest : Reply → Walk) → IsNodeOf job self.old n
            → n.walk ≡ Asks place (wanted.Agree flag) state rest
            → Steps job n (Some (returns_number n rest bits)) moved self.new sends sends items.old items.new) }
        ensures of_all { processes self.new ≡ processes self.old }
    {
        let At::Outward = self.flow.at() else {
            return Ok(Moved::Quiet);
        };
        match self.flow.wanted(&self.view)? {
            Wanted::Agree(_) => self.give_number(bits, items),
            _ => Ok(Moved::Quiet),
        }
    }
}

// The processes of all places, in their order. What stands behind them has no meaning.
fn processes_of(comm: &Comm) -> [u8; 32]
    ensures { take (length comm.now) result ≡ procs_of comm.now }
{
    let mut processes = [0; 32];
    for place in 0..comm.size() {
        processes[usize::from(place)] = comm.proc_at(Place(place)).0;
    }
    processes
}

// The error of the first slot that has one, in the order of places.
fn first_error(seats: &Seats, slots: &Slots) -> Option<CallError>
    ensures { option_map error_of result ≡ first_error (procs_of seats.now) slots.now }
{
    for (seat, slot) in seats.as_slice().iter().zip(slots.as_slice().iter()) {
        let error = error_in(seat.1, *slot);
        if error.is_some() {
            return error;
        }
    }
    None
}

// The error of the slot of a process.
fn error_in(who: Proc, slot: Slot) -> Option<CallError>
    ensures { option_map error_of result ≡ error_in who.0 slot }
{
    match slot {
        Slot::Lost => Some(CallError::Lost(who)),
        Slot::Left => Some(CallError::Left(who)),
        Slot::NoLost(lost) => Some(CallError::Lost(lost)),
        Slot::NoLeft(left) => Some(CallError::Left(left)),
        _ => None,
    }
}

// Whether all members agree.
fn all_agree(slots: &Slots) -> bool
    ensures { result ≡ all_agree slots.now }
{
    for slot in slots.as_slice() {
        if !is_affirmative(*slot) {
            return false;
        }
    }
    true
}

fn is_affirmative(slot: Slot) -> bool
    ensures { result ≡ is_affirmative slot }
{
    matches!(
        slot,
        Slot::Yes | Slot::Flag(_) | Slot::Fresh | Slot::Kept | Slot::Gone
    )
}

// The bits that all flags have.
fn common_bits(slots: &Slots) -> i64
    ensures { result ≡ common_bits slots.now }
{
    let mut bits = -1;
    for slot in slots.as_slice().iter().rev() {
        if let Slot::Flag(flag) = slot {
            bits &= *flag;
        }
    }
    bits
}
