ghost use Rattle.std.specs.Prelude.{◌≡◌, ◌≢◌, ◌<◌, ◌≤◌, ◌↔◌, ℕ, List, replicate, true, false, length, Some, None, IfOk, OnOk, OnErr, IsErr, IsSome};
ghost use Rattle.fx_ballot.specs.Turn.{Vote, Estimate, Leaving, Voting, Round, Decided, slot_of, slots_of, unheard};
ghost use Rattle.fx_ballot.specs.World.{Apart, entered, fresh, after, told, acted, turn_of};
ghost use Rattle.fx_link.specs.declared.slot.Slot.{Slot};
ghost use Rattle.fx_agree.specs.Stages.{IsRound};
ghost use Rattle.fx_ballot.specs.Seats.{at_seat, seated, hears_seat, told_seat, seat_turn, polled, spent, as_member, InWorld, Awaits, WholePoll};

use crate::stage::Stage;
use fx_ballot::{Heard, Poll};
use fx_base::{NoMemory, Seq};
use fx_link::{Slot, Slots};
use std::alloc::Global;
use std::marker::Model;

/// One member's part in a ballot: its vote, what it heard, and how far it has come.
#[derive(Debug, Drop)]
pub struct Ballot {
    members: u8,
    me: u8,
    stage: Stage,
    heard: Vec<Heard>,
    failed: bool,
}

impl Model for Ballot {
    ghost use Rattle.fx_ballot.specs.Seats.{Seated};
    ghost use Rattle.fx_agree.specs.Stages.{phase_of, IsKept};

    ghost Value = { Seated };

    ghost view = { λ b. record { members = b.members; me = b.me; phase = phase_of b.stage; heard = b.heard.items; failed = b.failed } };

    ghost invariant = { λ b. IsKept (record { members = b.members; me = b.me; phase = phase_of b.stage; heard = b.heard.items; failed = b.failed }) };
}

impl Ballot {
    /// The ballot of the member at seat `me`, below `members`, of 1 to 32 members, that votes so. Fails only without memory.
    pub fn new(alloc: Global, members: u8, me: u8, vote: Slot) -> Result<Ballot, NoMemory>
        requires few { members ≤ 32 }
        requires member { me < members }
        ensures gathers_votes { IfOk result (λ ballot. ballot ≡ seated members me vote) }
        ensures has_entered { IfOk result (λ ballot. (name : ℕ → ℕ) → Apart members name → as_member name ballot ≡ entered (name me) vote fresh) }
    {
        let mut heard = nobody_heard(alloc, members)?;
        heard[usize::from(me)].vote = Some(vote);
        Ok(Ballot {
            members,
            me,
            stage: Stage::Voting,
            heard,
            failed: false,
        })
    }

    /// The vote of the member at seat `from`, below the number of members, came. A second one changes nothing.
    pub fn on_vote(&mut self, from: u8, slot: Slot)
        requires { from < self.old.members }
        ensures has_heard { self.new ≡ hears_seat from (Vote slot) self.old }
        ensures has_heard_in_the_world { InWorld self.old self.new (λ name. after (name from) (Vote slot)) }
        ensures keeps_its_members { self.new.members ≡ self.old.members }
    {
        let heard = &mut self.heard[usize::from(from)];
        if heard.vote.is_none() {
            heard.vote = Some(slot);
        }
    }

    /// The estimate of round `round`, below the number of members, came, with one slot for each member. A second one of this
    /// round is answered with Ok and changes nothing. Fails only without memory, and then every later call that can fail does.
    pub fn on_estimate(&mut self, round: u8, slots: &Slots) -> Result<(), NoMemory>
        requires below { round < self.old.members }
        requires whole { length slots.now ≡ self.old.members }
        ensures has_heard { OnOk result (self.new ≡ hears_seat round (Estimate round slots.now) self.old) }
        ensures has_heard_in_the_world { OnOk result (InWorld self.old self.new (λ name. after (name round) (Estimate round slots.now))) }
        ensures no_memory { OnErr result (self.new ≡ spent self.old) }
        ensures second_needs_no_memory { OnErr result (self.old.failed ≡ false → (at_seat self.old.heard round).estimate ≡ None) }
        ensures stays_failed { self.old.failed ≡ true → IsErr result }
        ensures keeps_its_members { self.new.members ≡ self.old.members }
    {
        if self.failed {
            return Err(NoMemory);
        }
        let heard = &mut self.heard[usize::from(round)];
        if heard.estimate.is_some() {
            return Ok(());
        }
        match slots.copy() {
            Ok(copy) => {
                heard.estimate = Some(copy);
                Ok(())
            }
            Err(NoMemory) => {
                self.failed = true;
                Err(NoMemory)
            }
        }
    }

    /// The member at seat `who`, below the number of members, is lost.
    pub fn on_lost(&mut self, who: u8)
        requires { who < self.old.members }
        ensures was_told { self.new ≡ told_seat who self.old }
        ensures was_told_in_the_world { InWorld self.old self.new (λ name. told (name who)) }
        ensures keeps_its_members { self.new.members ≡ self.old.members }
    {
        self.heard[usize::from(who)].lost = true;
    }

    /// The member at seat `who`, below the number of members, left.
    pub fn on_left(&mut self, who: u8)
        requires { who < self.old.members }
        ensures has_heard { self.new ≡ hears_seat who Leaving self.old }
        ensures has_heard_in_the_world { InWorld self.old self.new (λ name. after (name who) Leaving) }
        ensures keeps_its_members { self.new.members ≡ self.old.members }
    {
        self.heard[usize::from(who)].left = true;
    }

    /// Takes the one turn that is enabled, and says what it did. After `Decided` each poll answers `Decided` with the same
    /// slots. Fails only without memory, and then every later call that can fail does. A poll that awaits a message takes no
    /// memory, so it fails only where an earlier call did.
    pub fn poll(&mut self) -> Result<Poll, NoMemory>
        ensures takes_its_turn { OnOk result (self.new ≡ polled self.old) }
        ensures says_its_turn { IfOk result (λ answer. answer ≡ (seat_turn self.old).poll) }
        ensures takes_its_turn_in_the_world { OnOk result (InWorld self.old self.new (λ name. acted self.old.members name self.old.me)) }
        ensures says_its_turn_in_the_world { IfOk result (λ answer.
            (name : ℕ → ℕ) → Apart self.old.members name
            → answer ≡ (turn_of self.old.members name self.old.me (as_member name self.old)).poll) }
        ensures waits_for_a_message { IfOk result (λ answer. (answer ≡ Poll.NotYet) ↔ Awaits self.old.members self.old.me (at_seat self.old.heard) self.old.phase) }
        ensures stays_decided { (slots : List Slot) → self.old.phase ≡ Decided slots
            → OnOk result (self.new ≡ self.old) × IfOk result (λ answer. answer ≡ Poll.Decided slots) }
        ensures no_memory { OnErr result (self.new ≡ spent self.old) }
        ensures waits_without_memory { OnErr result (self.old.failed ≡ false → (seat_turn self.old).poll ≢ Poll.NotYet) }
        ensures stays_failed { self.old.failed ≡ true → IsErr result }
        ensures keeps_its_members { self.new.members ≡ self.old.members }
        ensures gives_one_slot_each { IfOk result (λ answer. WholePoll self.old.members answer) }
        ensures waits_unchanged { IfOk result (λ answer. answer ≡ Poll.NotYet → self.new ≡ self.old) }
    {
        if self.failed {
            return Err(NoMemory);
        }
        match self.turn() {
            Ok(answer) => Ok(answer),
            Err(NoMemory) => {
                self.failed = true;
                Err(NoMemory)
            }
        }
    }

    fn turn(&mut self) -> Result<Poll, NoMemory>
        ensures takes { OnOk result (self.new ≡ polled self.old) }
        ensures says { IfOk result (λ answer. answer ≡ (seat_turn self.old).poll) }
        ensures no_memory { OnErr result (self.new ≡ self.old) }
        ensures waits_without_memory { OnErr result ((seat_turn self.old).poll ≢ Poll.NotYet) }
        ensures keeps_its_members { self.new.members ≡ self.old.members }
    {
        match &self.stage {
            Stage::Voting => self.form(),
            Stage::Round(number, held) => {
                let number = *number;
                if number >= self.members {
                    let held = held.copy()?;
                    Ok(self.decide(number, held))
                } else if number == self.me {
                    let held = held.copy()?;
                    self.speak(number, held)
                } else {
                    self.follow(number)
                }
            }
            Stage::Decided(slots) => Ok(Poll::Decided(slots.copy()?)),
        }
    }

    fn form(&mut self) -> Result<Poll, NoMemory>
        requires { self.old.phase ≡ Voting }
        ensures takes { OnOk result (self.new ≡ polled self.old) }
        ensures says { IfOk result (λ answer. answer ≡ (seat_turn self.old).poll) }
        ensures no_memory { OnErr result (self.new ≡ self.old) }
        ensures waits_without_memory { OnErr result ((seat_turn self.old).poll ≢ Poll.NotYet) }
        ensures keeps_its_members { self.new.members ≡ self.old.members }
    {
        if !are_known(&self.heard) {
            return Ok(Poll::NotYet);
        }
        let slots = gathered(*self.heard.allocator(), &self.heard)?;
        self.stage = Stage::Round(0, slots);
        Ok(Poll::Moved)
    }

    fn speak(&mut self, number: u8, held: Slots) -> Result<Poll, NoMemory>
        requires here { self.old.phase ≡ Round number held }
        requires own { number ≡ self.old.me }
        ensures takes { OnOk result (self.new ≡ polled self.old) }
        ensures says { IfOk result (λ answer. answer ≡ (seat_turn self.old).poll) }
        ensures no_memory { OnErr result (self.new ≡ self.old) }
        ensures waits_without_memory { OnErr result ((seat_turn self.old).poll ≢ Poll.NotYet) }
        ensures keeps_its_members { self.new.members ≡ self.old.members }
    {
        let own = held.copy()?;
        self.heard[usize::from(number)].estimate = Some(own);
        self.stage.pass();
        Ok(Poll::SendEstimate(held))
    }

    fn decide(&mut self, number: u8, held: Slots) -> Poll
        requires here { self.old.phase ≡ Round number held }
        requires all_passed { self.old.members ≤ number }
        ensures takes { self.new ≡ polled self.old }
        ensures says { result ≡ (seat_turn self.old).poll }
        ensures keeps_its_members { self.new.members ≡ self.old.members }
    {
        self.stage.close();
        Poll::Decided(held)
    }

    fn follow(&mut self, number: u8) -> Result<Poll, NoMemory>
        requires here { IsRound number self.old.phase }
        requires below { number < self.old.members }
        requires other { number ≢ self.old.me }
        ensures takes { OnOk result (self.new ≡ polled self.old) }
        ensures says { IfOk result (λ answer. answer ≡ (seat_turn self.old).poll) }
        ensures no_memory { OnErr result (self.new ≡ self.old) }
        ensures waits_without_memory { OnErr result ((seat_turn self.old).poll ≢ Poll.NotYet) }
        ensures keeps_its_members { self.new.members ≡ self.old.members }
    {
        let heard = &self.heard[usize::from(number)];
        match &heard.estimate {
            Some(slots) => {
                self.stage = Stage::Round(number + 1, slots.copy()?);
                Ok(Poll::Moved)
            }
            None if heard.lost || heard.left => {
                self.stage.pass();
                Ok(Poll::Moved)
            }
            None => Ok(Poll::NotYet),
        }
    }
}

/// That nothing was heard of any of the members.
fn nobody_heard(alloc: Global, members: u8) -> Result<Vec<Heard>, NoMemory>
    ensures { IfOk result (λ heard. heard.items ≡ replicate members unheard) }
{
    let mut heard = Vec::new(alloc);
    for _seat in 0..members {
        heard.push(Heard {
            vote: None,
            estimate: None,
            lost: false,
            left: false,
        })?;
    }
    Ok(heard)
}

/// Whether a member's slot is known: its vote was heard, it is lost, or it left.
fn is_known(heard: &Heard) -> bool
    ensures known { result ≡ true → IsSome (slot_of heard.now.vote heard.now.lost heard.now.left) }
    ensures unknown { result ≡ false → slot_of heard.now.vote heard.now.lost heard.now.left ≡ None }
{
    match heard.vote {
        Some(_) => true,
        None => heard.lost || heard.left,
    }
}

/// Whether the slot of each member is known.
fn are_known(heard: &[Heard]) -> bool
    ensures known { result ≡ true → IsSome (slots_of (at_seat heard.now) (length heard.now)) }
    ensures unknown { result ≡ false → slots_of (at_seat heard.now) (length heard.now) ≡ None }
{
    for known in heard {
        if !is_known(known) {
            return false;
        }
    }
    true
}

/// The slot of a member, which is known: its vote, else `Lost`, else `Left`.
fn slot_known(heard: &Heard) -> Slot
    requires { IsSome (slot_of heard.now.vote heard.now.lost heard.now.left) }
    ensures { slot_of heard.now.vote heard.now.lost heard.now.left ≡ Some result }
{
    match heard.vote {
        Some(slot) => slot,
        None if heard.lost => Slot::Lost,
        None => Slot::Left,
    }
}

/// The slots of all members, each of which is known.
fn gathered(alloc: Global, heard: &[Heard]) -> Result<Slots, NoMemory>
    requires { IsSome (slots_of (at_seat heard.now) (length heard.now)) }
    ensures { IfOk result (λ slots. slots_of (at_seat heard.now) (length heard.now) ≡ Some slots) }
{
    let mut slots = Seq::new(alloc);
    slots.reserve(heard.len())?;
    for known in heard {
        slots.push(slot_known(known))?;
    }
    Slots::of(alloc, slots)
}
