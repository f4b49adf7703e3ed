ghost use Rattle.std.specs.Prelude.{◌≡◌, ◌≢◌, ◌<◌, ◌≤◌, ◌&&◌, ◌||◌, ℕ, List, Bool, true, false, All, IsTrue, IfOk, OnOk, OnErr, length};
ghost use Rattle.std.specs.Option.{option_copied};
ghost use Rattle.fx_ballot.specs.Names.{seat_of};
ghost use Rattle.fx_ballot.specs.Turn.{Round, slot_of, speak};
ghost use Rattle.fx_inbox.specs.Ballots.{TakesPart, about_of, ballot_of};
ghost use Rattle.fx_inbox.specs.Joins.{HasNoJoin, IsCalm};
ghost use Rattle.fx_inbox.specs.Keeping.{IsInboxOf, Knows, goes_on, part_from, senders};
ghost use Rattle.fx_inbox.specs.declared.phase.Phase.TheVariants as Phase;
ghost use Rattle.fx_inbox.specs.Turns.{IsTurn, Stays, phase_of};
ghost use Rattle.fx_machine.specs.Messages.{wire_text};
ghost use Rattle.fx_machine.specs.Nodes.{Node, first_node, is_told, keeping, receives};
ghost use Rattle.fx_machine.specs.Reading.{estimate_of, has_left, is_of_call, next_ballot, turn_in, vote_of};
ghost use Rattle.fx_machine.specs.Setup.{Setup};
ghost use Rattle.fx_machine.specs.Texts.{Text};

use crate::ballot::{About, Ballot, has, seat_of};
use crate::estimate::{Measure, first_estimate, has_estimate};
use crate::part::first_part;
use crate::phase::Phase;
use crate::row::{Row, is_vote_of_epoch};
use crate::vote::first_vote;
use fx_ballot::Poll;
use fx_base::{CallNo, Epoch, NoMemory, Proc, ProcSet, Seq};
use fx_link::{Message, Slot, Slots, Values};
use std::alloc::Global;
use std::marker::Model;

/// What a process keeps: the messages that came from each process, its own votes and estimates, and of whose loss it was
/// told. Each process that is handed in is below the number of processes that it was made for.
#[derive(Debug, Drop)]
pub struct Inbox {
    me: Proc,
    lost: ProcSet,
    rows: Vec<Row>,
    // Whether a vote in the ballot of an epoch may be kept.
    joined: bool,
}

impl Model for Inbox {
    ghost use Rattle.std.specs.Prelude.{◌≡◌, false};
    ghost use Rattle.fx_inbox.specs.Joins.{HasNoJoin, IsCalm};
    ghost use Rattle.fx_inbox.specs.Keeping.{IsOfFew, Kept, kept_code};

    ghost Value = { Kept };

    ghost coded = { kept_code };

    ghost view = { λ b. record { me = b.me.0; lost = b.lost; messages = b.rows.items } };

    ghost invariant = { λ b. IsOfFew (record { me = b.me.0; lost = b.lost; messages = b.rows.items }) × (b.joined ≡ false → HasNoJoin b.rows.items) };
}

impl Inbox {
    /// What process `me` keeps, one of 1 to 32, before anything happens: nothing.
    pub fn new(alloc: Global, procs: u8, me: Proc) -> Result<Inbox, NoMemory>
        requires few { procs ≤ 32 }
        requires one_of_them { me.0 < procs }
        ensures knows { IfOk result (λ box. (s : Setup) → IsInboxOf (first_node s me.0) box) }
        ensures of_all { IfOk result (λ box. senders box ≡ procs) }
    {
        let mut rows = Vec::new(alloc);
        for _process in 0..procs {
            rows.push(Row::new(alloc))?;
        }
        Ok(Inbox {
            me,
            lost: ProcSet::new(),
            rows,
            joined: false,
        })
    }

    /// A message came. One from oneself is never read, and isn't kept. Without memory nothing changes.
    pub fn receive(&mut self, from: Proc, message: Message) -> Result<(), NoMemory>
        requires { from.0 < senders self.old }
        ensures ok { OnOk result ((n : Node) → IsInboxOf n self.old → IsInboxOf (receives from.0 (wire_text message) n) self.new) }
        ensures no_memory { OnErr result (self.new ≡ self.old) }
        ensures of_all { senders self.new ≡ senders self.old }
        ensures same { self.new.me ≡ self.old.me }
    {
        if from == self.me {
            return Ok(());
        }
        self.joined = self.joined || is_vote_of_epoch(&message);
        self.rows[usize::from(from.0)].push(message)
    }

    /// Its own vote or estimate counts as heard. Without memory nothing changes.
    pub fn say(&mut self, message: Message) -> Result<(), NoMemory>
        requires { self.old.me < senders self.old }
        ensures ok { OnOk result ((n : Node) → IsInboxOf n self.old → IsInboxOf (keeping (wire_text message) n) self.new) }
        ensures no_memory { OnErr result (self.new ≡ self.old) }
        ensures of_all { senders self.new ≡ senders self.old }
        ensures same { self.new.me ≡ self.old.me }
    {
        self.joined = self.joined || is_vote_of_epoch(&message);
        self.rows[usize::from(self.me.0)].push(message)
    }

    /// It is told that a process, below 32, is lost. It takes no memory.
    pub fn lose(&mut self, who: Proc)
        requires { who.0 < 32 }
        ensures ok { (n : Node) → IsInboxOf n self.old → IsInboxOf (is_told who.0 n) self.new }
        ensures of_all { senders self.new ≡ senders self.old }
        ensures same { self.new.me ≡ self.old.me }
    {
        self.lost.insert(who.0);
    }

    /// Whether it was told that a process, below 32, is lost.
    pub fn is_lost(&self, who: u8) -> bool
        requires { who < 32 }
        ensures { (n : Node) → IsInboxOf n self.now → result ≡ n.lost who }
    {
        self.lost.has(who)
    }

    /// It has come to this call of this epoch, to 0 at its begin: all that is over may be forgotten. It takes no memory.
    pub fn forget(&mut self, epoch: Epoch, call: CallNo)
        ensures ok { (me before calls : ℕ) (lost : ℕ → Bool) (texts : ℕ → List Text) → goes_on before calls epoch.0 call.0 ≡ true → Knows me before calls lost texts self.old → Knows me epoch.0 call.0 lost texts self.new }
        ensures of_all { senders self.new ≡ senders self.old }
        ensures same { self.new.me ≡ self.old.me }
    {
        for row in self.rows.iter_mut() {
            row.forget(epoch, call);
        }
        self.joined = self.joined && has_joins(&self.rows);
    }

    /// Whether it was told of no loss and keeps no vote in the ballot of an epoch: then nobody is lost or has left.
    pub fn is_calm(&self) -> bool
        ensures { IsTrue result → (n : Node) → IsInboxOf n self.now → IsCalm n }
    {
        !self.joined && self.lost.least().is_none()
    }

    /// What a process votes in the ballot of the epoch behind this one, if that was heard. One's own vote counts as it is;
    /// another's counts where it may be a vote there.
    pub fn vote_of(&self, epoch: Epoch, who: u8) -> Option<Slot>
        requires { who < senders self.now }
        ensures { (n : Node) → IsInboxOf n self.now → n.epoch ≡ epoch.0 → result ≡ vote_of (next_ballot n) n who }
    {
        first_vote(
            self.rows[usize::from(who)].as_slice(),
            About::Epoch(epoch),
            who == self.me.0,
        )
    }

    /// The first part of this length that was heard of a process in the call of this epoch that it has come to.
    pub fn part_of(&self, epoch: Epoch, call: CallNo, who: u8, due: usize) -> Option<&Values>
        ensures { (n : Node) → IsInboxOf n self.now → n.epoch ≡ epoch.0 → n.calls ≡ call.0 → option_copied result ≡ part_from n due who }
    {
        match self.rows.get(usize::from(who)) {
            Some(row) => first_part(row.as_slice(), epoch, call, due),
            None => None,
        }
    }

    /// Takes the one turn that is enabled in a ballot of at most 32 members, each one of the processes, and says what it did.
    /// In the ballot of a call, who joined the epoch behind this one has left. Fails only without memory.
    pub fn turn(&self, ballot: &Ballot, phase: &mut Phase) -> Result<Poll, NoMemory>
        requires few { length ballot.now.members.now ≤ 32 }
        requires known { All (λ q. q < senders self.now) ballot.now.members.now }
        ensures takes { IfOk result (λ said. (n : Node) → IsInboxOf n self.now → TakesPart ballot.now n
            → IsTurn (turn_in (ballot_of ballot.now) n (phase_of phase.old)) said phase.new) }
        ensures stays { IfOk result (λ said. Stays said phase.old phase.new) }
    {
        match phase {
            Phase::Voting => self.form(ballot, phase),
            Phase::Round(round, held) => {
                let seat = seat_of(ballot.members, self.me.0);
                if usize::from(*round) >= ballot.members.len() {
                    Ok(Poll::Decided(held.copy()?))
                } else if *round == seat {
                    speak(round, held)
                } else {
                    self.follow(ballot, seat, round, held)
                }
            }
        }
    }

    // With the slots of all members known they are its estimate, and round 0 is next.
    fn form(&self, ballot: &Ballot, phase: &mut Phase) -> Result<Poll, NoMemory>
        requires few { length ballot.now.members.now ≤ 32 }
        requires known { All (λ q. q < senders self.now) ballot.now.members.now }
        requires voting { phase.old ≡ Phase.Voting }
        ensures stays { IfOk result (λ said. Stays said phase.old phase.new) }
        ensures takes { IfOk result (λ said. (n : Node) → IsInboxOf n self.now → TakesPart ballot.now n
            → IsTurn (turn_in (ballot_of ballot.now) n (phase_of phase.old)) said phase.new) }
    {
        let alloc = *self.rows.allocator();
        let mut slots = Seq::new(alloc);
        slots.reserve(ballot.members.len())?;
        for member in ballot.members {
            match self.slot_of(ballot, *member) {
                Some(slot) => slots.push(slot)?,
                None => return Ok(Poll::NotYet),
            }
        }
        *phase = Phase::Round(0, Slots::of(alloc, slots)?);
        Ok(Poll::Moved)
    }

    // The slot of a member: its vote, else `Lost` where it was told of that, else `Left` where it left; `None` where none of
    // these is known.
    fn slot_of(&self, ballot: &Ballot, who: u8) -> Option<Slot>
        requires { who < senders self.now }
        ensures { (n : Node) → IsInboxOf n self.now → TakesPart ballot.now n
            → result ≡ slot_of (vote_of (ballot_of ballot.now) n who) (n.lost who) (is_of_call (about_of ballot.now.about) && has_left n who) }
    {
        match self.vote_in(ballot, who) {
            Some(slot) => Some(slot),
            None if self.lost.has(who) => Some(Slot::Lost),
            None if self.has_left(ballot, who) => Some(Slot::Left),
            None => None,
        }
    }

    // What a process votes in a ballot, if that was heard. One's own vote counts as it is; another's counts where it may be a
    // vote there.
    fn vote_in(&self, ballot: &Ballot, who: u8) -> Option<Slot>
        requires { who < senders self.now }
        ensures { (n : Node) → IsInboxOf n self.now → TakesPart ballot.now n → result ≡ vote_of (ballot_of ballot.now) n who }
    {
        first_vote(
            self.rows[usize::from(who)].as_slice(),
            ballot.about,
            who == self.me.0,
        )
    }

    // Whether a process has left a call: it is present and joined the epoch behind this one.
    fn has_left(&self, ballot: &Ballot, who: u8) -> bool
        requires { who < senders self.now }
        ensures { (n : Node) → IsInboxOf n self.now → TakesPart ballot.now n → result ≡ is_of_call (about_of ballot.now.about) && has_left n who }
    {
        match ballot.about {
            About::Epoch(_) => false,
            About::Call(epoch, _, _) => {
                has(ballot.present, who) && self.vote_of(epoch, who).is_some()
            }
        }
    }

    // In another's round it adopts that member's estimate where one that fits was heard; else it
    // passes the round where that member is lost or left. `seat` is its own.
    fn follow(
        &self,
        ballot: &Ballot,
        seat: u8,
        round: &mut u8,
        held: &mut Slots,
    ) -> Result<Poll, NoMemory>
        requires few { length ballot.now.members.now ≤ 32 }
        requires known { All (λ q. q < senders self.now) ballot.now.members.now }
        requires below { round.old < length ballot.now.members.now }
        requires own { seat ≡ seat_of ballot.now.members.now self.now.me }
        requires of_another { round.old ≢ seat }
        ensures stays { IfOk result (λ said. Stays said (Phase.Round round.old held.old) (Phase.Round round.new held.new)) }
        ensures takes { IfOk result (λ said. (n : Node) → IsInboxOf n self.now → TakesPart ballot.now n
            → IsTurn (turn_in (ballot_of ballot.now) n (Round round.old held.old)) said (Phase.Round round.new held.new)) }
    {
        let who = ballot.members[usize::from(*round)];
        match self.estimate_of(ballot, seat, who) {
            Some(slots) => *held = slots.copy()?,
            None if self.is_away(ballot, who) => {}
            None => return Ok(Poll::NotYet),
        }
        *round += 1;
        Ok(Poll::Moved)
    }

    // Whether nothing more comes of a process: it is lost, or left.
    fn is_away(&self, ballot: &Ballot, who: u8) -> bool
        requires { who < senders self.now }
        ensures { (n : Node) → IsInboxOf n self.now → TakesPart ballot.now n
            → result ≡ n.lost who || (is_of_call (about_of ballot.now.about) && has_left n who) }
    {
        self.lost.has(who) || self.has_left(ballot, who)
    }

    // The estimate of a member that was heard, of the round of its seat. One's own counts as it is,
    // another's where it fits. `seat` is its own.
    fn estimate_of(&self, ballot: &Ballot, seat: u8, who: u8) -> Option<&Slots>
        requires few { length ballot.now.members.now ≤ 32 }
        requires own { seat ≡ seat_of ballot.now.members.now self.now.me }
        requires known { who < senders self.now }
        ensures { (n : Node) → IsInboxOf n self.now → TakesPart ballot.now n → option_copied result ≡ estimate_of (ballot_of ballot.now) n who }
    {
        let messages = self.rows[usize::from(who)].as_slice();
        if !has_estimate(messages, ballot.about) {
            return None;
        }
        let measure = Measure {
            seat,
            vote: self.vote_in(ballot, self.me.0),
        };
        let round = seat_of(ballot.members, who);
        first_estimate(messages, round, who == self.me.0, ballot, &measure)
    }
}

// In its own round it says its estimate, and passes the round.
fn speak(round: &mut u8, held: &Slots) -> Result<Poll, NoMemory>
    requires { round.old < 32 }
    ensures stays { IfOk result (λ said. Stays said (Phase.Round round.old held.now) (Phase.Round round.new held.now)) }
    ensures takes { IfOk result (λ said. IsTurn (speak round.old held.now) said (Phase.Round round.new held.now)) }
{
    let said = held.copy()?;
    *round += 1;
    Ok(Poll::SendEstimate(said))
}

// Whether a row has a vote in the ballot of an epoch.
fn has_joins(rows: &[Row]) -> bool
    ensures { result ≡ false → HasNoJoin rows.now }
{
    for row in rows {
        if row.has_join() {
            return true;
        }
    }
    false
}
