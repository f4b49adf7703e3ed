ghost use Rattle.std.specs.FinSet as set;
ghost use Rattle.std.specs.Prelude.{◌≡◌, ◌<◌, ◌≤◌, ◌++◌, ◌∷◌, [], ℕ, suc, List, true, All, Some, IfOk, IsErr, OnOk, OnErr, get_or, length};
ghost use Rattle.fx_ballot.specs.Names.{Distinct, has};
ghost use Rattle.fx_base.specs.Sets.{those_below};
ghost use Rattle.fx_base.specs.declared.names.Proc.{Proc};
ghost use Rattle.fx_check.specs.Rules.{procs_of};
ghost use Rattle.fx_comm.specs.Seats.{place_in};
ghost use Rattle.fx_fleet.specs.Runs.{job_setup};
ghost use Rattle.fx_check.specs.Facts.{facts_of};
ghost use Rattle.fx_flow.specs.Flowing.{DoesRest, IsAtBegin, IsFlowOf, next_of, state_of};
ghost use Rattle.fx_link.specs.declared.message.Message.{Message};
ghost use Rattle.fx_link.specs.declared.slot.Slot.{Slot};
ghost use Rattle.fx_link.specs.declared.slot.Slot.TheVariants as Slot;
ghost use Rattle.fx_machine.specs.Ballots.{all_final, arrived, decides_epoch, is_final, joins, repairs, role_behind, voters};
ghost use Rattle.fx_machine.specs.Messages.{wire_text};
ghost use Rattle.fx_machine.specs.Nodes as defined;
ghost use Rattle.fx_machine.specs.Nodes.{first_node, has_ended, is_told, keeping, receives};
ghost use Rattle.fx_machine.specs.Reading.{is_join};
ghost use Rattle.fx_machine.specs.Steps.{in_arrival, in_walk, inits, may_help_out, next};
ghost use Rattle.fx_node.specs.declared.node.Moved.TheVariants as Moved;
ghost use Rattle.fx_node.specs.declared.stage.Stage.TheVariants as Stage;
ghost use Rattle.fx_inbox.specs.Keeping.{IsInboxOf};
ghost use Rattle.fx_node.specs.Standing.{HasTurned, IsDeciding, IsJoining, IsNodeOf, MayVote, processes};
ghost use Rattle.fx_node.specs.Asking.{AsksCarried};
ghost use Rattle.fx_node.specs.Stepping.{Steps, broadcast, called_items, estimate_message, print_item};
ghost use Rattle.fx_script.specs.declared.job.Job.{Job};
ghost use Rattle.fx_walk.specs.Callbacks.{body_start, callback_run, callbacks_at_init, state_behind_callbacks, view_at_init};
ghost use Rattle.fx_walk.specs.InStep.{job_walk};
ghost use Rattle.fx_walk.specs.declared.action.At.TheVariants as at;
ghost use Rattle.fx_walk.specs.declared.action.View.{View as Sight};
ghost use Rattle.std.specs.List.{flat_map};

use crate::stage::Stage;
use fx_base::{Bytes, CallNo, Elems, Epoch, NoMemory, Place, Proc, ProcSet, Role, Seq};
use fx_check::Accepted;
use fx_comm::{Comm, first, repair};
use fx_flow::{At, Called, Flow, Printed, View};
use fx_inbox::{Ballot, Inbox, Phase, Poll, is_join, seat_of};
use fx_item::{Item, Items};
use fx_link::{Message, Slot, Slots};
use std::alloc::Global;
use std::marker::Model;

/// What is sent in steps: to whom, and what.
pub type Outbox = Seq<(Proc, Message)>;

/// What a step did.
#[derive(Clone, Copy, Debug, PartialEq, Eq)]
pub enum Moved {
    /// It took the one action that was enabled.
    Acted,
    /// No action is enabled, and the process hasn't ended: it waits for a message or a notice.
    Quiet,
    /// The process had ended before.
    Ended,
}

/// A process of a job as it runs. Each process that is handed in is below the number of processes of the job.
#[derive(Debug, Drop)]
pub struct Node {
    pub(crate) alloc: Global,
    pub(crate) me: Proc,
    ranks: u8,
    pub(crate) epoch: Epoch,
    pub(crate) comm: Comm,
    pub(crate) present: Bytes,
    role: Role,
    pub(crate) calls: u32,
    pub(crate) stage: Stage,
    pub(crate) view: View,
    pub(crate) flow: Flow,
    pub(crate) inbox: Inbox,
    failed: bool,
}

impl Model for Node {
    ghost use Rattle.fx_node.specs.Codes.{standing_code};
    ghost use Rattle.fx_node.specs.Standing.{Standing, IsSound};

    ghost Value = { Standing };

    ghost coded = { standing_code };

    ghost view = { λ n. record {
      me = n.me.0;
      ranks = n.ranks;
      epoch = n.epoch.0;
      comm = n.comm;
      present = n.present;
      role = n.role;
      calls = n.calls;
      stage = n.stage;
      view = n.view;
      flow = n.flow;
      inbox = n.inbox;
      failed = n.failed;
    } };

    ghost invariant = { λ n. IsSound (record {
      me = n.me.0;
      ranks = n.ranks;
      epoch = n.epoch.0;
      comm = n.comm;
      present = n.present;
      role = n.role;
      calls = n.calls;
      stage = n.stage;
      view = n.view;
      flow = n.flow;
      inbox = n.inbox;
      failed = n.failed;
    }) };
}

impl Node {
    /// Process `me` of an accepted job, before it has done anything. It shares the code of `flow`, which must be a flow of the
    /// job.
    pub fn new(alloc: Global, job: &Accepted, flow: &Flow, me: Proc) -> Result<Node, NoMemory>
        requires below { me.0 < procs_of job.now }
        requires flow { IsFlowOf job.now flow.now }
        ensures begins { IfOk result (λ node. IsNodeOf job.now node (first_node (job_setup job.now) me.0)) }
        ensures of_all { IfOk result (λ node. processes node ≡ procs_of job.now) }
    {
        let procs = job.procs();
        Ok(Node {
            alloc,
            me,
            ranks: job.ranks(),
            epoch: Epoch(0),
            comm: first(alloc, job.ranks())?,
            present: all_below(alloc, procs)?,
            role: Role::Initial,
            calls: 0,
            stage: Stage::Begins,
            view: View {
                role: Role::Initial,
                rank: 0,
                size: 1,
                latest: [-1; 8],
            },
            flow: flow.another(job)?,
            inbox: Inbox::new(alloc, procs, me)?,
            failed: false,
        })
    }

    /// Whether the process has ended.
    pub fn has_ended(&self) -> bool
        ensures { (job : Job) (n : defined.Node) → IsNodeOf job self.now n → result ≡ has_ended n }
    {
        matches!(self.stage, Stage::Over)
    }

    /// Takes the one action that is enabled, and adds what it sends and writes: exactly that of the node that the process
    /// is defined to be, where the body asks only for what is carried out. Fails only without memory, and then every later call that
    /// can fail does.
    pub fn step(&mut self, sends: &mut Outbox, items: &mut Items) -> Result<Moved, NoMemory>
        ensures steps { IfOk result (λ moved. (job : Job) (n : defined.Node) → AsksCarried job → IsNodeOf job self.old n
            → Steps job n (next (job_setup job) n) moved self.new sends.old sends.new items.old items.new) }
        ensures to_processes { OnOk result (All (λ x. x.0.0 < processes self.old) sends.old → All (λ x. x.0.0 < processes self.old) sends.new) }
        ensures no_memory { OnErr result (self.new.failed ≡ true) }
        ensures stays_failed { self.old.failed ≡ true → IsErr result }
        ensures of_all { processes self.new ≡ processes self.old }
    {
        if self.failed {
            return Err(NoMemory);
        }
        let moved = self.act(sends, items);
        if moved.is_err() {
            self.failed = true;
        }
        moved
    }

    /// A message came from a process. Fails only without memory, and then every later call that can fail does.
    pub fn receive(&mut self, from: Proc, message: Message) -> Result<(), NoMemory>
        requires { from.0 < processes self.old }
        ensures ok { OnOk result ((job : Job) (n : defined.Node) → IsNodeOf job self.old n → IsNodeOf job self.new (receives from.0 (wire_text message) n)) }
        ensures no_memory { OnErr result (self.new.failed ≡ true) }
        ensures stays_failed { self.old.failed ≡ true → IsErr result }
        ensures of_all { processes self.new ≡ processes self.old }
    {
        if self.failed {
            return Err(NoMemory);
        }
        let kept = self.inbox.receive(from, message);
        if kept.is_err() {
            self.failed = true;
        }
        kept
    }

    /// It is told that a process is lost. It takes no memory.
    pub fn notice(&mut self, who: Proc)
        requires { who.0 < processes self.old }
        ensures ok { (job : Job) (n : defined.Node) → IsNodeOf job self.old n → IsNodeOf job self.new (is_told who.0 n) }
        ensures of_all { processes self.new ≡ processes self.old }
        ensures same { self.new.failed ≡ self.old.failed }
    {
        self.inbox.lose(who);
    }

    /// Whether it was told that a process is lost.
    pub fn has_lost(&self, who: Proc) -> bool
        requires { who.0 < processes self.now }
        ensures { (job : Job) (n : defined.Node) → IsNodeOf job self.now n → result ≡ n.lost who.0 }
    {
        self.inbox.is_lost(who.0)
    }

    /// Takes back what a print of it told, once that is written: its room is used again by the next print.
    pub fn give_back(&mut self, name: Bytes, values: Elems)
        ensures { self.new ≡ self.old }
    {
        self.flow.give_back(Printed { name, values });
    }

    fn act(&mut self, sends: &mut Outbox, items: &mut Items) -> Result<Moved, NoMemory>
        ensures steps { IfOk result (λ moved. (job : Job) (n : defined.Node) → AsksCarried job → IsNodeOf job self.old n
            → Steps job n (next (job_setup job) n) moved self.new sends.old sends.new items.old items.new) }
        ensures to_processes { OnOk result (All (λ x. x.0.0 < processes self.old) sends.old → All (λ x. x.0.0 < processes self.old) sends.new) }
        ensures of_all { processes self.new ≡ processes self.old }
    {
        match self.stage {
            Stage::Begins => self.join(Slot::Start, sends, items),
            Stage::Joining(_) => self.take_turn(sends, items),
            Stage::Arrived => self.arrive(sends, items),
            Stage::Walking => self.walk(sends, items),
            Stage::Gathering => self.gather(items),
            Stage::Balloting(_) => self.take_call_turn(sends, items),
            Stage::Failed => self.join(Slot::Error, sends, items),
            Stage::Over => Ok(Moved::Ended),
        }
    }

    // Votes in the ballot of the next epoch.
    pub(crate) fn join(
        &mut self,
        kind: Slot,
        sends: &mut Outbox,
        items: &mut Items,
    ) -> Result<Moved, NoMemory>
        ensures joins { IfOk result (λ moved. (job : Job) (n : defined.Node) → IsNodeOf job self.old n → MayVote kind self.old n
            → Steps job n (joins kind n) moved self.new sends.old sends.new items.old items.new) }
        ensures to_processes { OnOk result (All (λ x. x.0.0 < processes self.old) sends.old → All (λ x. x.0.0 < processes self.old) sends.new) }
        ensures of_all { processes self.new ≡ processes self.old }
    {
        let Some(next) = self.epoch.0.checked_add(1) else {
            return Ok(Moved::Quiet);
        };
        let e = Epoch(next);
        items.push(Item::Join {
            p: self.me,
            e,
            kind,
        })?;
        self.broadcast(Message::Join { e, kind }, sends)?;
        self.stage = Stage::Joining(Phase::Voting);
        Ok(Moved::Acted)
    }

    // Sends a vote or an estimate to all other members of the ballot of the next epoch; it counts as heard by itself.
    fn broadcast(&mut self, message: Message, sends: &mut Outbox) -> Result<(), NoMemory>
        ensures sends { OnOk result (sends.new ≡ sends.old ++ broadcast self.old.me self.old.present message) }
        ensures says { OnOk result ((n : defined.Node) → IsInboxOf n self.old.inbox → IsInboxOf (keeping (wire_text message) n) self.new.inbox) }
        ensures same { self.new ≡ record self.old { inbox = self.new.inbox } }
        ensures to_processes { OnOk result (All (λ x. x.0.0 < processes self.old) sends.old → All (λ x. x.0.0 < processes self.old) sends.new) }
        ensures of_all { processes self.new ≡ processes self.old }
    {
        let members = self.present.as_slice();
        sends.reserve(members.len())?;
        for member in members {
            if *member != self.me.0 {
                sends.push((Proc(*member), message.copy()?))?;
            }
        }
        self.inbox.say(message)
    }

    // The turn in the ballot of the next epoch.
    fn take_turn(&mut self, sends: &mut Outbox, items: &mut Items) -> Result<Moved, NoMemory>
        requires { IsJoining self.old.stage }
        ensures steps { IfOk result (λ moved. (job : Job) (n : defined.Node) → IsNodeOf job self.old n
            → Steps job n (next (job_setup job) n) moved self.new sends.old sends.new items.old items.new) }
        ensures to_processes { OnOk result (All (λ x. x.0.0 < processes self.old) sends.old → All (λ x. x.0.0 < processes self.old) sends.new) }
        ensures of_all { processes self.new ≡ processes self.old }
    {
        match self.turn()? {
            Poll::NotYet => Ok(Moved::Quiet),
            Poll::Moved => Ok(Moved::Acted),
            Poll::SendEstimate(slots) => self.say_estimate(slots, sends),
            Poll::Decided(slots) => self.decide(&slots, items),
        }
    }

    // Takes the turn that is enabled in the ballot of the next epoch, and says what it did.
    fn turn(&mut self) -> Result<Poll, NoMemory>
        requires { IsJoining self.old.stage }
        ensures turned { IfOk result (λ said. HasTurned self.old self.new said) }
        ensures of_all { processes self.new ≡ processes self.old }
    {
        let Stage::Joining(phase) = &mut self.stage else {
            return Ok(Poll::NotYet);
        };
        let ballot = Ballot::of_next(self.epoch, self.present.as_slice());
        self.inbox.turn(&ballot, phase)
    }

    // Says its estimate, of the round of its own seat.
    fn say_estimate(&mut self, slots: Slots, sends: &mut Outbox) -> Result<Moved, NoMemory>
        ensures sends { OnOk result (self.old.epoch < 4294967295 → sends.new ≡ sends.old ++ broadcast self.old.me self.old.present (estimate_message self.old slots)) }
        ensures says { IfOk result (λ moved. self.old.epoch < 4294967295 → (moved ≡ Moved.Acted)
            × ((n : defined.Node) → IsInboxOf n self.old.inbox → IsInboxOf (keeping (wire_text (estimate_message self.old slots)) n) self.new.inbox)) }
        ensures same { self.new ≡ record self.old { inbox = self.new.inbox } }
        ensures to_processes { OnOk result (All (λ x. x.0.0 < processes self.old) sends.old → All (λ x. x.0.0 < processes self.old) sends.new) }
        ensures of_all { processes self.new ≡ processes self.old }
    {
        let Some(next) = self.epoch.0.checked_add(1) else {
            return Ok(Moved::Quiet);
        };
        let message = Message::Jest {
            e: Epoch(next),
            r: seat_of(self.present.as_slice(), self.me.0),
            slots,
        };
        self.broadcast(message, sends)?;
        Ok(Moved::Acted)
    }

    // The ballot is decided: the job ends where each rank came to the end; else the members that voted repair the communicator.
    fn decide(&mut self, slots: &Slots, items: &mut Items) -> Result<Moved, NoMemory>
        ensures decides { IfOk result (λ moved. (job : Job) (n : defined.Node) (vote : Slot) (sends : List (Proc × Message)) → IsNodeOf job self.old n → IsDeciding n vote slots.now self.old
            → Steps job n (Some (decides_epoch (job_setup job) n slots.now)) moved self.new sends sends items.old items.new) }
        ensures of_all { processes self.new ≡ processes self.old }
    {
        if self.epoch.0 > 0 && self.all_final(slots) {
            items.push(Item::Ended { p: self.me })?;
            self.stage = Stage::Over;
            return Ok(Moved::Acted);
        }
        self.begin_epoch(slots, items)
    }

    fn begin_epoch(&mut self, slots: &Slots, items: &mut Items) -> Result<Moved, NoMemory>
        ensures begins { IfOk result (λ moved. (job : Job) (n : defined.Node) (vote : Slot) (sends : List (Proc × Message)) → IsNodeOf job self.old n → IsDeciding n vote slots.now self.old
            → Steps job n (Some (repairs (job_setup job) (arrived (voters (is_join (suc n.epoch)) n.present slots.now) n))) moved self.new sends sends items.old items.new) }
        ensures of_all { processes self.new ≡ processes self.old }
    {
        let Some(next) = self.epoch.0.checked_add(1) else {
            return Ok(Moved::Quiet);
        };
        let present = voters(
            self.alloc,
            self.epoch,
            self.present.as_slice(),
            slots.as_slice(),
        )?;
        let mut members = set_of(present.as_slice());
        members.insert(self.me.0);
        let comm = repair(self.alloc, &self.comm, members)?;
        items.push(Item::Repaired {
            p: self.me,
            e: Epoch(next),
            size: comm.size(),
            warn: comm.depleted(self.ranks),
            list: comm.seats().copy()?,
        })?;
        self.role = self.role_behind();
        self.epoch = Epoch(next);
        self.comm = comm;
        self.present = present;
        self.calls = 0;
        self.inbox.forget(self.epoch, CallNo(0));
        self.stage = Stage::Arrived;
        Ok(Moved::Acted)
    }

    // The role behind the next repair.
    fn role_behind(&self) -> Role
        ensures { (job : Job) (n : defined.Node) → IsNodeOf job self.now n → result ≡ role_behind n }
    {
        if self.epoch.0 == 0 {
            Role::Initial
        } else if self.comm.place_of(self.me).is_some() {
            Role::Survivor
        } else {
            Role::Recovered
        }
    }

    // Each process with a place has the slot `final`.
    fn all_final(&self, slots: &Slots) -> bool
        ensures { (job : Job) (n : defined.Node) → IsNodeOf job self.now n → result ≡ all_final n slots.now }
    {
        for seat in self.comm.seats().as_slice() {
            let at = seat_of(self.present.as_slice(), seat.1.0);
            if !is_final_at(slots, at) {
                return false;
            }
        }
        true
    }

    // The epoch has begun: `Init` returns to who has a place, and a spare joins where it may help.
    fn arrive(&mut self, sends: &mut Outbox, items: &mut Items) -> Result<Moved, NoMemory>
        requires { self.old.stage ≡ Stage.Arrived }
        ensures steps { IfOk result (λ moved. (job : Job) (n : defined.Node) → AsksCarried job → IsNodeOf job self.old n
            → Steps job n (in_arrival (job_setup job) n) moved self.new sends.old sends.new items.old items.new) }
        ensures to_processes { OnOk result (All (λ x. x.0.0 < processes self.old) sends.old → All (λ x. x.0.0 < processes self.old) sends.new) }
        ensures of_all { processes self.new ≡ processes self.old }
    {
        match self.comm.place_of(self.me) {
            Some(place) => self.begin_body(place, items),
            None if self.may_help_out() => self.join(Slot::Spare, sends, items),
            None => Ok(Moved::Quiet),
        }
    }

    // A present process has joined the next epoch, or one with a place is lost.
    fn may_help_out(&self) -> bool
        ensures { (job : Job) (n : defined.Node) → IsNodeOf job self.now n → result ≡ may_help_out n }
    {
        for member in self.present.as_slice() {
            if self.inbox.vote_of(self.epoch, *member).is_some() {
                return true;
            }
        }
        for place in 0..self.comm.size() {
            if self.inbox.is_lost(self.comm.proc_at(Place(place)).0) {
                return true;
            }
        }
        false
    }

    // `Init` returns, and a survivor runs its callbacks before.
    fn begin_body(&mut self, place: Place, items: &mut Items) -> Result<Moved, NoMemory>
        requires there { place_in self.old.comm self.old.me ≡ Some place.0 }
        requires below { place.0 < length self.old.comm }
        requires arrived { self.old.stage ≡ Stage.Arrived }
        ensures begins { IfOk result (λ moved. (job : Job) (n : defined.Node) (sends : List (Proc × Message)) → AsksCarried job → IsNodeOf job self.old n
            → Steps job n (Some (inits (job_setup job) n)) moved self.new sends sends items.old items.new) }
        ensures of_all { processes self.new ≡ processes self.old }
    {
        self.view = View {
            role: self.role,
            rank: place.0,
            size: self.comm.size(),
            latest: [-1; 8],
        };
        self.begin_walk(items)?;
        items.push(Item::Init {
            p: self.me,
            e: self.epoch,
            role: self.role,
            id: self.comm.ident_at(place),
            rank: place.0,
            size: self.comm.size(),
            warn: self.comm.depleted(self.ranks),
        })?;
        self.stage = Stage::Walking;
        Ok(Moved::Acted)
    }

    // The flow goes back to the beginning of the body, and a survivor runs its callbacks there.
    fn begin_walk(&mut self, items: &mut Items) -> Result<(), NoMemory>
        requires { self.old.view ≡ view_at_init self.old.role self.old.view.rank self.old.view.size }
        ensures writes { OnOk result ((job : Job) → IsFlowOf job self.old.flow
            → items.new ≡ items.old ++ flat_map (called_items self.old.me self.old.epoch) (callbacks_at_init (facts_of job) self.old.role self.old.view.rank self.old.view.size (state_of self.old.flow))) }
        ensures begins { OnOk result ((job : Job) → IsFlowOf job self.old.flow → (view : Sight)
            → DoesRest view (job_walk job view (body_start (facts_of job) self.old.role self.old.view.rank self.old.view.size (state_of self.old.flow))) self.new.flow) }
        ensures keeps { OnOk result ((job : Job) → IsFlowOf job self.old.flow
            → state_of self.new.flow ≡ body_start (facts_of job) self.old.role self.old.view.rank self.old.view.size (state_of self.old.flow)) }
        ensures same_job { (job : Job) → IsFlowOf job self.old.flow → IsFlowOf job self.new.flow }
        ensures same { self.new ≡ record self.old { flow = self.new.flow } }
    {
        self.flow.rewind(self.role);
        match self.role {
            Role::Survivor => self.run_callbacks(items),
            Role::Initial | Role::Recovered => Ok(()),
        }
    }

    // Runs the callbacks that are registered.
    fn run_callbacks(&mut self, items: &mut Items) -> Result<(), NoMemory>
        ensures writes { OnOk result ((job : Job) → IsFlowOf job self.old.flow
            → items.new ≡ items.old ++ flat_map (called_items self.old.me self.old.epoch) (callback_run (facts_of job) self.old.view (state_of self.old.flow))) }
        ensures begins { OnOk result ((job : Job) → IsFlowOf job self.old.flow → IsAtBegin self.old.flow → (view : Sight)
            → DoesRest view (job_walk job view (state_behind_callbacks (facts_of job) self.old.view (state_of self.old.flow))) self.new.flow) }
        ensures leaves { OnOk result ((job : Job) → IsFlowOf job self.old.flow → state_of self.new.flow ≡ state_behind_callbacks (facts_of job) self.old.view (state_of self.old.flow)) }
        ensures same_job { (job : Job) → IsFlowOf job self.old.flow → IsFlowOf job self.new.flow }
        ensures same { self.new ≡ record self.old { flow = self.new.flow } }
    {
        for called in self.flow.run_callbacks(&self.view)?.into_items() {
            self.put_called(called, items)?;
        }
        Ok(())
    }

    fn put_called(&self, called: Called, items: &mut Items) -> Result<(), NoMemory>
        ensures { OnOk result (items.new ≡ items.old ++ called_items self.now.me self.now.epoch called) }
    {
        items.push(Item::Callback {
            p: self.me,
            e: self.epoch,
            name: called.name,
        })?;
        for printed in called.prints.into_items() {
            self.put_printed(printed, items)?;
        }
        Ok(())
    }

    fn put_printed(&self, printed: Printed, items: &mut Items) -> Result<(), NoMemory>
        ensures { OnOk result (items.new ≡ items.old ++ print_item self.now.me self.now.epoch printed ∷ []) }
    {
        items.push(Item::Print {
            p: self.me,
            e: self.epoch,
            name: printed.name,
            list: printed.values,
        })
    }

    // The next action of the body.
    fn walk(&mut self, sends: &mut Outbox, items: &mut Items) -> Result<Moved, NoMemory>
        requires { self.old.stage ≡ Stage.Walking }
        ensures steps { IfOk result (λ moved. (job : Job) (n : defined.Node) → IsNodeOf job self.old n
            → Steps job n (in_walk (job_setup job) n n.walk) moved self.new sends.old sends.new items.old items.new) }
        ensures to_processes { OnOk result (All (λ x. x.0.0 < processes self.old) sends.old → All (λ x. x.0.0 < processes self.old) sends.new) }
        ensures of_all { processes self.new ≡ processes self.old }
    {
        match self.flow.at() {
            At::Finish => self.join(Slot::Final, sends, items),
            At::Plain => self.advance(items),
            At::Outward => self.ask(sends, items),
        }
    }

    fn advance(&mut self, items: &mut Items) -> Result<Moved, NoMemory>
        requires walking { self.old.stage ≡ Stage.Walking }
        requires plain { next_of self.old.flow ≡ at.Plain }
        ensures advances { IfOk result (λ moved. (job : Job) (n : defined.Node) (sends : List (Proc × Message)) → IsNodeOf job self.old n
            → Steps job n (in_walk (job_setup job) n n.walk) moved self.new sends sends items.old items.new) }
        ensures of_all { processes self.new ≡ processes self.old }
    {
        if let Some(printed) = self.flow.advance(&self.view)? {
            self.put_printed(printed, items)?;
        }
        Ok(Moved::Acted)
    }
}

// The processes below a number, in rising order.
fn all_below(alloc: Global, procs: u8) -> Result<Bytes, NoMemory>
    requires { procs ≤ 32 }
    ensures all { IfOk result (λ all. all ≡ those_below (λ q. true) procs) }
    ensures below { IfOk result (All (λ q. q < procs)) }
    ensures count { IfOk result (λ all. length all ≡ procs) }
    ensures apart { IfOk result Distinct }
{
    let mut all = Bytes::new(alloc);
    for process in 0..procs {
        all.push(process)?;
    }
    Ok(all)
}

// The members whose slot is a vote in the ballot of the epoch behind this one.
fn voters(alloc: Global, epoch: Epoch, members: &[u8], slots: &[Slot]) -> Result<Bytes, NoMemory>
    ensures voters { IfOk result (λ found. found ≡ voters (is_join (suc epoch.0)) members.now slots.now) }
    ensures fewer { IfOk result (λ found. length found ≤ length members.now) }
    ensures apart { IfOk result (λ found. Distinct members.now → Distinct found) }
    ensures among { IfOk result (λ found. (bound : ℕ) → All (λ q. q < bound) members.now → All (λ q. q < bound) found) }
{
    let mut voters = Bytes::new(alloc);
    for (member, slot) in members.iter().zip(slots.iter()) {
        if is_join(epoch, *slot) {
            voters.push(*member)?;
        }
    }
    Ok(voters)
}

// Whether the slot of a seat is `final`.
fn is_final_at(slots: &Slots, seat: u8) -> bool
    ensures { result ≡ is_final (get_or slots.now seat Slot.Lost) }
{
    match slots.nth(usize::from(seat)) {
        Some(slot) => is_final(*slot),
        None => false,
    }
}

fn is_final(slot: Slot) -> bool
    ensures { result ≡ is_final slot }
{
    matches!(slot, Slot::Final)
}

// The set of these processes, each below 32.
fn set_of(processes: &[u8]) -> ProcSet
    requires { All (λ q. q < 32) processes.now }
    ensures { (q : ℕ) → set.contains result q ≡ has processes.now q }
{
    let mut set = ProcSet::new();
    for process in processes {
        set.insert(*process);
    }
    set
}
