//! Calls in which each place gives a part to each other.
ghost use Rattle.std.specs.Prelude.{get_or, pos, ◌≡◌, ◌≢◌, ◌<◌, ◌++◌, ℕ, ℤ, true, List, All, Some, IfOk, OnOk, if◌then◌else◌, length, option_map};
ghost use Rattle.fx_ballot.specs.Names.{has};
ghost use Rattle.fx_coll.specs.Answer.{IsWhole};
ghost use Rattle.fx_coll.specs.Keeping.{has_left, is_lost, known_at};
ghost use Rattle.fx_coll.specs.Machine.{StandsFor, values_in};
ghost use Rattle.fx_comm.specs.Seats.{place_in};
ghost use Rattle.fx_base.specs.declared.names.Op.{Op as Operation};
ghost use Rattle.fx_base.specs.declared.names.Proc.{Proc};
ghost use Rattle.fx_fleet.specs.Runs.{job_setup};
ghost use Rattle.fx_flow.specs.Flowing.{AsksFor, DoesRest, TellsNeed, WantsElements, WantsNumber, next_of};
ghost use Rattle.fx_inbox.specs.Keeping.{part_from};
ghost use Rattle.fx_link.specs.declared.message.Message.{Message};
ghost use Rattle.fx_link.specs.declared.message.Message.TheVariants as message;
ghost use Rattle.fx_machine.specs.Gathering.{are_gathered, due_from, gathered, numbers_of, passes, returns_elements, returns_number, source_of, target_of, total};
ghost use Rattle.fx_machine.specs.Numbers.{call_no, epoch_no};
ghost use Rattle.fx_machine.specs.Nodes as defined;
ghost use Rattle.fx_machine.specs.Reading as reading;
ghost use Rattle.fx_machine.specs.Steps.{in_walk, next};
ghost use Rattle.fx_machine.specs.Waits.{Error, ByLeaving, ByLoss, returns_error};
ghost use Rattle.fx_node.specs.Asking.{HasKind, HaveKind, IsFresh, IsTold, gathers_parts, part_in, share_of, taken, to_seats};
ghost use Rattle.fx_node.specs.Standing.{ComesTo, IsInCall, IsNodeOf, processes};
ghost use Rattle.fx_node.specs.Stepping.{Steps};
ghost use Rattle.fx_node.specs.declared.node.Moved.TheVariants as Moved;
ghost use Rattle.fx_node.specs.declared.stage.Stage.TheVariants as Stage;
ghost use Rattle.fx_script.specs.declared.job.Job.{Job};
ghost use Rattle.fx_value.specs.Shape.{Fits};
ghost use Rattle.fx_walk.specs.Walk.{Asks, Elements, Reply, TextPlace, Walk};
ghost use Rattle.fx_walk.specs.State.{State};
ghost use Rattle.fx_walk.specs.declared.action.At.TheVariants as at;
ghost use Rattle.fx_walk.specs.declared.wanted.Wanted.{Wanted as Asked};
ghost use Rattle.fx_walk.specs.declared.wanted.Wanted.TheVariants as wanted;
ghost use Rattle.fx_walk.specs.declared.wanted.Wanted.TheVariants.{Reduce};

use crate::glance::Glance;
use crate::node::{Moved, Node, Outbox};
use crate::stage::Stage;
use fx_base::{CallNo, Elems, NoMemory, Op, Place, Proc};
use fx_coll::{CollPoll, Gather, Part, combined};
use fx_flow::{At, Wanted};
use fx_item::{Item, Items};
use fx_link::{Message, Values};
use std::alloc::Global;

impl Node {
    /// The body asks for something: it enters the call.
    pub(crate) fn ask(&mut self, sends: &mut Outbox, items: &mut Items) -> Result<Moved, NoMemory>
        requires walking { self.old.stage ≡ Stage.Walking }
        requires outward { next_of self.old.flow ≡ at.Outward }
        ensures steps { IfOk result (λ moved. (job : Job) (n : defined.Node) → IsNodeOf job self.old n
            → Steps job n (in_walk (job_setup job) n n.walk) moved self.new sends.old sends.new items.old items.new) }
        ensures to_processes { OnOk result (All (λ x. x.0.0 < processes self.old) sends.old → All (λ x. x.0.0 < processes self.old) sends.new) }
        ensures of_all { processes self.new ≡ processes self.old }
    {
        match self.flow.wanted(&self.view)? {
            Wanted::Barrier => self.enter_barrier(sends, items),
            Wanted::Reduce(op, number) => self.enter_reduction(op, number, sends, items),
            Wanted::Agree(flag) => self.enter_agreement(flag, sends, items),
            Wanted::Shift(by, elements) => self.enter_shift(by, elements, sends, items),
            _ => Ok(Moved::Quiet),
        }
    }

    // Enters a barrier.
    fn enter_barrier(&mut self, sends: &mut Outbox, items: &mut Items) -> Result<Moved, NoMemory>
        requires walking { self.old.stage ≡ Stage.Walking }
        ensures steps { IfOk result (λ moved. (job : Job) (n : defined.Node) (place : TextPlace) (state : State) (rest : Reply → Walk) → IsNodeOf job self.old n
            → n.walk ≡ Asks place wanted.Barrier state rest
            → Steps job n (in_walk (job_setup job) n (Asks place wanted.Barrier state rest)) moved self.new sends.old sends.new items.old items.new) }
        ensures to_processes { OnOk result (All (λ x. x.0.0 < processes self.old) sends.old → All (λ x. x.0.0 < processes self.old) sends.new) }
        ensures of_all { processes self.new ≡ processes self.old }
    {
        let Some(next) = self.calls.checked_add(1) else {
            return Ok(Moved::Quiet);
        };
        items.push(Item::Barrier {
            p: self.me,
            e: self.epoch,
            k: CallNo(next),
        })?;
        self.enter(next, &Values::empty(), None, sends)?;
        Ok(Moved::Acted)
    }

    // Enters a reduction with its own number.
    fn enter_reduction(
        &mut self,
        op: Op,
        number: i64,
        sends: &mut Outbox,
        items: &mut Items,
    ) -> Result<Moved, NoMemory>
        requires walking { self.old.stage ≡ Stage.Walking }
        ensures steps { IfOk result (λ moved. (job : Job) (n : defined.Node) (place : TextPlace) (state : State) (rest : Reply → Walk) → IsNodeOf job self.old n
            → n.walk ≡ Asks place (wanted.Reduce op number) state rest
            → Steps job n (in_walk (job_setup job) n (Asks place (wanted.Reduce op number) state rest)) moved self.new sends.old sends.new items.old items.new) }
        ensures to_processes { OnOk result (All (λ x. x.0.0 < processes self.old) sends.old → All (λ x. x.0.0 < processes self.old) sends.new) }
        ensures of_all { processes self.new ≡ processes self.old }
    {
        let Some(next) = self.calls.checked_add(1) else {
            return Ok(Moved::Quiet);
        };
        items.push(Item::Reduce {
            p: self.me,
            e: self.epoch,
            k: CallNo(next),
            op,
            n: number,
        })?;
        let mut values = Elems::new(self.alloc);
        values.push(number)?;
        self.enter(next, &Values::of(self.alloc, values)?, None, sends)?;
        Ok(Moved::Acted)
    }

    // Enters a shift by so many places with its own elements.
    fn enter_shift(
        &mut self,
        by: u8,
        elements: Elems,
        sends: &mut Outbox,
        items: &mut Items,
    ) -> Result<Moved, NoMemory>
        requires walking { self.old.stage ≡ Stage.Walking }
        ensures steps { IfOk result (λ moved. (job : Job) (n : defined.Node) (place : TextPlace) (state : State) (rest : Reply → Walk) → IsNodeOf job self.old n
            → n.walk ≡ Asks place (wanted.Shift by elements) state rest
            → Steps job n (in_walk (job_setup job) n (Asks place (wanted.Shift by elements) state rest)) moved self.new sends.old sends.new items.old items.new) }
        ensures to_processes { OnOk result (All (λ x. x.0.0 < processes self.old) sends.old → All (λ x. x.0.0 < processes self.old) sends.new) }
        ensures of_all { processes self.new ≡ processes self.old }
    {
        let Some(next) = self.calls.checked_add(1) else {
            return Ok(Moved::Quiet);
        };
        let Some(own) = self.comm.place_of(self.me) else {
            return Ok(Moved::Quiet);
        };
        let target = target_of(self.comm.size(), by, own);
        items.push(Item::Shift {
            p: self.me,
            e: self.epoch,
            k: CallNo(next),
            d: by,
            list: elements.copy()?,
        })?;
        let values = Values::of(self.alloc, elements)?;
        self.enter(next, &values, Some(target), sends)?;
        Ok(Moved::Acted)
    }

    // Enters the next call, with the values that go to each other place, or to one only.
    fn enter(
        &mut self,
        next: u32,
        values: &Values,
        only: Option<u8>,
        sends: &mut Outbox,
    ) -> Result<(), NoMemory>
        ensures enters { OnOk result (ComesTo self.old next self.new.inbox) }
        ensures same { OnOk result (self.new ≡ record self.old { calls = next; stage = Stage.Gathering; inbox = self.new.inbox }) }
        ensures sends { OnOk result (sends.new ≡ sends.old ++ to_seats self.old.me (λ x. message.Part (epoch_no self.old.epoch) (call_no next) (share_of only values.now x)) 0 self.old.comm) }
        ensures to_processes { OnOk result (All (λ x. x.0.0 < processes self.old) sends.old → All (λ x. x.0.0 < processes self.old) sends.new) }
        ensures of_all { processes self.new ≡ processes self.old }
    {
        self.send_to_places(CallNo(next), values, only, sends)?;
        self.calls = next;
        self.inbox.forget(self.epoch, CallNo(next));
        self.stage = Stage::Gathering;
        Ok(())
    }

    // Sends to each other place its part of a call.
    fn send_to_places(
        &self,
        call: CallNo,
        values: &Values,
        only: Option<u8>,
        sends: &mut Outbox,
    ) -> Result<(), NoMemory>
        ensures sends { OnOk result (sends.new ≡ sends.old ++ to_seats self.now.me (λ x. message.Part (epoch_no self.now.epoch) call (share_of only values.now x)) 0 self.now.comm) }
        ensures to_processes { OnOk result (All (λ x. x.0.0 < processes self.now) sends.old → All (λ x. x.0.0 < processes self.now) sends.new) }
    {
        let seats = self.comm.seats().as_slice();
        sends.reserve(seats.len())?;
        for (place, seat) in seats.iter().enumerate() {
            if seat.1 != self.me {
                let elems = share_of(only, values, place)?;
                let part = Message::Part {
                    e: self.epoch,
                    k: call,
                    elems,
                };
                sends.push((seat.1, part))?;
            }
        }
        Ok(())
    }

    /// It waits for the parts of all: the call returns, or its error.
    pub(crate) fn gather(&mut self, items: &mut Items) -> Result<Moved, NoMemory>
        requires gathering { self.old.stage ≡ Stage.Gathering }
        ensures steps { IfOk result (λ moved. (job : Job) (n : defined.Node) (sends : List (Proc × Message)) → IsNodeOf job self.old n
            → Steps job n (next (job_setup job) n) moved self.new sends sends items.old items.new) }
        ensures of_all { processes self.new ≡ processes self.old }
    {
        match self.flow.at() {
            At::Outward => self.gather_there(items),
            At::Plain | At::Finish => Ok(Moved::Quiet),
        }
    }

    fn gather_there(&mut self, items: &mut Items) -> Result<Moved, NoMemory>
        requires gathering { self.old.stage ≡ Stage.Gathering }
        requires outward { next_of self.old.flow ≡ at.Outward }
        ensures steps { IfOk result (λ moved. (job : Job) (n : defined.Node) (sends : List (Proc × Message)) → IsNodeOf job self.old n
            → Steps job n (next (job_setup job) n) moved self.new sends sends items.old items.new) }
        ensures of_all { processes self.new ≡ processes self.old }
    {
        match self.comm.place_of(self.me) {
            Some(place) => self.go_on(place, items),
            None => Ok(Moved::Quiet),
        }
    }

    // As the parts stand that came.
    fn go_on(&mut self, place: Place, items: &mut Items) -> Result<Moved, NoMemory>
        requires gathering { self.old.stage ≡ Stage.Gathering }
        requires outward { next_of self.old.flow ≡ at.Outward }
        requires there { place_in self.old.comm self.old.me ≡ Some place.0 }
        requires below { place.0 < length self.old.comm }
        ensures steps { IfOk result (λ moved. (job : Job) (n : defined.Node) (sends : List (Proc × Message)) → IsNodeOf job self.old n
            → Steps job n (next (job_setup job) n) moved self.new sends sends items.old items.new) }
        ensures of_all { processes self.new ≡ processes self.old }
    {
        let wanted = self.flow.wanted(&self.view)?;
        match self.glance(place, &wanted) {
            Glance::Whole => self.go_on_whole(place, &wanted, items),
            Glance::Waiting => Ok(Moved::Quiet),
            Glance::Unclear => self.settle(place, &wanted, items),
        }
    }

    // All parts are there. A barrier and a reduction take none of them.
    fn go_on_whole(
        &mut self,
        place: Place,
        wanted: &Wanted,
        items: &mut Items,
    ) -> Result<Moved, NoMemory>
        requires gathering { self.old.stage ≡ Stage.Gathering }
        requires outward { next_of self.old.flow ≡ at.Outward }
        requires there { place_in self.old.comm self.old.me ≡ Some place.0 }
        requires below { place.0 < length self.old.comm }
        requires asked { (walk : Walk) → DoesRest self.old.view walk self.old.flow → AsksFor walk wanted.now }
        requires need { TellsNeed self.old.flow wanted.now }
        requires whole { (job : Job) (n : defined.Node) → IsNodeOf job self.old n → gathers_parts wanted.now ≡ true → are_gathered n wanted.now ≡ true }
        ensures steps { IfOk result (λ moved. (job : Job) (n : defined.Node) (sends : List (Proc × Message)) → IsNodeOf job self.old n
            → Steps job n (next (job_setup job) n) moved self.new sends sends items.old items.new) }
        ensures of_all { processes self.new ≡ processes self.old }
    {
        match wanted {
            Wanted::Barrier => self.pass(items),
            Wanted::Reduce(op, _) => {
                let total = self.total(place, *op, wanted);
                self.give_number(total, items)
            }
            _ => self.settle(place, wanted, items),
        }
    }

    // What the operation of a reduction makes of the numbers of all places, in rising place.
    fn total(&self, own: Place, op: Op, wanted: &Wanted) -> i64
        requires there { place_in self.now.comm self.now.me ≡ Some own.0 }
        requires inside { own.0 < length self.now.comm }
        ensures { (job : Job) (n : defined.Node) (number : ℤ) → IsNodeOf job self.now n → wanted.now ≡ Reduce op number → result ≡ total op n wanted.now }
    {
        let mut total = self.number_of(own, Place(0), wanted);
        for one in 1..self.comm.size() {
            total = combined(op, total, self.number_of(own, Place(one), wanted));
        }
        total
    }

    // The number of a place in a reduction, 0 where none came.
    fn number_of(&self, own: Place, one: Place, wanted: &Wanted) -> i64
        requires there { place_in self.now.comm self.now.me ≡ Some own.0 }
        requires inside { own.0 < length self.now.comm }
        requires below { one.0 < length self.now.comm }
        ensures { (job : Job) (n : defined.Node) (op : Operation) (number : ℤ) → IsNodeOf job self.now n → wanted.now ≡ Reduce op number → result ≡ get_or (numbers_of n wanted.now one.0) 0 (pos 0) }
    {
        if one.0 == own.0 {
            return own_number(wanted);
        }
        let who = self.comm.proc_at(one).0;
        match self.inbox.part_of(self.epoch, CallNo(self.calls), who, 1) {
            Some(values) => first_number(values),
            None => 0,
        }
    }

    // As the parts stand that came, each of which is taken.
    fn settle(
        &mut self,
        place: Place,
        wanted: &Wanted,
        items: &mut Items,
    ) -> Result<Moved, NoMemory>
        requires gathering { self.old.stage ≡ Stage.Gathering }
        requires outward { next_of self.old.flow ≡ at.Outward }
        requires there { place_in self.old.comm self.old.me ≡ Some place.0 }
        requires below { place.0 < length self.old.comm }
        requires asked { (walk : Walk) → DoesRest self.old.view walk self.old.flow → AsksFor walk wanted.now }
        requires need { TellsNeed self.old.flow wanted.now }
        ensures steps { IfOk result (λ moved. (job : Job) (n : defined.Node) (sends : List (Proc × Message)) → IsNodeOf job self.old n
            → Steps job n (next (job_setup job) n) moved self.new sends sends items.old items.new) }
        ensures of_all { processes self.new ≡ processes self.old }
    {
        let known = self.known_of(place, wanted)?;
        match known.poll() {
            CollPoll::Done => self.finish(place, wanted, &known, items),
            CollPoll::Failed(lost) => {
                let who = self.comm.proc_at(Place(lost));
                self.fail(who, items)
            }
            CollPoll::Revoked(left) => {
                let who = self.comm.proc_at(Place(left));
                self.revoke(who, items)
            }
            CollPoll::NotYet => Ok(Moved::Quiet),
        }
    }

    // All parts are there: the call returns.
    fn finish(
        &mut self,
        own: Place,
        wanted: &Wanted,
        known: &Gather,
        items: &mut Items,
    ) -> Result<Moved, NoMemory>
        requires gathering { self.old.stage ≡ Stage.Gathering }
        requires outward { next_of self.old.flow ≡ at.Outward }
        requires need { TellsNeed self.old.flow wanted.now }
        requires kind { HaveKind wanted.now known.now }
        requires whole { IsWhole known.now }
        requires there { place_in self.old.comm self.old.me ≡ Some own.0 }
        requires below { own.0 < length self.old.comm }
        requires many { length known.now ≡ length self.old.comm }
        ensures returns { IfOk result (λ moved. (job : Job) (n : defined.Node) (sends : List (Proc × Message)) (place : TextPlace) (state : State) (rest : Reply → Walk) → IsNodeOf job self.old n
            → n.walk ≡ Asks place wanted.now state rest → StandsFor known.now n wanted.now
            → Steps job n (gathered n wanted.now rest) moved self.new sends sends items.old items.new) }
        ensures of_all { processes self.new ≡ processes self.old }
    {
        match wanted {
            Wanted::Barrier => self.pass(items),
            Wanted::Reduce(op, _) => self.give_number(known.folded(*op), items),
            Wanted::Shift(by, _) => {
                let source = source_of(self.comm.size(), *by, own);
                self.give_elements(known.part_of(source), items)
            }
            _ => Ok(Moved::Quiet),
        }
    }

    // The call returns, and gives nothing.
    fn pass(&mut self, items: &mut Items) -> Result<Moved, NoMemory>
        requires gathering { self.old.stage ≡ Stage.Gathering }
        requires outward { next_of self.old.flow ≡ at.Outward }
        ensures passes { IfOk result (λ moved. (job : Job) (n : defined.Node) (sends : List (Proc × Message)) (place : TextPlace) (w : Asked) (state : State) (rest : Reply → Walk) → IsNodeOf job self.old n
            → n.walk ≡ Asks place w state rest
            → Steps job n (Some (passes n rest)) moved self.new sends sends items.old items.new) }
        ensures of_all { processes self.new ≡ processes self.old }
    {
        items.push(Item::Passed {
            p: self.me,
            e: self.epoch,
            k: CallNo(self.calls),
        })?;
        self.flow.pass();
        self.stage = Stage::Walking;
        Ok(Moved::Acted)
    }

    /// The call returns a number.
    pub(crate) fn give_number(&mut self, number: i64, items: &mut Items) -> Result<Moved, NoMemory>
        requires in_call { IsInCall self.old.stage }
        requires need { WantsNumber self.old.flow }
        ensures gives { IfOk result (λ moved. (job : Job) (n : defined.Node) (sends : List (Proc × Message)) (place : TextPlace) (w : Asked) (state : State) (rest : Reply → Walk) → IsNodeOf job self.old n
            → n.walk ≡ Asks place w state rest
            → Steps job n (Some (returns_number n rest number)) moved self.new sends sends items.old items.new) }
        ensures of_all { processes self.new ≡ processes self.old }
    {
        items.push(Item::Value {
            p: self.me,
            e: self.epoch,
            k: CallNo(self.calls),
            n: number,
        })?;
        self.flow.give_counter(number);
        self.stage = Stage::Walking;
        Ok(Moved::Acted)
    }

    // The call returns the elements of a part.
    fn give_elements(&mut self, part: &Part, items: &mut Items) -> Result<Moved, NoMemory>
        requires gathering { self.old.stage ≡ Stage.Gathering }
        requires need { WantsElements self.old.flow }
        ensures gives { IfOk result (λ moved. (job : Job) (n : defined.Node) (sends : List (Proc × Message)) (place : TextPlace) (w : Asked) (state : State) (rest : Reply → Walk) → IsNodeOf job self.old n
            → n.walk ≡ Asks place w state rest → Fits w (Elements (values_in part.now))
            → Steps job n (Some (returns_elements n rest (values_in part.now))) moved self.new sends sends items.old items.new) }
        ensures of_all { processes self.new ≡ processes self.old }
    {
        let elements = values_in(self.alloc, part)?;
        items.push(Item::Shifted {
            p: self.me,
            e: self.epoch,
            k: CallNo(self.calls),
            list: elements.copy()?,
        })?;
        self.flow.give_array(elements);
        self.stage = Stage::Walking;
        Ok(Moved::Acted)
    }

    /// The call fails, since this process is lost.
    pub(crate) fn fail(&mut self, lost: Proc, items: &mut Items) -> Result<Moved, NoMemory>
        requires { IsInCall self.old.stage }
        ensures fails { IfOk result (λ moved. (job : Job) (n : defined.Node) (sends : List (Proc × Message)) → IsNodeOf job self.old n
            → Steps job n (Some (returns_error n (ByLoss lost.0))) moved self.new sends sends items.old items.new) }
        ensures of_all { processes self.new ≡ processes self.old }
    {
        items.push(Item::Failed {
            p: self.me,
            e: self.epoch,
            k: CallNo(self.calls),
            x: lost,
        })?;
        self.stage = Stage::Failed;
        Ok(Moved::Acted)
    }

    /// The call is revoked, since this process left.
    pub(crate) fn revoke(&mut self, left: Proc, items: &mut Items) -> Result<Moved, NoMemory>
        requires { IsInCall self.old.stage }
        ensures revokes { IfOk result (λ moved. (job : Job) (n : defined.Node) (sends : List (Proc × Message)) → IsNodeOf job self.old n
            → Steps job n (Some (returns_error n (ByLeaving left.0))) moved self.new sends sends items.old items.new) }
        ensures of_all { processes self.new ≡ processes self.old }
    {
        items.push(Item::Revoked {
            p: self.me,
            e: self.epoch,
            k: CallNo(self.calls),
            x: left,
        })?;
        self.stage = Stage::Failed;
        Ok(Moved::Acted)
    }

    // What it knows of each place in its call, by its own place.
    fn known_of(&self, place: Place, wanted: &Wanted) -> Result<Gather, NoMemory>
        requires there { place_in self.now.comm self.now.me ≡ Some place.0 }
        requires below { place.0 < length self.now.comm }
        ensures many { IfOk result (λ known. length known ≡ length self.now.comm) }
        ensures kind { IfOk result (λ known. HaveKind wanted.now known) }
        ensures stands { IfOk result (λ known. (job : Job) (n : defined.Node) → IsNodeOf job self.now n → gathers_parts wanted.now ≡ true → StandsFor known n wanted.now) }
    {
        let size = self.comm.size();
        let own = own_part(wanted)?;
        let mut known = Gather::new(self.alloc, size, place.0, own)?;
        for one in 0..size {
            self.learn(place, Place(one), wanted, &mut known)?;
        }
        Ok(known)
    }

    // Learns of one place what came of it, by its own place.
    fn learn(
        &self,
        own: Place,
        one: Place,
        wanted: &Wanted,
        known: &mut Gather,
    ) -> Result<(), NoMemory>
        requires there { place_in self.now.comm self.now.me ≡ Some own.0 }
        requires inside { own.0 < length self.now.comm }
        requires below { one.0 < length self.now.comm }
        requires all { length known.old ≡ length self.now.comm }
        ensures others { (x : ℕ) → x ≢ one.0 → known_at known.new x ≡ known_at known.old x }
        ensures kind { HaveKind wanted.now known.old → HaveKind wanted.now known.new }
        ensures this { OnOk result ((job : Job) (n : defined.Node) → IsNodeOf job self.now n → gathers_parts wanted.now ≡ true → IsFresh n wanted.now (known_at known.old one.0) one.0
            → IsTold n wanted.now (known_at known.new one.0) one.0) }
        ensures keeps { length known.new ≡ length known.old }
    {
        let who = self.comm.proc_at(one).0;
        let due = due(wanted, self.comm.size(), own, one);
        let part = self.heard(who, wanted, due)?;
        give_if(known, one, part);
        lose_if(known, one, self.inbox.is_lost(who));
        leave_if(known, one, self.has_left(who));
        Ok(())
    }

    // The part of so many numbers that was heard of a process. As many are due from some place.
    fn heard(&self, who: u8, wanted: &Wanted, due: usize) -> Result<Option<Part>, NoMemory>
        ensures kind { IfOk result (λ part. HasKind wanted.now part) }
        ensures read { IfOk result (λ part. (job : Job) (n : defined.Node) (places own one : ℕ) → IsNodeOf job self.now n → due ≡ due_from wanted.now places own one
            → option_map values_in part ≡ part_from n due who) }
    {
        match self.inbox.part_of(self.epoch, CallNo(self.calls), who, due) {
            Some(values) => Ok(Some(as_part(self.alloc, wanted, values)?)),
            None => Ok(None),
        }
    }

    /// Whether a process is present, and has joined the next epoch.
    pub(crate) fn has_left(&self, who: u8) -> bool
        ensures { (job : Job) (n : defined.Node) → IsNodeOf job self.now n → result ≡ reading.has_left n who }
    {
        for member in self.present.as_slice() {
            if *member == who {
                return self.inbox.vote_of(self.epoch, who).is_some();
            }
        }
        false
    }
}

// The values that go to a place: to each the same, or to one only, and none to the others.
fn share_of(only: Option<u8>, values: &Values, place: usize) -> Result<Values, NoMemory>
    ensures { IfOk result (λ share. share ≡ share_of only values.now place) }
{
    match only {
        None => values.copy(),
        Some(target) => {
            if place == usize::from(target) {
                values.copy()
            } else {
                Ok(Values::empty())
            }
        }
    }
}

// The place so many further on than one's own, among so many.
fn target_of(places: u8, by: u8, own: Place) -> u8
    requires { own.0 < places }
    ensures { result ≡ target_of places by own.0 }
{
    ((u16::from(own.0) + u16::from(by)) % u16::from(places)) as u8
}

// The place from which one's own is so many further on, among so many.
fn source_of(places: u8, by: u8, own: Place) -> u8
    requires { own.0 < places }
    ensures is { result ≡ source_of places by own.0 }
    ensures below { result < places }
{
    let places = u16::from(places);
    ((u16::from(own.0) + (places - u16::from(by) % places)) % places) as u8
}

// One's own part.
fn own_part(wanted: &Wanted) -> Result<Part, NoMemory>
    ensures { IfOk result (λ part. part ≡ part_in wanted.now) }
{
    match wanted {
        Wanted::Reduce(_, number) => Ok(Part::Number(*number)),
        Wanted::Shift(_, elements) => Ok(Part::Elems(elements.copy()?)),
        _ => Ok(Part::Empty),
    }
}

// One's own number in a reduction.
fn own_number(wanted: &Wanted) -> i64
    ensures { (op : Operation) (number : ℤ) → wanted.now ≡ Reduce op number → result ≡ number }
{
    match wanted {
        Wanted::Reduce(_, number) => *number,
        _ => 0,
    }
}

// How many numbers are due from a place to one's own, among so many.
pub(crate) fn due(wanted: &Wanted, places: u8, own: Place, one: Place) -> usize
    requires { own.0 < places }
    ensures { result ≡ due_from wanted.now places own.0 one.0 }
{
    match wanted {
        Wanted::Reduce(..) => 1,
        Wanted::Shift(by, elements) => {
            if one.0 == source_of(places, *by, own) {
                elements.len()
            } else {
                0
            }
        }
        _ => 0,
    }
}

// The part of as many values as are due.
fn as_part(alloc: Global, wanted: &Wanted, values: &Values) -> Result<Part, NoMemory>
    ensures kind { IfOk result (λ part. HasKind wanted.now (Some part)) }
    ensures same { IfOk result (λ part. (places own one : ℕ) → length values.now ≡ due_from wanted.now places own one → values_in part ≡ values.now) }
{
    match wanted {
        Wanted::Reduce(..) => Ok(Part::Number(first_number(values))),
        Wanted::Shift(..) => Ok(Part::Elems(values.to_items(alloc)?)),
        _ => Ok(Part::Empty),
    }
}

// The values of a part.
fn values_in(alloc: Global, part: &Part) -> Result<Elems, NoMemory>
    ensures { IfOk result (λ values. values ≡ values_in part.now) }
{
    let mut values = Elems::new(alloc);
    match part {
        Part::Empty => {}
        Part::Number(number) => values.push(*number)?,
        Part::Elems(elements) => return elements.copy(),
    }
    Ok(values)
}

// The first of these numbers, 0 where there is none.
fn first_number(values: &Values) -> i64
    ensures { result ≡ get_or values.now 0 (pos 0) }
{
    match values.nth(0) {
        Some(number) => *number,
        None => 0,
    }
}

fn give_if(known: &mut Gather, one: Place, part: Option<Part>)
    requires { one.0 < length known.old }
    ensures { known.new ≡ taken one.0 part known.old }
{
    if let Some(part) = part {
        known.on_part(one.0, part);
    }
}

fn lose_if(known: &mut Gather, one: Place, lost: bool)
    requires { one.0 < length known.old }
    ensures { known.new ≡ (if lost then is_lost one.0 known.old else known.old) }
{
    if lost {
        known.on_lost(one.0);
    }
}

fn leave_if(known: &mut Gather, one: Place, left: bool)
    requires { one.0 < length known.old }
    ensures { known.new ≡ (if left then has_left one.0 known.old else known.old) }
{
    if left {
        known.on_left(one.0);
    }
}
