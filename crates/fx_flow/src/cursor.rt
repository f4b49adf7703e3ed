ghost use Rattle.std.specs.Prelude.{◌≡◌, ◌<◌, ◌-◌, suc, pos, true, Some, None, IfOk, OnOk, OnErr, if◌then◌else◌};
ghost use Rattle.fx_check.specs.Rules.{count_of};
ghost use Rattle.fx_walk.specs.State.{with_callback};
ghost use Rattle.fx_walk.specs.Values.{holds};
ghost use Rattle.fx_walk.specs.Walk.{Elements, Entries, Number, is_same_role};
ghost use Rattle.fx_value.specs.Shape.{blank_of, kept_by};
ghost use Rattle.fx_flow.specs.declared.instr.Instr.TheVariants as instr;
ghost use Rattle.fx_flow.specs.Code.{Moves, acts_on, ends, start, values_at};
ghost use Rattle.fx_flow.specs.Loops.{is_open};
ghost use Rattle.fx_flow.specs.Stands.{moved_to};
ghost use Rattle.fx_flow.specs.Outward.{takes_elements, takes_entries, takes_number};

use crate::instr::{Loop, Variable};
use crate::loops::Loops;
use crate::room::{array_in, name_in, no_print, number_in};
use fx_base::{Bytes, Elems, NoMemory, Role, Sparse};
use fx_script::{Decl, Test};
use fx_value::{Columns, Formula, Values};
use fx_walk::{Printed, View};
use std::alloc::Global;
use std::marker::Model;
use std::mem;

/// Where a rank stands in flat code, with what it keeps. It is seen as its stand.
#[derive(Debug, Drop)]
pub struct Cursor {
    place: usize,
    loops: Loops,
    values: Values,
    columns: Columns,
    // what was printed last, as room for the next print
    room: Printed,
}

impl Model for Cursor {
    ghost use Rattle.fx_flow.specs.Code.{Stand};
    ghost use Rattle.fx_flow.specs.Stands.{stand_code};

    ghost Value = { Stand };

    ghost coded = { stand_code };

    ghost view = { λ c. record { place = c.place; opened = c.loops; state = c.values } };
}

impl Cursor {
    /// At the beginning of code, with zeros.
    pub fn new(alloc: Global, names: &[Decl], begin: usize) -> Result<Cursor, NoMemory>
        ensures { IfOk result (λ cursor. cursor ≡ start begin (blank_of names.now)) }
    {
        Ok(Cursor {
            place: begin,
            loops: Loops::new(alloc),
            values: Values::new(alloc, names)?,
            columns: Columns::new(alloc),
            room: no_print(alloc),
        })
    }

    /// The place of the next instruction.
    pub fn place(&self) -> usize
        ensures { result ≡ self.now.place }
    {
        self.place
    }

    /// Whether a loop is open.
    pub fn is_open(&self) -> bool
        ensures { result ≡ is_open self.now.opened }
    {
        self.loops.innermost().is_some()
    }

    /// What it keeps.
    pub fn values(&self) -> &Values
        ensures { result.now ≡ self.now.state }
    {
        &self.values
    }

    /// Goes to a place.
    pub fn move_to(&mut self, place: usize)
        ensures { self.new ≡ moved_to place self.old }
    {
        self.place = place;
    }

    /// Goes to the beginning, with what the role leaves.
    pub fn rewind(&mut self, begin: usize, role: Role)
        ensures { self.new ≡ start begin (kept_by role self.old.state) }
    {
        self.place = begin;
        self.loops.clear();
        self.values.reset(role);
    }

    // ---- plain actions

    /// The end of a turn of the innermost loop.
    pub fn end_turn(&mut self)
        requires { is_open self.old.opened ≡ true }
        ensures { ends self.old.opened self.old.state ≡ Moves None self.new }
    {
        if let Some(turn) = self.loops.innermost() {
            if turn.turns == 0 {
                self.loops.close();
                self.place = turn.next;
            } else {
                let turn = later(turn);
                self.loops.turn(turn);
                self.values.set_counter(turn.counter, value_of(turn));
                self.place = turn.inside;
            }
        }
    }

    pub fn compute_array(
        &mut self,
        view: &View,
        array: usize,
        value: &Formula,
        next: usize,
    ) -> Result<(), NoMemory>
        ensures ok { OnOk result (acts_on view.now self.old (Some (instr.Let array value.now next)) ≡ Moves None self.new) }
        ensures no_memory { OnErr result (self.new ≡ self.old) }
    {
        self.values
            .set_computed(array, value, view, &mut self.columns)?;
        self.place = next;
        Ok(())
    }

    pub fn compute_counter(&mut self, view: &View, counter: usize, value: &Formula, next: usize)
        ensures { acts_on view.now self.old (Some (instr.Set counter value.now next)) ≡ Moves None self.new }
    {
        let value = value.value(view, &self.values);
        self.values.set_counter(counter, value);
        self.place = next;
    }

    pub fn register(&mut self, name: &Bytes, next: usize) -> Result<(), NoMemory>
        ensures ok { OnOk result (self.new ≡ record self.old { place = next; state = with_callback self.old.state name.now }) }
        ensures no_memory { OnErr result (self.new ≡ self.old) }
    {
        self.values.register(name)?;
        self.place = next;
        Ok(())
    }

    /// What is printed of an array or a counter.
    pub fn printed(
        &mut self,
        alloc: Global,
        name: &Bytes,
        variable: Variable,
    ) -> Result<Printed, NoMemory>
        ensures printed { IfOk result (λ printed. printed ≡ record { name = name.now; values = values_at self.old.state variable }) }
        ensures same { self.new ≡ self.old }
    {
        let Printed {
            name: text,
            values: elements,
        } = mem::replace(&mut self.room, no_print(alloc));
        let values = match variable {
            Variable::Array(slot) => array_in(elements, &self.values, slot)?,
            Variable::Counter(slot) => number_in(elements, self.values.counter(slot))?,
        };
        Ok(Printed {
            name: name_in(text, name)?,
            values,
        })
    }

    /// Takes back what was printed, as room for the next print.
    pub fn give_back(&mut self, printed: Printed)
        ensures { self.new ≡ self.old }
    {
        self.room = printed;
    }

    pub fn enter(&mut self, view: &View, role: Role, inside: usize, next: usize)
        ensures { acts_on view.now self.old (Some (instr.When role inside next)) ≡ Moves None self.new }
    {
        self.place = either(is_same_role(role, view.role), inside, next);
    }

    pub fn choose(
        &mut self,
        view: &View,
        test: Test,
        left: &Formula,
        right: &Formula,
        chosen: usize,
        other: usize,
    )
        ensures { acts_on view.now self.old (Some (instr.If test left.now right.now chosen other)) ≡ Moves None self.new }
    {
        let left = left.value(view, &self.values);
        let right = right.value(view, &self.values);
        self.place = either(holds(test, left, right), chosen, other);
    }

    /// The first test of a loop, whose turns are still to be set.
    pub fn begin_loop(&mut self, view: &View, first: &Formula, turn: Loop) -> Result<(), NoMemory>
        ensures ok { OnOk result (acts_on view.now self.old (Some (instr.For turn.counter first.now turn.last turn.inside turn.next)) ≡ Moves None self.new) }
        ensures no_memory { OnErr result (self.new ≡ self.old) }
    {
        let turns = turns_from(first.value(view, &self.values), turn.last);
        if turns == 0 {
            self.place = turn.next;
            return Ok(());
        }
        let turn = Loop {
            turns: turns - 1,
            ..turn
        };
        self.loops.open(turn)?;
        self.values.set_counter(turn.counter, value_of(turn));
        self.place = turn.inside;
        Ok(())
    }

    // ---- what an outward statement is given

    /// Sets the number in a counter, and goes to a place.
    pub fn take_number(&mut self, counter: usize, value: i64, next: usize)
        ensures { self.new ≡ record self.old { place = next; state = takes_number counter self.old.state (Number value) } }
    {
        self.values.set_counter(counter, value);
        self.place = next;
    }

    /// Puts the elements in the place of as many of an array, and goes to a place.
    pub fn take_elements(&mut self, array: usize, elements: Elems, next: usize)
        ensures { self.new ≡ record self.old { place = next; state = takes_elements array self.old.state (Elements elements) } }
    {
        self.values.set_array(array, elements);
        self.place = next;
    }

    /// Writes the elements at exactly their indices of an array, and goes to a place.
    pub fn take_entries(&mut self, array: usize, entries: &Sparse, next: usize)
        ensures { self.new ≡ record self.old { place = next; state = takes_entries array self.old.state (Entries entries.now) } }
    {
        self.values.write_some(array, entries);
        self.place = next;
    }
}

/// How many turns a loop has from a first value, 0 in place of a negative one, up to a last.
fn turns_from(first: i64, last: u32) -> u64
    ensures { result ≡ suc last - count_of first }
{
    let first = first.max(0) as u64;
    (u64::from(last) + 1).saturating_sub(first)
}

/// The turn behind this one.
fn later(turn: Loop) -> Loop
    requires { 0 < turn.turns }
    ensures { result ≡ record turn { turns = turn.turns - 1 } }
{
    Loop {
        turns: turn.turns - 1,
        ..turn
    }
}

/// The value of the counter in a turn: the last turn has the last value.
fn value_of(turn: Loop) -> i64
    ensures { result ≡ pos (turn.last - turn.turns) }
{
    u64::from(turn.last).saturating_sub(turn.turns) as i64
}

fn either(test: bool, one: usize, other: usize) -> usize
    ensures { result ≡ (if test then one else other) }
{
    if test { one } else { other }
}

fn is_same_role(one: Role, other: Role) -> bool
    ensures { result ≡ is_same_role one other }
{
    match (one, other) {
        (Role::Initial, Role::Initial) => true,
        (Role::Survivor, Role::Survivor) => true,
        (Role::Recovered, Role::Recovered) => true,
        _ => false,
    }
}

fn holds(test: Test, left: i64, right: i64) -> bool
    ensures { result ≡ holds test left right }
{
    match test {
        Test::Lt => left < right,
        Test::Le => left <= right,
        Test::Eq => left == right,
    }
}
