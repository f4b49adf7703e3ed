ghost use Rattle.std.specs.Prelude.{◌≡◌, pos, replicate, [], length, get_or, slice_get, slice_set, map, OnOk, OnErr, IfOk, ℕ};
ghost use Rattle.std.specs.List.{list_any};
ghost use Rattle.std.specs.Option.{option_copied};
ghost use Rattle.std.specs.Str.{bytes_eq};
ghost use Rattle.fx_base.specs.declared.names.Role.{Role};
ghost use Rattle.fx_script.specs.declared.expr.Expr.{Expr};
ghost use Rattle.fx_check.specs.Facts.{Facts};
ghost use Rattle.fx_check.specs.Rules.{count_of};
ghost use Rattle.fx_subset.specs.Elements.{scattered};
ghost use Rattle.fx_walk.specs.State.{at_init, restored_from, with_callback, zero_arrays, zero_counters};
ghost use Rattle.fx_walk.specs.Values.{sight, values_from};
ghost use Rattle.fx_value.specs.Shape.{IsShaped, blank_of, emptied, kept_by, zeroed};
ghost use Rattle.fx_value.specs.Terms.{term_of, term_values};

use crate::column::Columns;
use crate::formula::{Formula, Term, count_of};
use fx_base::{Bytes, Elems, NoMemory, Role, Sparse};
use fx_script::Decl;
use fx_subset::scatter;
use fx_walk::View;
use std::alloc::Global;
use std::marker::Model;

/// What a rank keeps for the statements of its job: counters and arrays, each by its slot, and
/// registered callbacks.
#[derive(Debug, Drop)]
pub struct Values {
    counters: Vec<i64>,
    arrays: Vec<Elems>,
    callbacks: Vec<Bytes>,
}

impl Model for Values {
    ghost use Rattle.fx_walk.specs.State.{State};
    ghost use Rattle.fx_value.specs.Shape.{state_code};

    ghost Value = { State };

    ghost coded = { state_code };

    ghost view = { λ v. record { counters = v.counters.items; arrays = v.arrays.items; callbacks = v.callbacks.items } };
}

impl Values {
    /// What a rank has of these declarations before its body begins: zeros, and no callback.
    pub fn new(alloc: Global, names: &[Decl]) -> Result<Values, NoMemory>
        ensures { IfOk result (λ values. values ≡ blank_of names.now) }
    {
        Ok(Values {
            counters: zero_counters(alloc, names)?,
            arrays: zero_arrays(alloc, names)?,
            callbacks: Vec::new(alloc),
        })
    }

    /// What the role leaves after a repair: the counters are 0 again; a survivor's arrays and
    /// callbacks stay, and another's arrays are 0 and its callbacks forgotten. It takes no memory.
    pub fn reset(&mut self, role: Role)
        ensures same { self.new ≡ kept_by role self.old }
        ensures begins { (f : Facts) → IsShaped f.names self.old → self.new ≡ at_init f role self.old }
    {
        self.keep(role);
    }

    fn keep(&mut self, role: Role)
        ensures { self.new ≡ kept_by role self.old }
    {
        match role {
            Role::Survivor => zero_all(self.counters.as_mut_slice()),
            Role::Initial | Role::Recovered => self.empty(),
        }
    }

    fn empty(&mut self)
        ensures { self.new ≡ emptied self.old }
    {
        zero_all(self.counters.as_mut_slice());
        zero_elements(self.arrays.as_mut_slice());
        self.callbacks.clear();
    }

    /// The value of the counter in this slot, 0 where there is none.
    pub fn counter(&self, slot: usize) -> i64
        ensures { result ≡ get_or self.now.counters slot (pos 0) }
    {
        match self.counters.get(slot) {
            Some(value) => *value,
            None => 0,
        }
    }

    /// The elements of the array in this slot, none where there is no array.
    pub fn array(&self, slot: usize) -> &[i64]
        ensures { result.now ≡ get_or self.now.arrays slot [] }
    {
        match self.arrays.get(slot) {
            Some(array) => array.as_slice(),
            None => &[],
        }
    }

    /// The array in this slot, as a list that can be copied; `None` exactly where there is none.
    pub fn elements(&self, slot: usize) -> Option<&Elems>
        ensures { option_copied result ≡ slice_get self.now.arrays slot }
    {
        self.arrays.get(slot)
    }

    /// The names of the registered callbacks, in the order of registration.
    pub fn callbacks(&self) -> &[Bytes]
        ensures { result.now ≡ self.now.callbacks }
    {
        self.callbacks.as_slice()
    }

    /// Sets the counter in this slot. Where there is none, nothing changes.
    pub fn set_counter(&mut self, slot: usize, value: i64)
        ensures { self.new ≡ record self.old { counters = slice_set self.old.counters slot value } }
    {
        if let Some(counter) = self.counters.get_mut(slot) {
            *counter = value;
        }
    }

    /// Puts elements in the place of the array in this slot. Where there is none, nothing changes.
    pub fn set_array(&mut self, slot: usize, elements: Elems)
        ensures { self.new ≡ record self.old { arrays = slice_set self.old.arrays slot elements } }
    {
        if let Some(array) = self.arrays.get_mut(slot) {
            *array = elements;
        }
    }

    /// Writes elements at their indices of the array in this slot; all others stay, and an index
    /// past the end isn't written. It takes no memory.
    pub fn write_some(&mut self, slot: usize, entries: &Sparse)
        ensures { self.new ≡ record self.old { arrays = slice_set self.old.arrays slot (restored_from 0 entries.now (get_or self.old.arrays slot [])) } }
    {
        put_entries(&mut self.arrays, slot, entries);
    }

    /// Registers a callback, once. Without memory nothing changes.
    pub fn register(&mut self, name: &Bytes) -> Result<(), NoMemory>
        ensures ok { OnOk result (self.new ≡ with_callback self.old name.now) }
        ensures no_memory { OnErr result (self.new ≡ self.old) }
    {
        if is_registered(self.callbacks.as_slice(), name.as_slice()) {
            return Ok(());
        }
        self.callbacks.push(name.copy()?)?;
        Ok(())
    }

    /// Computes each element of the array in this slot from what was there before, and then writes
    /// all. Without memory nothing changes.
    pub fn set_computed(
        &mut self,
        slot: usize,
        formula: &Formula,
        view: &View,
        columns: &mut Columns,
    ) -> Result<(), NoMemory>
        ensures same { OnOk result (self.new ≡ record self.old { arrays = slice_set self.old.arrays slot (term_values formula.now (sight view.now self.old) 0 (get_or self.old.arrays slot [])) }) }
        ensures meant { OnOk result ((f : Facts) (expr : Expr) → formula.now ≡ term_of f.names expr
            → self.new ≡ record self.old { arrays = slice_set self.old.arrays slot (values_from f expr (sight view.now self.old) 0 (get_or self.old.arrays slot [])) }) }
        ensures no_memory { OnErr result (self.new ≡ self.old) }
    {
        self.compute(slot, formula.term(), view, columns)
    }

    fn compute(
        &mut self,
        slot: usize,
        term: &Term,
        view: &View,
        columns: &mut Columns,
    ) -> Result<(), NoMemory>
        ensures ok { OnOk result (self.new ≡ record self.old { arrays = slice_set self.old.arrays slot (term_values term.now (sight view.now self.old) 0 (get_or self.old.arrays slot [])) }) }
        ensures no_memory { OnErr result (self.new ≡ self.old) }
    {
        let column = columns.compute(term, view, self, self.array(slot))?;
        put_elements(&mut self.arrays, slot, column.as_slice());
        columns.give_back(column);
        Ok(())
    }
}

fn zero_counters(alloc: Global, names: &[Decl]) -> Result<Vec<i64>, NoMemory>
    ensures { IfOk result (λ counters. counters.items ≡ zero_counters names.now) }
{
    let mut counters = Vec::new(alloc);
    for decl in names {
        if let Decl::Counter { .. } = decl {
            counters.push(0)?;
        }
    }
    Ok(counters)
}

fn zero_arrays(alloc: Global, names: &[Decl]) -> Result<Vec<Elems>, NoMemory>
    ensures { IfOk result (λ arrays. arrays.items ≡ zero_arrays names.now) }
{
    let mut arrays = Vec::new(alloc);
    for decl in names {
        if let Decl::Array { len, .. } = decl {
            arrays.push(zeros(alloc, *len)?)?;
        }
    }
    Ok(arrays)
}

fn zeros(alloc: Global, len: i64) -> Result<Elems, NoMemory>
    ensures { IfOk result (λ elements. elements ≡ replicate (count_of len) (pos 0)) }
{
    let count = count_of(len);
    let mut elements = Elems::new(alloc);
    elements.reserve(count)?;
    for _ in 0..count {
        elements.push(0)?;
    }
    Ok(elements)
}

fn zero_all(numbers: &mut [i64])
    ensures { numbers.new ≡ zeroed numbers.old }
{
    for number in numbers.iter_mut() {
        *number = 0;
    }
}

fn zero_elements(arrays: &mut [Elems])
    ensures { arrays.new ≡ map zeroed arrays.old }
{
    for array in arrays.iter_mut() {
        zero(array);
    }
}

fn zero(array: &mut Elems)
    ensures { array.new ≡ zeroed array.old }
{
    for at in 0..array.len() {
        array.set(at, 0);
    }
}

/// Writes elements over as many of the array in a slot.
fn put_elements(arrays: &mut Vec<Elems>, slot: usize, elements: &[i64])
    requires { length elements.now ≡ length (get_or arrays.old.items slot []) }
    ensures { arrays.new.items ≡ slice_set arrays.old.items slot elements.now }
{
    if let Some(array) = arrays.get_mut(slot) {
        array.write(elements);
    }
}

/// Writes elements at their indices of the array in a slot.
fn put_entries(arrays: &mut Vec<Elems>, slot: usize, entries: &Sparse)
    ensures { arrays.new.items ≡ slice_set arrays.old.items slot (scattered entries.now (get_or arrays.old.items slot [])) }
{
    if let Some(array) = arrays.get_mut(slot) {
        scatter(entries, array);
    }
}

/// Whether a callback is among the registered ones.
fn is_registered(callbacks: &[Bytes], name: &[u8]) -> bool
    ensures { result ≡ list_any (λ own. bytes_eq own name.now) callbacks.now }
{
    callbacks.iter().any(|own| own.as_slice() == name)
}
