ghost use Rattle.std.specs.Prelude.{◌≡◌, [], pos, IfOk, get_or};
ghost use Rattle.fx_walk.specs.Values.{combined, reduced, reduced_with};
ghost use Rattle.fx_flow.specs.Outward.{is_selected, selected, wanted_by};

use crate::instr::{Outward, Selection};
use fx_base::{Elems, NoMemory, Op, Sparse, Stamp};
use fx_value::Values;
use fx_walk::{View, Wanted};
use std::alloc::Global;

/// An outward statement with the values of its operands.
pub fn wanted_by(
    alloc: Global,
    what: &Outward,
    view: &View,
    values: &Values,
) -> Result<Wanted, NoMemory>
    ensures { IfOk result (λ wanted. wanted ≡ wanted_by what.now view.now values.now) }
{
    match what {
        Outward::Barrier => Ok(Wanted::Barrier),
        Outward::Reduce { op, array, .. } => {
            Ok(Wanted::Reduce(*op, reduced(*op, values.array(*array))))
        }
        Outward::Agree { array, index, .. } => {
            Ok(Wanted::Agree(element_at(values.array(*array), *index)))
        }
        Outward::Shift { by, source, .. } => {
            let elements = copied_array(alloc, values, *source)?;
            Ok(Wanted::Shift(*by, elements))
        }
        Outward::Group {
            group,
            start,
            depth,
        } => Ok(Wanted::Group(*group, *start, *depth)),
        Outward::Attach { group, member } => Ok(Wanted::Attach(*group, *member)),
        Outward::Store {
            group,
            member,
            array,
            selection,
        } => {
            let entries = selected(alloc, selection, values.array(*array))?;
            Ok(Wanted::Store(*group, *member, entries))
        }
        Outward::Commit { group } => Ok(Wanted::Commit(*group)),
        Outward::Close { group } => Ok(Wanted::Close(*group)),
        Outward::Restore {
            group,
            member,
            stamp,
            ..
        } => Ok(Wanted::Restore(*group, *member, Stamp(stamp.value(view, values)))),
        Outward::Delete { group, stamp } => {
            Ok(Wanted::Delete(*group, Stamp(stamp.value(view, values))))
        }
    }
}

/// The element at an index, 0 where there is none.
fn element_at(elements: &[i64], index: usize) -> i64
    ensures { result ≡ get_or elements.now index (pos 0) }
{
    match elements.get(index) {
        Some(element) => *element,
        None => 0,
    }
}

/// A copy of the elements of the array in this slot, none where there is no array.
pub fn copied_array(alloc: Global, values: &Values, slot: usize) -> Result<Elems, NoMemory>
    ensures { IfOk result (λ made. made ≡ get_or values.now.arrays slot []) }
{
    match values.elements(slot) {
        Some(elements) => elements.copy(),
        None => Ok(Elems::new(alloc)),
    }
}

fn combined(op: Op, one: i64, other: i64) -> i64
    ensures { result ≡ combined op one other }
{
    match op {
        Op::Sum => one.wrapping_add(other),
        Op::Min => { if other < one { other } else { one } }
        Op::Max => { if one < other { other } else { one } }
    }
}

/// A number and more of them reduced to one, one after another.
fn reduced_with(op: Op, first: i64, more: &[i64]) -> i64
    ensures { result ≡ reduced_with op first more.now }
{
    let mut so_far = first;
    for element in more {
        so_far = combined(op, so_far, *element);
    }
    so_far
}

/// All elements reduced to one number, 0 where there is none.
fn reduced(op: Op, elements: &[i64]) -> i64
    ensures { result ≡ reduced op elements.now }
{
    match elements.split_first() {
        None => 0,
        Some((first, more)) => reduced_with(op, *first, more),
    }
}

fn is_selected(selection: &Selection, index: u32) -> bool
    ensures { result ≡ is_selected selection.now index }
{
    match selection {
        Selection::All => true,
        Selection::Nothing => false,
        Selection::Within(subset) => subset.contains(index),
    }
}

/// The selected elements, each at its index.
fn selected(alloc: Global, selection: &Selection, elements: &[i64]) -> Result<Sparse, NoMemory>
    ensures { IfOk result (λ made. made ≡ selected selection.now elements.now) }
{
    let mut made = Sparse::new(alloc);
    for (index, element) in elements.iter().enumerate() {
        // a map has room for indices of 32 bits
        let Ok(index) = u32::try_from(index) else {
            return Err(NoMemory);
        };
        if is_selected(selection, index) {
            made.put(index, *element)?;
        }
    }
    Ok(made)
}
