ghost use Rattle.std.specs.Prelude.{◌≡◌, ◌==◌, ℕ, ℤ, Some, IfOk, OnOk, slice_get, slice_set};
ghost use Rattle.std.specs.FinMap as finite;
ghost use Rattle.fx_subset.specs.Elements.{if_chosen, put_if, scattered};
ghost use Rattle.fx_subset.specs.Indices.{is_between, is_covered};
ghost use Rattle.fx_subset.specs.Runs.{AreApart, IsWhole};

use fx_base::{Elems, NoMemory, Sparse};
use std::alloc::Global;

/// The elements of an array that the runs cover.
pub(crate) fn gather_runs(
    alloc: Global,
    runs: &[(u32, u32)],
    from: &Elems,
) -> Result<Sparse, NoMemory>
    requires { AreApart 0 runs.now }
    ensures { IfOk result (λ elements. (index : ℕ) → finite.get elements index ≡ if_chosen (is_covered runs.now index) (slice_get from.now index)) }
{
    let mut elements = Sparse::new(alloc);
    for run in runs {
        gather_run(&mut elements, run, from)?;
    }
    Ok(elements)
}

/// Adds the elements of an array from the first to the last index of a run, as far as the array goes.
fn gather_run(elements: &mut Sparse, run: &(u32, u32), from: &Elems) -> Result<(), NoMemory>
    requires { IsWhole run.now }
    ensures { OnOk result ((index : ℕ) → finite.get elements.new index ≡ put_if (is_between run.now index) (slice_get from.now index) (finite.get elements.old index)) }
{
    for index in run.0..run.1 + 1 {
        gather_one(elements, index, from)?;
    }
    Ok(())
}

/// Adds the element of an array at an index, if there is one.
fn gather_one(elements: &mut Sparse, index: u32, from: &Elems) -> Result<(), NoMemory>
    ensures { OnOk result ((other : ℕ) → finite.get elements.new other ≡ put_if (other == index) (slice_get from.now other) (finite.get elements.old other)) }
{
    if let Some(element) = from.nth(index as usize) {
        elements.put(index, *element)?;
    }
    Ok(())
}

/// Writes the elements of a map at their indices of an array. All others stay, and an index that
/// isn't below the array's length isn't written. It takes no memory.
pub fn scatter(values: &Sparse, into: &mut Elems)
    ensures { into.new ≡ scattered values.now into.old }
{
    for at in 0..values.len() {
        write_entry(values, at, into);
    }
}

/// Writes entry `at` of a map.
fn write_entry(values: &Sparse, at: usize, into: &mut Elems)
    ensures { (entry : ℕ × ℤ) → slice_get (finite.entries values.now) at ≡ Some entry → into.new ≡ slice_set into.old entry.0 entry.1 }
{
    if let Some((index, value)) = values.nth(at) {
        write(into, index as usize, *value);
    }
}

/// Writes an element, where the index is below the array's length.
fn write(into: &mut Elems, index: usize, value: i64)
    ensures { into.new ≡ slice_set into.old index value }
{
    if index < into.len() {
        into.set(index, value);
    }
}
