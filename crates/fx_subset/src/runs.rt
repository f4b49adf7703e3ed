ghost use Rattle.std.specs.Prelude.{◌≡◌, ℕ, ◌+◌, ◌-◌, ◌*◌, ◌<◌, ◌≤◌, [], ◌∷◌, All, IfOk};
ghost use Rattle.fx_subset.specs.Indices.{is_covered, blocks_of};
ghost use Rattle.fx_subset.specs.Runs.{AreApart, AreInOrder, IsWhole, total_of};

use fx_base::NoMemory;
use std::alloc::Global;

/// One run.
pub(crate) fn run_alone(alloc: Global, first: u32, last: u32) -> Result<Vec<(u32, u32)>, NoMemory>
    ensures { IfOk result (λ runs. runs.items ≡ (first, last) ∷ []) }
{
    let mut runs = Vec::new(alloc);
    runs.push((first, last))?;
    Ok(runs)
}

/// The runs of pairs in any order, which may overlap.
pub(crate) fn runs_of_pairs(
    alloc: Global,
    pairs: &[(u32, u32)],
) -> Result<Vec<(u32, u32)>, NoMemory>
    requires { All IsWhole pairs.now }
    ensures apart { IfOk result (λ runs. AreApart 0 runs.items) }
    ensures same { IfOk result (λ runs. (index : ℕ) → is_covered runs.items index ≡ is_covered pairs.now index) }
{
    joined(alloc, Vec::from_slice(alloc, pairs)?)
}

/// The runs of intervals in any order, which may overlap.
pub(crate) fn joined(alloc: Global, intervals: Vec<(u32, u32)>) -> Result<Vec<(u32, u32)>, NoMemory>
    requires { All IsWhole intervals.items }
    ensures apart { IfOk result (λ runs. AreApart 0 runs.items) }
    ensures same { IfOk result (λ runs. (index : ℕ) → is_covered runs.items index ≡ is_covered intervals.items index) }
{
    let mut sorted = intervals;
    sorted.sort_unstable_by_key(|interval| interval.0);
    joined_in_order(alloc, sorted.as_slice())
}

/// The runs of intervals that are sorted by their first indices.
fn joined_in_order(alloc: Global, sorted: &[(u32, u32)]) -> Result<Vec<(u32, u32)>, NoMemory>
    requires { AreInOrder 0 sorted.now }
    ensures apart { IfOk result (λ runs. AreApart 0 runs.items) }
    ensures same { IfOk result (λ runs. (index : ℕ) → is_covered runs.items index ≡ is_covered sorted.now index) }
{
    let mut runs = Vec::new(alloc);
    let [head, rest @ ..] = sorted else {
        return Ok(runs);
    };
    let mut first = head.0;
    let mut last = head.1;
    for next in rest {
        if next.0 <= last + 1 {
            last = last.max(next.1);
        } else {
            runs.push((first, last))?;
            first = next.0;
            last = next.1;
        }
    }
    runs.push((first, last))?;
    Ok(runs)
}

/// The runs of the blocks of a strided subset. Blocks that run into one another are one run.
pub(crate) fn runs_of_blocks(
    alloc: Global,
    blocks: u32,
    start: u32,
    end: u32,
    stride: u32,
) -> Result<Vec<(u32, u32)>, NoMemory>
    requires some { 0 < blocks }
    requires ordered { start ≤ end }
    requires inside { end + (blocks - 1) * stride < 4294967295 }
    ensures apart { IfOk result (λ runs. AreApart 0 runs.items) }
    ensures same { IfOk result (λ runs. (index : ℕ) → is_covered runs.items index ≡ is_covered (blocks_of blocks start end stride) index) }
{
    if stride <= end - start + 1 {
        return run_alone(alloc, start, end + (blocks - 1) * stride);
    }
    let mut runs = Vec::new(alloc);
    for block in 0..blocks {
        let shift = block * stride;
        runs.push((start + shift, end + shift))?;
    }
    Ok(runs)
}

/// The number of indices in the runs.
pub(crate) fn total(runs: &[(u32, u32)]) -> u32
    requires { AreApart 0 runs.now }
    ensures { result ≡ total_of runs.now }
{
    let mut count = 0;
    for run in runs {
        count += run.1 - run.0 + 1;
    }
    count
}

/// Whether one of the runs covers the index. It halves the runs until one is left.
pub(crate) fn covers(runs: &[(u32, u32)], index: u32) -> bool
    requires { AreApart 0 runs.now }
    ensures { result ≡ is_covered runs.now index }
{
    let at = runs.partition_point(|run| run.1 < index);
    match runs.get(at) {
        Some(run) => run.0 <= index,
        None => false,
    }
}
