ghost use Rattle.std.specs.Prelude.{◌≡◌, ◌<◌, ℕ, IsTrue, nat_le, nat_lt, IfOk, IsErrOf};
ghost use Rattle.std.specs.List.{list_any};
ghost use Rattle.std.specs.FinSet as set;
ghost use Rattle.fx_subset.specs.Indices.{HasIndexFrom, blocks_of, numbers_below, union_of};
ghost use Rattle.fx_subset.specs.Fault.{fault_of_blocks, fault_of_pairs, fault_of_whole, Refuses};

use crate::fault::{MakeSubset, SubsetFault};
use crate::runs::{run_alone, runs_of_blocks, runs_of_pairs};
use crate::subset::Subset;
use fx_base::Pairs;
use std::alloc::Global;

/// The set of the indices that `blocks` blocks cover in an array of length `len`. Block k, from 0, goes from
/// `start + k * stride` to `end + k * stride`, both included; blocks may overlap.
///
/// Refuses, the first that holds: `NoBlocks` where `blocks` is 0, `EndBeforeStart`, `ZeroStride` where there are
/// two blocks or more and `stride` is 0, `Outside` where an index is `len` or more.
pub fn strided(
    alloc: Global,
    len: u32,
    blocks: u32,
    start: u32,
    end: u32,
    stride: u32,
) -> Result<Subset, MakeSubset>
    ensures made { IfOk result (λ subset. subset ≡ union_of (blocks_of blocks start end stride)) }
    ensures inside { IfOk result (λ subset. (index : ℕ) → IsTrue (set.contains subset index) → index < len) }
    ensures refused { Refuses result (fault_of_blocks len blocks start end stride) }
    ensures outside { IsErrOf result (MakeSubset.Refused SubsetFault.Outside) → HasIndexFrom len (blocks_of blocks start end stride) }
{
    if let Some(fault) = blocks_fault(len, blocks, start, end, stride) {
        return Err(MakeSubset::Refused(fault));
    }
    let runs = runs_of_blocks(alloc, blocks, start, end, stride)?;
    Ok(Subset::of_runs(runs))
}

/// The set of the indices that the pairs cover in an array of length `len`, each from its first to its second
/// number, both included. They may come in any order and overlap.
///
/// Refuses, the first that holds: `NoBlocks` where there is no pair, `EndBeforeStart`, `Outside` where an index is
/// `len` or more.
pub fn ranges(alloc: Global, len: u32, pairs: &Pairs) -> Result<Subset, MakeSubset>
    ensures made { IfOk result (λ subset. subset ≡ union_of pairs.now) }
    ensures inside { IfOk result (λ subset. (index : ℕ) → IsTrue (set.contains subset index) → index < len) }
    ensures refused { Refuses result (fault_of_pairs len pairs.now) }
    ensures outside { IsErrOf result (MakeSubset.Refused SubsetFault.Outside) → HasIndexFrom len pairs.now }
{
    if let Some(fault) = pairs_fault(len, pairs.as_slice()) {
        return Err(MakeSubset::Refused(fault));
    }
    let runs = runs_of_pairs(alloc, pairs.as_slice())?;
    Ok(Subset::of_runs(runs))
}

/// The set of all indices of an array of length `len`. Refuses `NoBlocks` where `len` is 0.
pub fn full(alloc: Global, len: u32) -> Result<Subset, MakeSubset>
    ensures made { IfOk result (λ subset. subset ≡ set.from_list (numbers_below len)) }
    ensures refused { Refuses result (fault_of_whole len) }
{
    if len == 0 {
        return Err(MakeSubset::Refused(SubsetFault::NoBlocks));
    }
    let runs = run_alone(alloc, 0, len - 1)?;
    Ok(Subset::of_runs(runs))
}

/// The set of no index.
pub fn empty(alloc: Global) -> Subset
    ensures { result ≡ set.empty }
{
    Subset::of_runs(Vec::new(alloc))
}

/// The fault of the numbers of a strided subset.
fn blocks_fault(len: u32, blocks: u32, start: u32, end: u32, stride: u32) -> Option<SubsetFault>
    ensures { result ≡ fault_of_blocks len blocks start end stride }
{
    if blocks == 0 {
        return Some(SubsetFault::NoBlocks);
    }
    if end < start {
        return Some(SubsetFault::EndBeforeStart);
    }
    if blocks > 1 && stride == 0 {
        return Some(SubsetFault::ZeroStride);
    }
    if u64::from(len) <= u64::from(end) + u64::from(blocks - 1) * u64::from(stride) {
        return Some(SubsetFault::Outside);
    }
    None
}

/// The fault of pairs of a first and a last index.
fn pairs_fault(len: u32, pairs: &[(u32, u32)]) -> Option<SubsetFault>
    ensures { result ≡ fault_of_pairs len pairs.now }
{
    if pairs.is_empty() {
        return Some(SubsetFault::NoBlocks);
    }
    if has_end_before_start(pairs) {
        return Some(SubsetFault::EndBeforeStart);
    }
    if has_index_from(len, pairs) {
        return Some(SubsetFault::Outside);
    }
    None
}

/// Whether a pair ends before it starts.
fn has_end_before_start(pairs: &[(u32, u32)]) -> bool
    ensures { result ≡ list_any (λ pair. nat_lt pair.1 pair.0) pairs.now }
{
    pairs.iter().any(|pair| pair.1 < pair.0)
}

/// Whether a pair ends at `len` or later.
fn has_index_from(len: u32, pairs: &[(u32, u32)]) -> bool
    ensures { result ≡ list_any (λ pair. nat_le len pair.1) pairs.now }
{
    pairs.iter().any(|pair| len <= pair.1)
}
