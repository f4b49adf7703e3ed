ghost use Rattle.std.specs.Prelude.{◌≡◌, ℤ, IfOk, true, map, Some, None};
ghost use Rattle.std.specs.List.{list_all};
ghost use Rattle.fx_subset.specs.Fault.{fault_of_blocks, fault_of_pairs};
ghost use Rattle.fx_subset.specs.Indices.{blocks_of, union_of};
ghost use Rattle.fx_check.specs.Facts.{facts_of, first_attached};
ghost use Rattle.fx_check.specs.Rules.{count_of, fits_32, is_faultless, length_of_attached, pair_fits_32, pair_of, picked_fits_32, subset_fault};
ghost use Rattle.fx_flow.specs.declared.instr.Selection.TheVariants as selection;
ghost use Rattle.fx_flow.specs.Emits.{Selects};

use crate::instr::Selection;
use fx_base::{NoMemory, Pairs};
use fx_check::{IndexedJob, array_in};
use fx_script::Picked;
use fx_subset::{MakeSubset, ranges, strided};
use std::alloc::Global;

/// A number of 32 bits, where it is one.
fn low_32(number: &i64) -> u32
    ensures { fits_32 number.now ≡ true → result ≡ count_of number.now }
{
    let number = *number;
    number.clamp(0, 4_294_967_295) as u32
}

fn pair_of(pair: &(i64, i64)) -> (u32, u32)
    ensures { pair_fits_32 pair.now ≡ true → result ≡ pair_of pair.now }
{
    (low_32(&pair.0), low_32(&pair.1))
}

fn pairs_of(alloc: Global, pairs: &[(i64, i64)]) -> Result<Pairs, NoMemory>
    ensures { IfOk result (λ made. list_all pair_fits_32 pairs.now ≡ true → made ≡ map pair_of pairs.now) }
{
    let mut made = Pairs::new(alloc);
    for pair in pairs {
        made.push(pair_of(pair))?;
    }
    Ok(made)
}

/// The length of the array that the job attaches to a member, where it is declared.
fn member_len(job: &IndexedJob, group: &i64, member: &i64) -> Option<i64>
    ensures { result ≡ length_of_attached job.now.names (first_attached (facts_of job.now).attached group.now member.now) }
{
    match job.attachment_of(*group, *member) {
        Some(array) => array_in(job.names(), array),
        None => None,
    }
}

fn blocks_within(
    alloc: Global,
    len: u32,
    blocks: u32,
    start: u32,
    end: u32,
    stride: u32,
) -> Result<Selection, NoMemory>
    ensures { IfOk result (λ which. fault_of_blocks len blocks start end stride ≡ None → which ≡ selection.Within (union_of (blocks_of blocks start end stride))) }
{
    match strided(alloc, len, blocks, start, end, stride) {
        Ok(subset) => Ok(Selection::Within(subset)),
        Err(MakeSubset::Refused(_)) => Ok(Selection::Nothing),
        Err(MakeSubset::NoMemory) => Err(NoMemory),
    }
}

fn pairs_within(alloc: Global, len: u32, pairs: &Pairs) -> Result<Selection, NoMemory>
    ensures { IfOk result (λ which. fault_of_pairs len pairs.now ≡ None → which ≡ selection.Within (union_of pairs.now)) }
{
    match ranges(alloc, len, pairs) {
        Ok(subset) => Ok(Selection::Within(subset)),
        Err(MakeSubset::Refused(_)) => Ok(Selection::Nothing),
        Err(MakeSubset::NoMemory) => Err(NoMemory),
    }
}

/// What is picked of an array of a length, where nothing is wrong with it.
fn selection_in(alloc: Global, len: u32, picked: &Picked) -> Result<Selection, NoMemory>
    ensures { IfOk result (λ which. picked_fits_32 picked.now ≡ true → is_faultless (subset_fault len picked.now) ≡ true → Selects picked.now which) }
{
    match picked {
        Picked::Full => Ok(Selection::All),
        Picked::Empty => Ok(Selection::Nothing),
        Picked::Strided(blocks, start, end, stride) => blocks_within(
            alloc,
            len,
            low_32(blocks),
            low_32(start),
            low_32(end),
            low_32(stride),
        ),
        Picked::Ranges(pairs) => {
            let pairs = pairs_of(alloc, pairs.as_slice())?;
            pairs_within(alloc, len, &pairs)
        }
    }
}

/// What is picked of the array that the job attaches to a member, where that array is declared and
/// nothing is wrong with what is picked.
pub fn selection_of(
    alloc: Global,
    job: &IndexedJob,
    group: &i64,
    member: &i64,
    picked: &Picked,
) -> Result<Selection, NoMemory>
    ensures { IfOk result (λ which. (len : ℤ) → length_of_attached job.now.names (first_attached (facts_of job.now).attached group.now member.now) ≡ Some len → fits_32 len ≡ true
        → picked_fits_32 picked.now ≡ true → is_faultless (subset_fault (count_of len) picked.now) ≡ true → Selects picked.now which) }
{
    match member_len(job, group, member) {
        Some(len) => selection_in(alloc, low_32(&len), picked),
        None => Ok(Selection::Nothing),
    }
}
