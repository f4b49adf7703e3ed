ghost use Rattle.std.specs.Prelude.{◌≡◌, IfOk, Option, map, true};
ghost use Rattle.std.specs.List.{list_all};
ghost use Rattle.fx_script.specs.declared.job.Stmt.TheViews.{out-Stmt};
ghost use Rattle.fx_subset.specs.declared.fault.SubsetFault.{SubsetFault};
ghost use Rattle.fx_subset.specs.Fault.{Refuses};
ghost use Rattle.fx_check.specs.Facts.{array_in, facts_of};
ghost use Rattle.fx_check.specs.Rules.{count_of, fits_32, is_faultless, lies_in, pair_fits_32, pair_of, picked_fits_32, stores_inside, subset_fault};

use crate::lookup::array_in;
use crate::range::{fits_32, picked_fits_32};
use crate::tables::IndexedJob;
use fx_base::{NoMemory, Pairs};
use fx_script::{Picked, Stmt};
use fx_subset::{MakeSubset, Subset, full, ranges, strided};
use std::alloc::Global;

/// Whether what a statement stores lies in the array of its member.
pub fn stores_inside(alloc: Global, job: &IndexedJob, statement: &Stmt) -> Result<bool, NoMemory>
    ensures { IfOk result (λ inside. inside ≡ stores_inside (facts_of job.now) (out-Stmt statement.now)) }
{
    match statement {
        Stmt::Store {
            group,
            member,
            subset,
            ..
        } => match job.attachment_of(*group, *member) {
            Some(array) => lies_in(alloc, array_in(job.names(), array), subset),
            None => Ok(true),
        },
        _ => Ok(true),
    }
}

// Whether a subset lies in an array, where the array is declared and all numbers fit.
fn lies_in(alloc: Global, len: Option<i64>, subset: &Picked) -> Result<bool, NoMemory>
    ensures { IfOk result (λ inside. inside ≡ lies_in len subset.now) }
{
    match len {
        Some(len) if fits_32(len) && picked_fits_32(subset) => {
            fits_inside(alloc, low_32(len), subset)
        }
        _ => Ok(true),
    }
}

fn is_made(made: Result<Subset, MakeSubset>) -> Result<bool, NoMemory>
    ensures { (fault : Option SubsetFault) → Refuses made fault → IfOk result (λ is_made. is_made ≡ is_faultless fault) }
{
    match made {
        Ok(_) => Ok(true),
        Err(MakeSubset::Refused(_)) => Ok(false),
        Err(MakeSubset::NoMemory) => Err(NoMemory),
    }
}

fn fits_inside(alloc: Global, len: u32, subset: &Picked) -> Result<bool, NoMemory>
    requires { picked_fits_32 subset.now ≡ true }
    ensures { IfOk result (λ inside. inside ≡ is_faultless (subset_fault len subset.now)) }
{
    match subset {
        Picked::Full => is_made(full(alloc, len)),
        Picked::Empty => Ok(true),
        Picked::Strided(blocks, start, end, stride) => is_made(strided(
            alloc,
            len,
            low_32(*blocks),
            low_32(*start),
            low_32(*end),
            low_32(*stride),
        )),
        Picked::Ranges(pairs) => {
            let pairs = pairs_of(alloc, pairs.as_slice())?;
            is_made(ranges(alloc, len, &pairs))
        }
    }
}

fn pairs_of(alloc: Global, pairs: &[(i64, i64)]) -> Result<Pairs, NoMemory>
    requires { list_all pair_fits_32 pairs.now ≡ true }
    ensures { IfOk result (λ made. made ≡ map pair_of pairs.now) }
{
    let mut made = Pairs::new(alloc);
    for pair in pairs {
        made.push(pair_of(pair))?;
    }
    Ok(made)
}

fn pair_of(pair: &(i64, i64)) -> (u32, u32)
    requires { pair_fits_32 pair.now ≡ true }
    ensures { result ≡ pair_of pair.now }
{
    (low_32(pair.0), low_32(pair.1))
}

fn low_32(number: i64) -> u32
    requires { fits_32 number ≡ true }
    ensures { result ≡ count_of number }
{
    number as u32
}
