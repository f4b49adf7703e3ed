ghost use Rattle.std.specs.Prelude.{◌≡◌};
ghost use Rattle.std.specs.List.{list_all};
ghost use Rattle.std.specs.Ordering.{int_eq};
ghost use Rattle.fx_check.specs.Rules.{are_of_one_length, fits_32, is_between, is_index_if, is_process, pair_fits_32, picked_fits_32};

use fx_script::Picked;

/// Whether a number is from `low` to `high`.
pub fn is_between(low: u32, high: u32, number: i64) -> bool
    ensures { result ≡ is_between low high number }
{
    number >= 0 && u64::from(low) <= number as u64 && number as u64 <= u64::from(high)
}

/// Whether a number is an index of an array, where the array is declared.
pub fn is_index_if(len: Option<i64>, index: i64) -> bool
    ensures { result ≡ is_index_if len index }
{
    match len {
        None => true,
        Some(len) => index >= 0 && index < len,
    }
}

/// Whether two arrays are of one length, where both are declared.
pub fn are_of_one_length(left: Option<i64>, right: Option<i64>) -> bool
    ensures { result ≡ are_of_one_length left right }
{
    match (left, right) {
        (Some(left), Some(right)) => left == right,
        _ => true,
    }
}

/// Whether a number is that of a process.
pub fn is_process(procs: u8, number: i64) -> bool
    ensures { result ≡ is_process procs number }
{
    number >= 0 && number < i64::from(procs)
}

/// Whether the numbers of a subset fit 32 bits.
pub fn picked_fits_32(subset: &Picked) -> bool
    ensures { result ≡ picked_fits_32 subset.now }
{
    match subset {
        Picked::Full | Picked::Empty => true,
        Picked::Strided(blocks, start, end, stride) => {
            fits_32(*blocks) && fits_32(*start) && fits_32(*end) && fits_32(*stride)
        }
        Picked::Ranges(pairs) => pairs_fit_32(pairs.as_slice()),
    }
}

fn pairs_fit_32(pairs: &[(i64, i64)]) -> bool
    ensures { result ≡ list_all pair_fits_32 pairs.now }
{
    pairs.iter().all(|pair| pair_fits_32(pair))
}

fn pair_fits_32(pair: &(i64, i64)) -> bool
    ensures { result ≡ pair_fits_32 pair.now }
{
    fits_32(pair.0) && fits_32(pair.1)
}

/// Whether a number fits 32 bits.
pub fn fits_32(number: i64) -> bool
    ensures { result ≡ fits_32 number }
{
    is_between(0, u32::MAX, number)
}
