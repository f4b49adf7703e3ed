ghost use Rattle.std.specs.Prelude.{◌≡◌, ◌++◌, ◌-◌, ◌^◌, min, IfOk, OnOk, OnErr, true};
ghost use Rattle.std.specs.Fmt.{signed_decimal};
ghost use Rattle.std.specs.List.{list_all};
ghost use Rattle.std.specs.Str.Parse.{digits_value};
ghost use Rattle.fx_text.specs.Numbers.{is_digit, is_natural, natural_in, negative_in, number_in};

use fx_base::{Bytes, NoMemory};
use itoa::Buffer;

/// Why a word is no number.
#[derive(Clone, Copy, Debug, PartialEq, Eq)]
pub enum NumberFault {
    /// It hasn't the form of a number.
    NotANumber,
    /// It has the form, but its number is below -9,223,372,036,854,775,808 or above 9,223,372,036,854,775,807.
    TooWide,
}

/// The number that a word spells.
///
/// A number has one form: `0`, or digits that don't begin with 0, or `-` and the latter.
pub fn read_number(word: &[u8]) -> Result<i64, NumberFault>
    ensures answer { result ≡ number_in word.now }
    ensures spelled { IfOk result (λ number. word.now ≡ signed_decimal number) }
{
    read(word)
}

fn read(word: &[u8]) -> Result<i64, NumberFault>
    ensures { result ≡ number_in word.now }
{
    match word {
        [b'-', digits @ ..] => read_negative(digits),
        digits => read_natural(digits),
    }
}

fn read_natural(digits: &[u8]) -> Result<i64, NumberFault>
    ensures { result ≡ natural_in digits.now }
{
    if !is_natural(digits) {
        return Err(NumberFault::NotANumber);
    }
    i64::try_from(value(digits)).map_err(|_| NumberFault::TooWide)
}

// The number of these digits behind a `-`.
fn read_negative(digits: &[u8]) -> Result<i64, NumberFault>
    ensures { result ≡ negative_in digits.now }
{
    if !is_natural(digits) || digits[0] == b'0' {
        return Err(NumberFault::NotANumber);
    }
    match value(digits) {
        LOWEST => Ok(i64::MIN),
        value if value < LOWEST => Ok(-(value as i64)),
        _ => Err(NumberFault::TooWide),
    }
}

const LOWEST: u64 = 9_223_372_036_854_775_808;

fn is_digit(byte: u8) -> bool
    ensures { result ≡ is_digit byte }
{
    byte >= b'0' && byte <= b'9'
}

fn is_natural(digits: &[u8]) -> bool
    ensures { result ≡ is_natural digits.now }
{
    if digits.is_empty() || !are_digits(digits) {
        return false;
    }
    digits.len() == 1 || digits[0] != b'0'
}

fn are_digits(bytes: &[u8]) -> bool
    ensures { result ≡ list_all is_digit bytes.now }
{
    bytes.iter().all(|byte| is_digit(*byte))
}

// The value of digits, or the largest number of 64 bits where it is larger.
fn value(digits: &[u8]) -> u64
    requires { list_all is_digit digits.now ≡ true }
    ensures { result ≡ min (digits_value 10 digits.now) (2 ^ 64 - 1) }
{
    let mut value = 0u64;
    for digit in digits {
        value = value
            .saturating_mul(10)
            .saturating_add(u64::from(*digit - b'0'));
    }
    value
}

/// Writes a number in its one form at the end of `out`, which stays as it was where memory runs out.
pub fn push_number(out: &mut Bytes, value: i64) -> Result<(), NoMemory>
    ensures ok { OnOk result (out.new ≡ out.old ++ signed_decimal value) }
    ensures no_memory { OnErr result (out.new ≡ out.old) }
{
    match u8::try_from(value) {
        Ok(digit) if digit < 10 => out.push(b'0' + digit),
        _ => out.append(Buffer::new().format(value).as_bytes()),
    }
}
