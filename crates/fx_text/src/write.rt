ghost use Rattle.std.specs.Prelude.{◌≡◌, ◌<◌, ◌≤◌, ◌∷◌, ◌++◌, [], length, map, take, IfOk, IfSome, OnOk};
ghost use Rattle.std.specs.Fmt.{signed_decimal};
ghost use Rattle.fx_text.specs.Written.{Keeps, spaced};

use crate::number::push_number;
use fx_base::{Bytes, NoMemory};

/// Writes a word behind a space. Without memory all that was written before stays in front.
pub fn put_word(out: &mut Bytes, word: &[u8]) -> Result<(), NoMemory>
    ensures ok { OnOk result (out.new ≡ out.old ++ 32 ∷ word.now) }
    ensures keeps { Keeps out.old out.new }
{
    out.push(b' ')?;
    out.append(word)
}

/// Writes a number in its one form behind a space. Without memory all that was written before stays in front.
pub fn put_number(out: &mut Bytes, number: i64) -> Result<(), NoMemory>
    ensures ok { OnOk result (out.new ≡ out.old ++ 32 ∷ signed_decimal number) }
    ensures keeps { Keeps out.old out.new }
{
    if let Some(digit) = one_digit(number) {
        return out.append(&[b' ', digit]);
    }
    if let Some((tens, ones)) = two_digits(number) {
        return out.append(&[b' ', tens, ones]);
    }
    out.push(b' ')?;
    push_number(out, number)
}

/// Writes numbers, each in its one form behind a space. Without memory all that was written before stays in front.
pub fn put_numbers(out: &mut Bytes, numbers: &[i64]) -> Result<(), NoMemory>
    ensures ok { OnOk result (out.new ≡ out.old ++ spaced (map signed_decimal numbers.now)) }
    ensures keeps { Keeps out.old out.new }
{
    let mut text = [b' '; ROOM];
    let mut at = 0;
    while at < numbers.len() {
        at += put_some(out, &numbers[at..], &mut text)?;
    }
    Ok(())
}

// So many bytes of short numbers are appended at once.
const ROOM: usize = 64;

/// Writes the short numbers that stand in front, or else the first number, and answers how many numbers these are.
fn put_some(out: &mut Bytes, numbers: &[i64], text: &mut [u8; ROOM]) -> Result<usize, NoMemory>
    requires { 0 < length numbers.now }
    ensures within { IfOk result (λ count. (0 < count) × (count ≤ length numbers.now)) }
    ensures ok { IfOk result (λ count. out.new ≡ out.old ++ spaced (map signed_decimal (take count numbers.now))) }
    ensures keeps { Keeps out.old out.new }
{
    let (count, bytes) = write_short(text, numbers);
    if count == 0 {
        put_number(out, numbers[0])?;
        return Ok(1);
    }
    out.append(&text[..bytes])?;
    Ok(count)
}

/// Writes the numbers of one or two digits that stand in front, as many as there is room for, at the front of a text,
/// each behind a space. Answers how many numbers and how many bytes these are.
fn write_short(text: &mut [u8; ROOM], numbers: &[i64]) -> (usize, usize)
    ensures within { (result.0 ≤ length numbers.now) × (result.1 ≤ 64) }
    ensures written { take result.1 text.new ≡ spaced (map signed_decimal (take result.0 numbers.now)) }
{
    let mut count = 0;
    let mut bytes = 0;
    while count < numbers.len() && bytes + 3 <= ROOM {
        let number = numbers[count];
        text[bytes] = b' ';
        if let Some(digit) = one_digit(number) {
            text[bytes + 1] = digit;
            bytes += 2;
        } else if let Some((tens, ones)) = two_digits(number) {
            text[bytes + 1] = tens;
            text[bytes + 2] = ones;
            bytes += 3;
        } else {
            return (count, bytes);
        }
        count += 1;
    }
    (count, bytes)
}

/// The digit of a number that has but one.
fn one_digit(number: i64) -> Option<u8>
    ensures { IfSome result (λ digit. digit ∷ [] ≡ signed_decimal number) }
{
    if number < 0 || number > 9 {
        return None;
    }
    Some(b'0' + number as u8)
}

/// The digits of a number that has two.
fn two_digits(number: i64) -> Option<(u8, u8)>
    ensures { IfSome result (λ digits. digits.0 ∷ digits.1 ∷ [] ≡ signed_decimal number) }
{
    if number < 10 || number > 99 {
        return None;
    }
    let number = number as u8;
    Some((b'0' + number / 10, b'0' + number % 10))
}

/// Ends a line.
pub fn end_line(out: &mut Bytes) -> Result<(), NoMemory>
    ensures ok { OnOk result (out.new ≡ out.old ++ 10 ∷ []) }
    ensures keeps { Keeps out.old out.new }
{
    out.push(b'\n')
}
