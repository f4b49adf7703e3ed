ghost use Rattle.std.specs.Prelude.{◌≡◌, ◌<◌, ◌∷◌, ◌++◌, [], false, map, OnOk};
ghost use Rattle.std.specs.FinMap.{entries};
ghost use Rattle.std.specs.Fmt.{digit_glyph, signed_decimal};
ghost use Rattle.fx_text.specs.Written.{Keeps, spaced};
ghost use Rattle.fx_lines.specs.Fields.{a_seat, a_stamp};
ghost use Rattle.fx_lines.specs.Hex.{hex_of};
ghost use Rattle.fx_lines.specs.Lists.{a_share, an_element};

use crate::field::put_seat;
use fx_base::{Bytes, Elems, Ident, NoMemory, Proc, Seats, Sparse, Stamp, StampShares, Stamps};
use fx_link::Values;
use fx_text::{push_number, put_number, put_numbers, put_word};

/// What ends a row, for printing: nothing, or the word `:` and a word for each entry of a list.
#[derive(Clone, Copy)]
pub enum Tail<'a> {
    Nothing,
    Seats(&'a Seats),
    Numbers(&'a Elems),
    Values(&'a Values),
    Stamps(&'a Stamps),
    Elements(&'a Sparse),
    Shares(&'a StampShares),
}

impl Tail<'_> {
    ghost use Rattle.fx_trace.specs.Printed.{tail_words};

    /// Prints the words, each behind a space.
    pub fn put(&self, out: &mut Bytes) -> Result<(), NoMemory>
        ensures ok { OnOk result (out.new ≡ out.old ++ spaced (tail_words self.now)) }
        ensures keeps { Keeps out.old out.new }
    {
        if let Tail::Nothing = self {
            return Ok(());
        }
        put_word(out, b":")?;
        match self {
            Tail::Nothing => Ok(()),
            Tail::Seats(seats) => put_seats(out, seats.as_slice()),
            Tail::Numbers(numbers) => put_numbers(out, numbers.as_slice()),
            Tail::Values(values) => put_numbers(out, values.as_slice()),
            Tail::Stamps(stamps) => put_stamps(out, stamps.as_slice()),
            Tail::Elements(elements) => put_elements(out, elements),
            Tail::Shares(shares) => put_shares(out, shares),
        }
    }
}

fn put_seats(out: &mut Bytes, seats: &[(Ident, Proc)]) -> Result<(), NoMemory>
    ensures ok { OnOk result (out.new ≡ out.old ++ spaced (map a_seat.spell seats.now)) }
    ensures keeps { Keeps out.old out.new }
{
    for seat in seats {
        put_seat(out, *seat)?;
    }
    Ok(())
}

fn put_stamps(out: &mut Bytes, stamps: &[Stamp]) -> Result<(), NoMemory>
    ensures ok { OnOk result (out.new ≡ out.old ++ spaced (map a_stamp.spell stamps.now)) }
    ensures keeps { Keeps out.old out.new }
{
    for stamp in stamps {
        put_number(out, stamp.0)?;
    }
    Ok(())
}

fn put_elements(out: &mut Bytes, elements: &Sparse) -> Result<(), NoMemory>
    ensures ok { OnOk result (out.new ≡ out.old ++ spaced (map an_element.spell (entries elements.now))) }
    ensures keeps { Keeps out.old out.new }
{
    for k in 0..elements.len() {
        match elements.nth(k) {
            Some((index, element)) => put_element(out, index, element)?,
            None => {}
        }
    }
    Ok(())
}

fn put_element(out: &mut Bytes, index: u32, element: &i64) -> Result<(), NoMemory>
    ensures ok { OnOk result (out.new ≡ out.old ++ 32 ∷ an_element.spell (index, element.now)) }
    ensures keeps { Keeps out.old out.new }
{
    put_number(out, i64::from(index))?;
    put_value(out, *element)
}

// Writes a number behind `=`.
fn put_value(out: &mut Bytes, value: i64) -> Result<(), NoMemory>
    ensures ok { OnOk result (out.new ≡ out.old ++ 61 ∷ signed_decimal value) }
    ensures keeps { Keeps out.old out.new }
{
    out.push(b'=')?;
    push_number(out, value)
}

fn put_shares(out: &mut Bytes, shares: &StampShares) -> Result<(), NoMemory>
    ensures ok { OnOk result (out.new ≡ out.old ++ spaced (map a_share.spell (entries shares.now))) }
    ensures keeps { Keeps out.old out.new }
{
    for k in 0..shares.len() {
        match shares.nth(k) {
            Some((stamp, bytes)) => put_share(out, stamp, bytes)?,
            None => {}
        }
    }
    Ok(())
}

fn put_share(out: &mut Bytes, stamp: Stamp, bytes: &Bytes) -> Result<(), NoMemory>
    ensures ok { OnOk result (out.new ≡ out.old ++ 32 ∷ a_share.spell (stamp, bytes.now)) }
    ensures keeps { Keeps out.old out.new }
{
    put_number(out, stamp.0)?;
    out.push(b'=')?;
    push_hex(out, bytes.as_slice())
}

// Two digits for each byte, the higher one first.
fn push_hex(out: &mut Bytes, bytes: &[u8]) -> Result<(), NoMemory>
    ensures ok { OnOk result (out.new ≡ out.old ++ hex_of bytes.now) }
    ensures keeps { Keeps out.old out.new }
{
    let mut rest = bytes;
    while let [a, b, c, d, more @ ..] = rest {
        push_four(out, *a, *b, *c, *d)?;
        rest = more;
    }
    push_bytes(out, rest)
}

// The digits of bytes, byte by byte.
fn push_bytes(out: &mut Bytes, bytes: &[u8]) -> Result<(), NoMemory>
    ensures ok { OnOk result (out.new ≡ out.old ++ hex_of bytes.now) }
    ensures keeps { Keeps out.old out.new }
{
    for byte in bytes {
        out.append(&[hex_digit(*byte / 16), hex_digit(*byte % 16)])?;
    }
    Ok(())
}

// The digits of four bytes, appended at once.
fn push_four(out: &mut Bytes, a: u8, b: u8, c: u8, d: u8) -> Result<(), NoMemory>
    ensures ok { OnOk result (out.new ≡ out.old ++ hex_of (a ∷ b ∷ c ∷ d ∷ [])) }
    ensures keeps { Keeps out.old out.new }
{
    out.append(&[
        hex_digit(a / 16),
        hex_digit(a % 16),
        hex_digit(b / 16),
        hex_digit(b % 16),
        hex_digit(c / 16),
        hex_digit(c % 16),
        hex_digit(d / 16),
        hex_digit(d % 16),
    ])
}

// The digit of a number below 16.
fn hex_digit(digit: u8) -> u8
    requires { digit < 16 }
    ensures { result ≡ digit_glyph false digit }
{
    if digit < 10 {
        b'0' + digit
    } else {
        b'a' + (digit - 10)
    }
}
