ghost use Rattle.std.specs.Prelude.{◌≡◌, [], ◌∷◌, ◌++◌, OnOk, codes};
ghost use Rattle.std.specs.Fmt.{signed_decimal};
ghost use Rattle.fx_script.specs.Canonical.{line_of_words};
ghost use Rattle.fx_script.specs.Exprs.{expr_words};
ghost use Rattle.fx_script.specs.Spelling.{picked_words};

use crate::expr::Expr;
use crate::job::Picked;
use crate::print_word::{put_expr, put_numbers, put_picked, put_three_numbers, put_words};
use fx_base::{Bytes, NoMemory};
use fx_text::{put_number, put_word};

/// Writes a line of one word.
pub fn put_bare(out: &mut Bytes, first: &[u8]) -> Result<(), NoMemory>
    ensures { OnOk result (out.new ≡ out.old ++ (line_of_words (first.now ∷ []) ++ 10 ∷ [])) }
{
    out.append(first)?;
    out.push(b'\n')
}

/// Writes a line of a word and a name.
pub fn put_named(out: &mut Bytes, first: &[u8], name: &[u8]) -> Result<(), NoMemory>
    ensures { OnOk result (out.new ≡ out.old ++ (line_of_words (first.now ∷ name.now ∷ []) ++ 10 ∷ [])) }
{
    out.append(first)?;
    put_word(out, name)?;
    out.push(b'\n')
}

/// Writes a line of a word and two names.
pub fn put_two_named(
    out: &mut Bytes,
    first: &[u8],
    one: &[u8],
    other: &[u8],
) -> Result<(), NoMemory>
    ensures { OnOk result (out.new ≡ out.old ++ (line_of_words (first.now ∷ one.now ∷ other.now ∷ []) ++ 10 ∷ [])) }
{
    out.append(first)?;
    put_words(out, one, other)?;
    out.push(b'\n')
}

/// Writes a line of a word and a number.
pub fn put_numbered(out: &mut Bytes, first: &[u8], number: i64) -> Result<(), NoMemory>
    ensures { OnOk result (out.new ≡ out.old ++ (line_of_words (first.now ∷ signed_decimal number ∷ []) ++ 10 ∷ [])) }
{
    out.append(first)?;
    put_number(out, number)?;
    out.push(b'\n')
}

/// Writes a line of a word and two numbers.
pub fn put_two_numbered(out: &mut Bytes, first: &[u8], one: i64, other: i64) -> Result<(), NoMemory>
    ensures { OnOk result (out.new ≡ out.old ++ (line_of_words (first.now ∷ signed_decimal one ∷ signed_decimal other ∷ []) ++ 10 ∷ [])) }
{
    out.append(first)?;
    put_numbers(out, one, other)?;
    out.push(b'\n')
}

/// Writes a line of a word, a name and a number.
pub fn put_sized(out: &mut Bytes, first: &[u8], name: &[u8], number: i64) -> Result<(), NoMemory>
    ensures { OnOk result (out.new ≡ out.old ++ (line_of_words (first.now ∷ name.now ∷ signed_decimal number ∷ []) ++ 10 ∷ [])) }
{
    out.append(first)?;
    put_word(out, name)?;
    put_number(out, number)?;
    out.push(b'\n')
}

/// Writes a line of a word, two names and a number.
pub fn put_two_sized(
    out: &mut Bytes,
    first: &[u8],
    one: &[u8],
    other: &[u8],
    number: i64,
) -> Result<(), NoMemory>
    ensures { OnOk result (out.new ≡ out.old ++ (line_of_words (first.now ∷ one.now ∷ other.now ∷ signed_decimal number ∷ []) ++ 10 ∷ [])) }
{
    out.append(first)?;
    put_words(out, one, other)?;
    put_number(out, number)?;
    out.push(b'\n')
}

/// Writes a line of a word, a name and an expression.
pub fn put_computed(
    out: &mut Bytes,
    first: &[u8],
    name: &[u8],
    value: &Expr,
) -> Result<(), NoMemory>
    ensures { OnOk result (out.new ≡ out.old ++ (line_of_words (first.now ∷ name.now ∷ expr_words value.now) ++ 10 ∷ [])) }
{
    out.append(first)?;
    put_word(out, name)?;
    put_expr(out, value)?;
    out.push(b'\n')
}

/// Writes a line of a word and three numbers.
pub fn put_three_numbered(
    out: &mut Bytes,
    first: &[u8],
    one: i64,
    two: i64,
    three: i64,
) -> Result<(), NoMemory>
    ensures { OnOk result (out.new ≡ out.old ++ (line_of_words (first.now ∷ signed_decimal one ∷ signed_decimal two ∷ signed_decimal three ∷ []) ++ 10 ∷ [])) }
{
    out.append(first)?;
    put_three_numbers(out, one, two, three)?;
    out.push(b'\n')
}

/// Writes the line that attaches an array to a group.
pub fn put_member(out: &mut Bytes, group: i64, member: i64, array: &[u8]) -> Result<(), NoMemory>
    ensures { OnOk result (out.new ≡ out.old ++ (line_of_words (codes "member" ∷ signed_decimal group ∷ signed_decimal member ∷ array.now ∷ []) ++ 10 ∷ [])) }
{
    out.append(b"member")?;
    put_numbers(out, group, member)?;
    put_word(out, array)?;
    out.push(b'\n')
}

/// Writes the line that stores elements of a member.
pub fn put_store(out: &mut Bytes, group: i64, member: i64, subset: &Picked) -> Result<(), NoMemory>
    ensures { OnOk result (out.new ≡ out.old ++ (line_of_words (codes "store" ∷ signed_decimal group ∷ signed_decimal member ∷ picked_words subset.now) ++ 10 ∷ [])) }
{
    out.append(b"store")?;
    put_numbers(out, group, member)?;
    put_picked(out, subset)?;
    out.push(b'\n')
}

/// Writes the line that restores a member.
pub fn put_restore(out: &mut Bytes, group: i64, member: i64, stamp: &Expr) -> Result<(), NoMemory>
    ensures { OnOk result (out.new ≡ out.old ++ (line_of_words (codes "restore" ∷ signed_decimal group ∷ signed_decimal member ∷ expr_words stamp.now) ++ 10 ∷ [])) }
{
    out.append(b"restore")?;
    put_numbers(out, group, member)?;
    put_expr(out, stamp)?;
    out.push(b'\n')
}

/// Writes the line that deletes a snapshot.
pub fn put_drop(out: &mut Bytes, group: i64, stamp: &Expr) -> Result<(), NoMemory>
    ensures { OnOk result (out.new ≡ out.old ++ (line_of_words (codes "drop" ∷ signed_decimal group ∷ expr_words stamp.now) ++ 10 ∷ [])) }
{
    out.append(b"drop")?;
    put_number(out, group)?;
    put_expr(out, stamp)?;
    out.push(b'\n')
}
