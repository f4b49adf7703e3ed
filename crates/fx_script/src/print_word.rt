ghost use Rattle.std.specs.Prelude.{◌≡◌, [], ◌∷◌, ◌++◌, OnOk};
ghost use Rattle.std.specs.Fmt.{signed_decimal};
ghost use Rattle.fx_text.specs.Written.{spaced};
ghost use Rattle.fx_script.specs.Exprs.{expr_words};
ghost use Rattle.fx_script.specs.Spelling.{op_text, pairs_words, picked_words, role_text, test_text};

use crate::expr::Expr;
use crate::job::{Picked, Test};
use fx_base::{Bytes, NoMemory, Op, Role};
use fx_text::{put_number, put_word};

/// Writes two words, each behind a space.
pub fn put_words(out: &mut Bytes, one: &[u8], other: &[u8]) -> Result<(), NoMemory>
    ensures { OnOk result (out.new ≡ out.old ++ spaced (one.now ∷ other.now ∷ [])) }
{
    put_word(out, one)?;
    put_word(out, other)
}

/// Writes two numbers, each behind a space.
pub fn put_numbers(out: &mut Bytes, one: i64, other: i64) -> Result<(), NoMemory>
    ensures { OnOk result (out.new ≡ out.old ++ spaced (signed_decimal one ∷ signed_decimal other ∷ [])) }
{
    put_number(out, one)?;
    put_number(out, other)
}

/// Writes three numbers, each behind a space.
pub fn put_three_numbers(out: &mut Bytes, one: i64, two: i64, three: i64) -> Result<(), NoMemory>
    ensures { OnOk result (out.new ≡ out.old ++ spaced (signed_decimal one ∷ signed_decimal two ∷ signed_decimal three ∷ [])) }
{
    put_number(out, one)?;
    put_numbers(out, two, three)
}

/// Writes the words of an expression, each behind a space.
pub fn put_expr(out: &mut Bytes, expr: &Expr) -> Result<(), NoMemory>
    ensures { OnOk result (out.new ≡ out.old ++ spaced (expr_words expr.now)) }
{
    match expr {
        Expr::Number(number) => put_number(out, *number),
        Expr::Name(name) => put_word(out, name.as_slice()),
        Expr::Index => put_word(out, b"index"),
        Expr::Rank => put_word(out, b"rank"),
        Expr::Size => put_word(out, b"size"),
        Expr::Latest(group) => {
            put_word(out, b"latest")?;
            put_number(out, *group)
        }
        Expr::Add(left, right) => {
            put_word(out, b"+")?;
            put_expr(out, left.get())?;
            put_expr(out, right.get())
        }
        Expr::Sub(left, right) => {
            put_word(out, b"-")?;
            put_expr(out, left.get())?;
            put_expr(out, right.get())
        }
        Expr::Mul(left, right) => {
            put_word(out, b"*")?;
            put_expr(out, left.get())?;
            put_expr(out, right.get())
        }
    }
}

/// Writes the words of two expressions, each behind a space.
pub fn put_exprs(out: &mut Bytes, left: &Expr, right: &Expr) -> Result<(), NoMemory>
    ensures { OnOk result (out.new ≡ out.old ++ spaced (expr_words left.now ++ expr_words right.now)) }
{
    put_expr(out, left)?;
    put_expr(out, right)
}

/// Writes the words of an expression and a number, each behind a space.
pub fn put_bounds(out: &mut Bytes, first: &Expr, last: i64) -> Result<(), NoMemory>
    ensures { OnOk result (out.new ≡ out.old ++ spaced (expr_words first.now ++ signed_decimal last ∷ [])) }
{
    put_expr(out, first)?;
    put_number(out, last)
}

/// Writes which elements are stored, each word behind a space.
pub fn put_picked(out: &mut Bytes, picked: &Picked) -> Result<(), NoMemory>
    ensures { OnOk result (out.new ≡ out.old ++ spaced (picked_words picked.now)) }
{
    match picked {
        Picked::Full => put_word(out, b"full"),
        Picked::Empty => put_word(out, b"empty"),
        Picked::Strided(blocks, start, end, stride) => {
            put_word(out, b"strided")?;
            put_numbers(out, *blocks, *start)?;
            put_numbers(out, *end, *stride)
        }
        Picked::Ranges(pairs) => {
            put_word(out, b"ranges")?;
            put_pairs(out, pairs.as_slice())
        }
    }
}

fn put_pairs(out: &mut Bytes, pairs: &[(i64, i64)]) -> Result<(), NoMemory>
    ensures { OnOk result (out.new ≡ out.old ++ spaced (pairs_words pairs.now)) }
{
    for pair in pairs {
        put_numbers(out, pair.0, pair.1)?;
    }
    Ok(())
}

/// The word for a role.
pub fn role_text(role: Role) -> &'static [u8]
    ensures { result.now ≡ role_text role }
{
    match role {
        Role::Initial => b"initial",
        Role::Survivor => b"survivor",
        Role::Recovered => b"recovered",
    }
}

/// The word for how two sides are compared.
pub fn test_text(test: Test) -> &'static [u8]
    ensures { result.now ≡ test_text test }
{
    match test {
        Test::Lt => b"lt",
        Test::Le => b"le",
        Test::Eq => b"eq",
    }
}

/// The word for a reduction.
pub fn op_text(op: Op) -> &'static [u8]
    ensures { result.now ≡ op_text op }
{
    match op {
        Op::Sum => b"sum",
        Op::Min => b"min",
        Op::Max => b"max",
    }
}
