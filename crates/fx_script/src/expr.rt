ghost use Rattle.std.specs.Prelude.{◌≡◌, IfOk};
ghost use Rattle.fx_script.specs.Exprs.{joined, settled};

use crate::stack::Stack;
use fx_base::{Bytes, NoMemory};
use sqlite_items::Boxed;
use std::alloc::Global;

/// An expression, written in prefix form.
#[derive(Debug, Drop)]
pub enum Expr {
    /// A number.
    Number(i64),
    /// The value of a counter, or the element of an array at the index.
    Name(Bytes),
    /// The index of the element that is computed.
    Index,
    /// The place of the rank.
    Rank,
    /// How many places the communicator has.
    Size,
    /// The newest stamp that is retained of a group.
    Latest(i64),
    /// A sum, a difference and a product of two expressions. They wrap at 64 bits.
    Add(Boxed<Expr>, Boxed<Expr>),
    Sub(Boxed<Expr>, Boxed<Expr>),
    Mul(Boxed<Expr>, Boxed<Expr>),
}

/// A sign in front of two expressions.
#[derive(Clone, Copy, Debug, PartialEq, Eq)]
pub enum Sign {
    Plus,
    Minus,
    Times,
}

/// What one word of an expression is.
#[derive(Debug, Drop)]
pub enum Token {
    Sign(Sign),
    /// A group is due behind it.
    Latest,
    Leaf(Expr),
}

/// A sign whose expressions aren't complete yet.
#[derive(Debug, Drop)]
pub enum Pending {
    /// The first expression is due.
    First(Sign),
    /// The second is due.
    Second(Sign, Expr),
}

/// What an expression is behind a word.
#[derive(Debug, Drop)]
pub enum Step {
    Whole(Expr),
    /// More words are due, and whether the next is a group.
    More(bool),
}

/// Puts an expression where it is due, and joins what is complete then.
pub fn settle(alloc: Global, expr: Expr, pending: &mut Stack<Pending>) -> Result<Step, NoMemory>
    ensures { IfOk result (λ step. settled expr pending.old ≡ (step, pending.new)) }
{
    let mut whole = expr;
    while let Some(top) = pending.pop() {
        match top {
            Pending::First(sign) => {
                pending.push(Pending::Second(sign, whole))?;
                return Ok(Step::More(false));
            }
            Pending::Second(sign, left) => whole = join(alloc, sign, left, whole)?,
        }
    }
    Ok(Step::Whole(whole))
}

fn join(alloc: Global, sign: Sign, left: Expr, right: Expr) -> Result<Expr, NoMemory>
    ensures { IfOk result (λ expr. expr ≡ joined sign left right) }
{
    let left = Boxed::new(alloc, left)?;
    let right = Boxed::new(alloc, right)?;
    match sign {
        Sign::Plus => Ok(Expr::Add(left, right)),
        Sign::Minus => Ok(Expr::Sub(left, right)),
        Sign::Times => Ok(Expr::Mul(left, right)),
    }
}
