ghost use Rattle.std.specs.Prelude.{◌≡◌, IfOk, get_or, negsuc};
ghost use Rattle.fx_script.specs.declared.expr.Expr.{Expr};
ghost use Rattle.fx_check.specs.Facts.{Facts};
ghost use Rattle.fx_check.specs.Rules.{count_of};
ghost use Rattle.fx_walk.specs.Values.{sight, value_of};
ghost use Rattle.fx_value.specs.Terms.{named, term_of, term_value};

use crate::slots::{array_slot, counter_slot, is_array};
use crate::values::Values;
use fx_base::NoMemory;
use fx_script::{Decl, Expr};
use fx_walk::View;
use sqlite_items::Boxed;
use std::alloc::Global;
use std::marker::Model;

/// An expression whose names are slots.
#[derive(Debug, Drop)]
pub enum Term {
    /// A number.
    Number(i64),
    /// The value of the counter in this slot.
    Counter(usize),
    /// The element of the array in this slot at the index.
    Element(usize),
    /// The index of the element that is computed.
    Index,
    /// The place of the rank.
    Rank,
    /// How many places the communicator has.
    Size,
    /// The newest stamp that is retained of a group.
    Latest(usize),
    /// A sum, a difference and a product of two terms. They wrap at 64 bits.
    Add(Boxed<Term>, Boxed<Term>),
    Sub(Boxed<Term>, Boxed<Term>),
    Mul(Boxed<Term>, Boxed<Term>),
}

/// An expression of a job, made ready once to be computed often. It is seen as its term.
#[derive(Debug, Drop)]
pub struct Formula {
    term: Term,
}

impl Model for Formula {
    ghost use Rattle.fx_value.specs.contracts.formula.Term as the_term;
    ghost use Rattle.fx_value.specs.declared.formula.Term.{Term};

    ghost Value = { Term };

    ghost coded = { the_term.the_row.coded };

    ghost view = { λ formula. formula.term };
}

impl Formula {
    /// The formula of an expression, where these are the names that the job declares.
    pub fn new(alloc: Global, names: &[Decl], expr: &Expr) -> Result<Formula, NoMemory>
        ensures { IfOk result (λ formula. formula ≡ term_of names.now expr.now) }
    {
        Ok(Formula {
            term: term_of(alloc, names, expr)?,
        })
    }

    /// The value, as of a statement that isn't at an index. It takes no memory.
    pub fn value(&self, view: &View, values: &Values) -> i64
        ensures same { result ≡ term_value self.now (sight view.now values.now) }
        ensures meant { (f : Facts) (expr : Expr) → self.now ≡ term_of f.names expr → result ≡ value_of f expr (sight view.now values.now) }
    {
        value_of(&self.term, view, values)
    }

    /// The term that is computed.
    pub(crate) fn term(&self) -> &Term
        ensures { result.now ≡ self.now }
    {
        &self.term
    }
}

fn term_of(alloc: Global, names: &[Decl], expr: &Expr) -> Result<Term, NoMemory>
    ensures { IfOk result (λ term. term ≡ term_of names.now expr.now) }
{
    match expr {
        Expr::Number(number) => Ok(Term::Number(*number)),
        Expr::Name(name) => Ok(named(names, name.as_slice())),
        Expr::Index => Ok(Term::Index),
        Expr::Rank => Ok(Term::Rank),
        Expr::Size => Ok(Term::Size),
        Expr::Latest(group) => Ok(Term::Latest(count_of(*group))),
        Expr::Add(left, right) => {
            let left = Boxed::new(alloc, term_of(alloc, names, left.get())?)?;
            let right = Boxed::new(alloc, term_of(alloc, names, right.get())?)?;
            Ok(Term::Add(left, right))
        }
        Expr::Sub(left, right) => {
            let left = Boxed::new(alloc, term_of(alloc, names, left.get())?)?;
            let right = Boxed::new(alloc, term_of(alloc, names, right.get())?)?;
            Ok(Term::Sub(left, right))
        }
        Expr::Mul(left, right) => {
            let left = Boxed::new(alloc, term_of(alloc, names, left.get())?)?;
            let right = Boxed::new(alloc, term_of(alloc, names, right.get())?)?;
            Ok(Term::Mul(left, right))
        }
    }
}

fn named(names: &[Decl], name: &[u8]) -> Term
    ensures { result ≡ named names.now name.now }
{
    if is_array(names, name) {
        Term::Element(array_slot(names, name))
    } else {
        Term::Counter(counter_slot(names, name))
    }
}

/// A number, or 0 in place of a negative one.
pub(crate) fn count_of(number: i64) -> usize
    ensures { result ≡ count_of number }
{
    number.max(0) as usize
}

/// The newest stamp of a group, as the view has it.
pub(crate) fn newest(view: &View, group: usize) -> i64
    ensures { result ≡ get_or view.now.latest group (negsuc 0) }
{
    match view.latest.get(group) {
        Some(stamp) => *stamp,
        None => -1,
    }
}

fn value_of(term: &Term, view: &View, values: &Values) -> i64
    ensures { result ≡ term_value term.now (sight view.now values.now) }
{
    match term {
        Term::Number(number) => *number,
        Term::Counter(slot) => values.counter(*slot),
        Term::Element(slot) => values.array(*slot).first().copied().unwrap_or(0),
        Term::Index => 0,
        Term::Rank => i64::from(view.rank),
        Term::Size => i64::from(view.size),
        Term::Latest(group) => newest(view, *group),
        Term::Add(left, right) => {
            let left = value_of(left.get(), view, values);
            left.wrapping_add(value_of(right.get(), view, values))
        }
        Term::Sub(left, right) => {
            let left = value_of(left.get(), view, values);
            left.wrapping_sub(value_of(right.get(), view, values))
        }
        Term::Mul(left, right) => {
            let left = value_of(left.get(), view, values);
            left.wrapping_mul(value_of(right.get(), view, values))
        }
    }
}
