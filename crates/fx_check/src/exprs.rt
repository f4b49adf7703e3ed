ghost use Rattle.std.specs.Prelude.{◌≡◌};
ghost use Rattle.fx_check.specs.Facts.{facts_of, has_group};
ghost use Rattle.fx_check.specs.Rules.{expr_lengths_fit, expr_groups_fit, expr_known, expr_uniform};

use crate::lookup::{array_in, is_array, is_value};
use crate::range::are_of_one_length;
use crate::tables::{IndexedJob, is_one_of_eight};
use fx_script::Expr;

/// Whether a statement of the body creates a group.
pub fn has_group(job: &IndexedJob, group: i64) -> bool
    ensures { result ≡ has_group (facts_of job.now) group }
{
    job.creation_of(group).is_some()
}

/// Whether each name of an expression is an array or a counter, and each group is created in the body.
pub fn expr_known(job: &IndexedJob, value: &Expr) -> bool
    ensures { result ≡ expr_known (facts_of job.now) value.now }
{
    match value {
        Expr::Name(name) => is_value(job, name.as_slice()),
        Expr::Latest(group) => has_group(job, *group),
        Expr::Add(left, right) | Expr::Sub(left, right) | Expr::Mul(left, right) => {
            expr_known(job, left.get()) && expr_known(job, right.get())
        }
        _ => true,
    }
}

/// Whether each group of an expression is one of the eight.
pub fn expr_groups_fit(value: &Expr) -> bool
    ensures { result ≡ expr_groups_fit value.now }
{
    match value {
        Expr::Latest(group) => is_one_of_eight(*group),
        Expr::Add(left, right) | Expr::Sub(left, right) | Expr::Mul(left, right) => {
            expr_groups_fit(left.get()) && expr_groups_fit(right.get())
        }
        _ => true,
    }
}

/// Whether each array of an expression has this length, where it is declared.
pub fn expr_lengths_fit(job: &IndexedJob, len: Option<i64>, value: &Expr) -> bool
    ensures { result ≡ expr_lengths_fit (facts_of job.now) len value.now }
{
    match value {
        Expr::Name(name) => are_of_one_length(len, array_in(job.names(), name.as_slice())),
        Expr::Add(left, right) | Expr::Sub(left, right) | Expr::Mul(left, right) => {
            expr_lengths_fit(job, len, left.get()) && expr_lengths_fit(job, len, right.get())
        }
        _ => true,
    }
}

/// Whether an expression has one value on all ranks.
pub fn expr_uniform(job: &IndexedJob, value: &Expr) -> bool
    ensures { result ≡ expr_uniform (facts_of job.now) value.now }
{
    match value {
        Expr::Name(name) => !is_array(job.names(), name.as_slice()),
        Expr::Index | Expr::Rank => false,
        Expr::Add(left, right) | Expr::Sub(left, right) | Expr::Mul(left, right) => {
            expr_uniform(job, left.get()) && expr_uniform(job, right.get())
        }
        _ => true,
    }
}
