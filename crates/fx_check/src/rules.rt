ghost use Rattle.std.specs.Prelude.{◌≡◌, ◌&&◌};
ghost use Rattle.fx_script.specs.declared.job.Stmt.TheViews.{out-Stmt};
ghost use Rattle.fx_check.specs.Facts.{facts_of, has_member};
ghost use Rattle.fx_check.specs.Rules.{agrees_on_group, agrees_on_member, expr_groups_fit, expr_lengths_fit, has_room, is_in_range, is_known, is_placed, is_uniform};

use crate::exprs::{expr_groups_fit, expr_known, expr_lengths_fit, expr_uniform, has_group};
use crate::limits::{
    LAST_DEPTH, LAST_SHIFT, LAST_START, LAST_TURN, MOST_BLOCKS, MOST_CALLED, MOST_LOOPS,
};
use crate::lookup::{array_in, is_array, is_called, is_counter, is_value};
use crate::range::{are_of_one_length, is_between, is_index_if, picked_fits_32};
use crate::surroundings::Surroundings;
use crate::tables::{IndexedJob, is_one_of_eight};
use fx_script::{Expr, Stmt};

/// Whether a statement names only what is declared, each as the kind that is needed.
pub fn is_known(job: &IndexedJob, statement: &Stmt) -> bool
    ensures { result ≡ is_known (facts_of job.now) (out-Stmt statement.now) }
{
    let names = job.names();
    match statement {
        Stmt::Let { array, value, .. } => {
            is_array(names, array.as_slice()) && expr_known(job, value)
        }
        Stmt::Set { counter, value, .. } => {
            is_counter(names, counter.as_slice()) && expr_known(job, value)
        }
        Stmt::Print { name, .. } => is_value(job, name.as_slice()),
        Stmt::Register { name, .. } => is_called(name.as_slice(), job.callbacks()),
        Stmt::Branch { left, right, .. } => { expr_known(job, left) && expr_known(job, right) }
        Stmt::Loop { counter, first, .. } => {
            is_counter(names, counter.as_slice()) && expr_known(job, first)
        }
        Stmt::Reduce { counter, array, .. } | Stmt::Agree { counter, array, .. } => {
            is_counter(names, counter.as_slice()) && is_array(names, array.as_slice())
        }
        Stmt::Shift { source, target, .. } => {
            is_array(names, source.as_slice()) && is_array(names, target.as_slice())
        }
        Stmt::Group { group, .. }
        | Stmt::Commit { group, .. }
        | Stmt::CommitBarrier { group, .. } => has_group(job, *group),
        Stmt::Member { group, array, .. } => {
            has_group(job, *group) && is_array(names, array.as_slice())
        }
        Stmt::Store { group, member, .. } => {
            has_group(job, *group) && has_member(job, *group, *member)
        }
        Stmt::Restore {
            group,
            member,
            stamp,
            ..
        } => {
            has_group(job, *group) && has_member(job, *group, *member) && expr_known(job, stamp)
        }
        Stmt::Drop { group, stamp, .. } => { has_group(job, *group) && expr_known(job, stamp) }
        Stmt::RoleOnly { .. } | Stmt::Barrier { .. } => true,
    }
}

fn has_member(job: &IndexedJob, group: i64, member: i64) -> bool
    ensures { result ≡ has_member (facts_of job.now) group member }
{
    job.attachment_of(group, member).is_some()
}

/// Whether the numbers of a statement are within their limits, and the arrays that it puts together
/// of one length.
pub fn is_in_range(job: &IndexedJob, statement: &Stmt) -> bool
    ensures { result ≡ is_in_range (facts_of job.now) (out-Stmt statement.now) }
{
    let names = job.names();
    match statement {
        Stmt::Let { array, value, .. } => {
            is_value_in_range(job, array_in(names, array.as_slice()), value)
        }
        Stmt::Set { value, .. } => expr_groups_fit(value),
        Stmt::Branch { left, right, .. } => expr_groups_fit(left) && expr_groups_fit(right),
        Stmt::Loop { first, last, .. } => expr_groups_fit(first) && is_between(0, LAST_TURN, *last),
        Stmt::Agree { array, index, .. } => is_index_if(array_in(names, array.as_slice()), *index),
        Stmt::Shift {
            source,
            target,
            by,
            ..
        } => {
            is_between(1, LAST_SHIFT, *by)
                && are_of_one_length(
                    array_in(names, source.as_slice()),
                    array_in(names, target.as_slice()),
                )
        }
        Stmt::Group {
            group,
            start,
            depth,
            ..
        } => {
            is_one_of_eight(*group)
                && is_between(0, LAST_START, *start)
                && is_between(0, LAST_DEPTH, *depth)
        }
        Stmt::Member { group, member, .. } => is_one_of_eight(*group) && is_one_of_eight(*member),
        Stmt::Store {
            group,
            member,
            subset,
            ..
        } => is_one_of_eight(*group) && is_one_of_eight(*member) && picked_fits_32(subset),
        Stmt::Commit { group, .. } | Stmt::CommitBarrier { group, .. } => is_one_of_eight(*group),
        Stmt::Restore {
            group,
            member,
            stamp,
            ..
        } => is_one_of_eight(*group) && is_one_of_eight(*member) && expr_groups_fit(stamp),
        Stmt::Drop { group, stamp, .. } => is_one_of_eight(*group) && expr_groups_fit(stamp),
        Stmt::Print { .. }
        | Stmt::Register { .. }
        | Stmt::RoleOnly { .. }
        | Stmt::Barrier { .. }
        | Stmt::Reduce { .. } => true,
    }
}

// Whether an expression is in range as what is put into an array of this length.
fn is_value_in_range(job: &IndexedJob, len: Option<i64>, value: &Expr) -> bool
    ensures { result ≡ (expr_groups_fit value.now && expr_lengths_fit (facts_of job.now) len value.now) }
{
    expr_groups_fit(value) && expr_lengths_fit(job, len, value)
}

/// Whether there is room for a statement: in the blocks and loops that are open, and in its
/// callback.
pub fn has_room(place: Surroundings, statement: &Stmt) -> bool
    ensures { result ≡ has_room place (out-Stmt statement.now) }
{
    let called = place.before < MOST_CALLED;
    match statement {
        Stmt::RoleOnly { .. } | Stmt::Branch { .. } => called && place.blocks < MOST_BLOCKS,
        Stmt::Loop { .. } => { called && place.blocks < MOST_BLOCKS && place.loops < MOST_LOOPS }
        _ => called,
    }
}

/// Whether control and stamps are the same on all ranks.
pub fn is_uniform(job: &IndexedJob, place: Surroundings, statement: &Stmt) -> bool
    ensures { result ≡ is_uniform (facts_of job.now) place (out-Stmt statement.now) }
{
    match statement {
        Stmt::Set { value, .. } => !place.in_when && expr_uniform(job, value),
        Stmt::Loop { first, .. } => !place.in_when && expr_uniform(job, first),
        Stmt::Branch { left, right, .. } => expr_uniform(job, left) && expr_uniform(job, right),
        Stmt::Restore { stamp, .. } => expr_uniform(job, stamp),
        Stmt::Drop { stamp, .. } => expr_uniform(job, stamp),
        _ => true,
    }
}

/// Whether a statement may stand inside `when` or in a callback, where it stands there.
pub fn is_placed(place: Surroundings, statement: &Stmt) -> bool
    ensures { result ≡ is_placed place (out-Stmt statement.now) }
{
    match statement {
        Stmt::Let { .. } | Stmt::Print { .. } => true,
        Stmt::Barrier { .. }
        | Stmt::Reduce { .. }
        | Stmt::Agree { .. }
        | Stmt::Shift { .. }
        | Stmt::Group { .. }
        | Stmt::Commit { .. }
        | Stmt::CommitBarrier { .. }
        | Stmt::Drop { .. } => !place.in_when && !place.in_callback,
        _ => !place.in_callback,
    }
}

/// Whether a statement creates its group as the first that creates it does.
pub fn agrees_on_group(job: &IndexedJob, statement: &Stmt) -> bool
    ensures { result ≡ agrees_on_group (facts_of job.now) (out-Stmt statement.now) }
{
    match statement {
        Stmt::Group {
            group,
            start,
            depth,
            ..
        } => match job.creation_of(*group) {
            Some(first) => first.start == *start && first.depth == *depth,
            None => true,
        },
        _ => true,
    }
}

/// Whether a statement attaches to its member the array that the first that attaches it does.
pub fn agrees_on_member(job: &IndexedJob, statement: &Stmt) -> bool
    ensures { result ≡ agrees_on_member (facts_of job.now) (out-Stmt statement.now) }
{
    match statement {
        Stmt::Member {
            group,
            member,
            array,
            ..
        } => match job.attachment_of(*group, *member) {
            Some(first) => first == array.as_slice(),
            None => true,
        },
        _ => true,
    }
}
