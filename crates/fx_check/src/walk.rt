ghost use Rattle.std.specs.Prelude.{◌≡◌, ◌≤◌, IfOk, Ok};
ghost use Rattle.fx_check.specs.Acceptance.{RefusesAs, callback_body_lines, fault_of, first_refused, judged_line, stmt_lines, stmts_lines};
ghost use Rattle.fx_check.specs.Facts.{facts_of};

use crate::fault::{CheckJob, StaticFault};
use crate::rules::{
    agrees_on_group, agrees_on_member, has_room, is_in_range, is_known, is_placed, is_uniform,
};
use crate::subsets::stores_inside;
use crate::surroundings::Surroundings;
use crate::tables::IndexedJob;
use fx_base::NoMemory;
use fx_script::Stmt;
use std::alloc::Global;

/// The first reason for which the first line of a statement is refused.
fn fault_at(
    alloc: Global,
    job: &IndexedJob,
    place: Surroundings,
    statement: &Stmt,
) -> Result<Option<StaticFault>, NoMemory>
    ensures { IfOk result (λ fault. fault ≡ fault_of (judged_line (facts_of job.now) place statement.now)) }
{
    if !is_known(job, statement) {
        Ok(Some(StaticFault::UnknownName))
    } else if !is_in_range(job, statement) || !has_room(place, statement) {
        Ok(Some(StaticFault::OutOfRange))
    } else if !is_uniform(job, place, statement) {
        Ok(Some(StaticFault::NotUniform))
    } else if !is_placed(place, statement) {
        Ok(Some(StaticFault::Misplaced))
    } else if !agrees_on_group(job, statement) {
        Ok(Some(StaticFault::GroupDiffers))
    } else if !agrees_on_member(job, statement) {
        Ok(Some(StaticFault::MemberDiffers))
    } else if !stores_inside(alloc, job, statement)? {
        Ok(Some(StaticFault::SubsetOutside))
    } else {
        Ok(None)
    }
}

/// Checks statements that stand at a place, in the order of their lines.
#[cycle(checking)]
pub fn check_stmts(
    alloc: Global,
    job: &IndexedJob,
    place: Surroundings,
    body: &[Stmt],
) -> Result<(), CheckJob>
    requires blocks { place.blocks ≤ 8 }
    requires loops { place.loops ≤ 4 }
    ensures { RefusesAs result (first_refused (stmts_lines (facts_of job.now) body.now place)) }
{
    for statement in body {
        check_stmt(alloc, job, place, statement)?;
    }
    Ok(())
}

#[cycle(checking)]
pub fn check_stmt(
    alloc: Global,
    job: &IndexedJob,
    place: Surroundings,
    statement: &Stmt,
) -> Result<(), CheckJob>
    requires blocks { place.blocks ≤ 8 }
    requires loops { place.loops ≤ 4 }
    ensures { RefusesAs result (first_refused (stmt_lines (facts_of job.now) statement.now place)) }
{
    if let Some(fault) = fault_at(alloc, job, place, statement)? {
        return Err(CheckJob::Refused(fault, statement.spot()));
    }
    match statement {
        Stmt::RoleOnly { body, .. } => {
            check_stmts(alloc, job, place.inside_when(), body.as_slice())
        }
        Stmt::Branch { yes, no, .. } => {
            check_stmts(alloc, job, place.inside_if(), yes.as_slice())?;
            match no {
                Some(no) => check_stmts(alloc, job, place.inside_if(), no.as_slice()),
                None => Ok(()),
            }
        }
        Stmt::Loop { body, .. } => { check_stmts(alloc, job, place.inside_for(), body.as_slice()) }
        _ => Ok(()),
    }
}
