ghost use Rattle.std.specs.Prelude.{◌≡◌, ◌≤◌, IfOk, true, pos, ℕ, ℤ, List};
ghost use Rattle.fx_base.specs.declared.spot.Spot.{Spot};
ghost use Rattle.fx_script.specs.declared.job.Stmt.TheOpen.{Stmt-F};
ghost use Rattle.fx_check.specs.Facts.{Facts, facts_of, is_one_of_eight};
ghost use Rattle.fx_check.specs.Rules.{count_of, is_between};
ghost use Rattle.fx_walk.specs.State.{array_slot};
ghost use Rattle.fx_walk.specs.Walk.{group_id, member_array, member_id};
ghost use Rattle.fx_flow.specs.Code.{AsksAs};

use crate::instr::Outward;
use crate::selection::selection_of;
use fx_base::{Bytes, GroupId, MemberId, NoMemory, Op, Stamp};
use fx_check::IndexedJob;
use fx_script::{Decl, Expr, Picked};
use fx_value::{Formula, array_slot, counter_slot};
use std::alloc::Global;

// ---- numbers

fn count_of(number: &i64) -> usize
    ensures { result ≡ count_of number.now }
{
    let number = *number;
    number.max(0) as usize
}

fn byte_of(number: &i64) -> u8
    ensures { count_of number.now ≤ 255 → result ≡ count_of number.now }
{
    count_of(number).min(255) as u8
}

/// The greatest value of a loop's counter, where it is at most 9,999.
pub fn last_of(number: &i64) -> u32
    ensures { is_between 0 9999 number.now ≡ true → number.now ≡ pos result }
{
    count_of(number).min(9999) as u32
}

/// The group of this number, where it is one of the eight.
pub fn group_id(number: &i64) -> GroupId
    ensures { is_one_of_eight number.now ≡ true → result ≡ group_id number.now }
{
    GroupId(byte_of(number))
}

fn member_id(number: &i64) -> MemberId
    ensures { is_one_of_eight number.now ≡ true → result ≡ member_id number.now }
{
    MemberId(byte_of(number))
}

/// The slot of the array that the job attaches to a member.
fn member_slot(job: &IndexedJob, group: &i64, member: &i64) -> usize
    ensures { result ≡ array_slot job.now.names (member_array (facts_of job.now) group.now member.now) }
{
    match job.attachment_of(*group, *member) {
        Some(array) => array_slot(job.names(), array),
        None => array_slot(job.names(), &[]),
    }
}

// ---- outward statements

pub fn reduction(names: &[Decl], op: Op, counter: &Bytes, array: &Bytes) -> Outward
    ensures { (f : Facts) (spot : Spot) → f.names ≡ names.now → AsksAs f (Stmt-F.Reduce spot op counter.now array.now) spot result }
{
    Outward::Reduce {
        op,
        counter: counter_slot(names, counter.as_slice()),
        array: array_slot(names, array.as_slice()),
    }
}

pub fn agreement(names: &[Decl], counter: &Bytes, array: &Bytes, index: &i64) -> Outward
    ensures { (f : Facts) (spot : Spot) → f.names ≡ names.now → AsksAs f (Stmt-F.Agree spot counter.now array.now index.now) spot result }
{
    Outward::Agree {
        counter: counter_slot(names, counter.as_slice()),
        array: array_slot(names, array.as_slice()),
        index: count_of(index),
    }
}

pub fn shifting(names: &[Decl], source: &Bytes, target: &Bytes, by: &i64) -> Outward
    ensures { (f : Facts) (spot : Spot) → f.names ≡ names.now → AsksAs f (Stmt-F.Shift spot source.now target.now by.now) spot result }
{
    Outward::Shift {
        by: byte_of(by),
        source: array_slot(names, source.as_slice()),
        target: array_slot(names, target.as_slice()),
    }
}

pub fn creation(group: &i64, start: &i64, depth: &i64) -> Outward
    ensures { (f : Facts) (spot : Spot) → AsksAs f (Stmt-F.Group spot group.now start.now depth.now) spot result }
{
    Outward::Group {
        group: group_id(group),
        start: Stamp(*start),
        depth: byte_of(depth),
    }
}

pub fn attachment(group: &i64, member: &i64) -> Outward
    ensures { (f : Facts) (spot : Spot) (array : List ℕ) → AsksAs f (Stmt-F.Member spot group.now member.now array) spot result }
{
    Outward::Attach {
        group: group_id(group),
        member: member_id(member),
    }
}

pub fn storing(
    alloc: Global,
    job: &IndexedJob,
    group: &i64,
    member: &i64,
    subset: &Picked,
) -> Result<Outward, NoMemory>
    ensures { IfOk result (λ what. (spot : Spot) → AsksAs (facts_of job.now) (Stmt-F.Store spot group.now member.now subset.now) spot what) }
{
    let selection = selection_of(alloc, job, group, member, subset)?;
    Ok(Outward::Store {
        group: group_id(group),
        member: member_id(member),
        array: member_slot(job, group, member),
        selection,
    })
}

pub fn restoring(
    alloc: Global,
    job: &IndexedJob,
    group: &i64,
    member: &i64,
    stamp: &Expr,
) -> Result<Outward, NoMemory>
    ensures { IfOk result (λ what. (spot : Spot) → AsksAs (facts_of job.now) (Stmt-F.Restore spot group.now member.now stamp.now) spot what) }
{
    let stamp = Formula::new(alloc, job.names(), stamp)?;
    Ok(Outward::Restore {
        group: group_id(group),
        member: member_id(member),
        array: member_slot(job, group, member),
        stamp,
    })
}

pub fn deletion(
    alloc: Global,
    names: &[Decl],
    group: &i64,
    stamp: &Expr,
) -> Result<Outward, NoMemory>
    ensures { IfOk result (λ what. (f : Facts) (spot : Spot) → f.names ≡ names.now → AsksAs f (Stmt-F.Drop spot group.now stamp.now) spot what) }
{
    let stamp = Formula::new(alloc, names, stamp)?;
    Ok(Outward::Delete {
        group: group_id(group),
        stamp,
    })
}
