ghost use Rattle.fx_script.specs.Outcome.{GivesLeaving};
ghost use Rattle.fx_script.specs.Statements.{simple_at, reduce_at, agree_at, shift_at, group_at, member_at, store_at, restore_at};

use crate::cursor::Cursor;
use crate::job::Stmt;
use crate::keyword::SimpleWord;
use crate::refusal::Stop;
use fx_base::{Op, Spot};
use std::alloc::Global;

/// Reads the words of a statement without a block, behind its keyword.
pub fn read_simple(
    alloc: Global,
    word: SimpleWord,
    spot: Spot,
    cursor: &mut Cursor,
) -> Result<Stmt, Stop>
    ensures { GivesLeaving result cursor.new (simple_at word spot cursor.old) }
{
    match word {
        SimpleWord::Let => {
            let array = cursor.name(alloc)?;
            let value = cursor.expr(alloc)?;
            Ok(Stmt::Let { spot, array, value })
        }
        SimpleWord::Set => {
            let counter = cursor.name(alloc)?;
            let value = cursor.expr(alloc)?;
            Ok(Stmt::Set {
                spot,
                counter,
                value,
            })
        }
        SimpleWord::Print => Ok(Stmt::Print {
            spot,
            name: cursor.name(alloc)?,
        }),
        SimpleWord::Register => Ok(Stmt::Register {
            spot,
            name: cursor.name(alloc)?,
        }),
        SimpleWord::Barrier => Ok(Stmt::Barrier { spot }),
        SimpleWord::Sum => read_reduce(alloc, Op::Sum, spot, cursor),
        SimpleWord::Min => read_reduce(alloc, Op::Min, spot, cursor),
        SimpleWord::Max => read_reduce(alloc, Op::Max, spot, cursor),
        SimpleWord::Agree => read_agree(alloc, spot, cursor),
        SimpleWord::Shift => read_shift(alloc, spot, cursor),
        SimpleWord::Group => read_group(spot, cursor),
        SimpleWord::Member => read_member(alloc, spot, cursor),
        SimpleWord::Store => read_store(alloc, spot, cursor),
        SimpleWord::Commit => Ok(Stmt::Commit {
            spot,
            group: cursor.number()?,
        }),
        SimpleWord::CommitBarrier => Ok(Stmt::CommitBarrier {
            spot,
            group: cursor.number()?,
        }),
        SimpleWord::Restore => read_restore(alloc, spot, cursor),
        SimpleWord::Drop => {
            let group = cursor.number()?;
            let stamp = cursor.expr(alloc)?;
            Ok(Stmt::Drop { spot, group, stamp })
        }
    }
}

fn read_reduce(alloc: Global, op: Op, spot: Spot, cursor: &mut Cursor) -> Result<Stmt, Stop>
    ensures { GivesLeaving result cursor.new (reduce_at op spot cursor.old) }
{
    let counter = cursor.name(alloc)?;
    let array = cursor.name(alloc)?;
    Ok(Stmt::Reduce {
        spot,
        op,
        counter,
        array,
    })
}

fn read_agree(alloc: Global, spot: Spot, cursor: &mut Cursor) -> Result<Stmt, Stop>
    ensures { GivesLeaving result cursor.new (agree_at spot cursor.old) }
{
    let counter = cursor.name(alloc)?;
    let array = cursor.name(alloc)?;
    let index = cursor.number()?;
    Ok(Stmt::Agree {
        spot,
        counter,
        array,
        index,
    })
}

fn read_shift(alloc: Global, spot: Spot, cursor: &mut Cursor) -> Result<Stmt, Stop>
    ensures { GivesLeaving result cursor.new (shift_at spot cursor.old) }
{
    let source = cursor.name(alloc)?;
    let target = cursor.name(alloc)?;
    let by = cursor.number()?;
    Ok(Stmt::Shift {
        spot,
        source,
        target,
        by,
    })
}

fn read_group(spot: Spot, cursor: &mut Cursor) -> Result<Stmt, Stop>
    ensures { GivesLeaving result cursor.new (group_at spot cursor.old) }
{
    let group = cursor.number()?;
    let start = cursor.number()?;
    let depth = cursor.number()?;
    Ok(Stmt::Group {
        spot,
        group,
        start,
        depth,
    })
}

fn read_member(alloc: Global, spot: Spot, cursor: &mut Cursor) -> Result<Stmt, Stop>
    ensures { GivesLeaving result cursor.new (member_at spot cursor.old) }
{
    let group = cursor.number()?;
    let member = cursor.number()?;
    let array = cursor.name(alloc)?;
    Ok(Stmt::Member {
        spot,
        group,
        member,
        array,
    })
}

fn read_store(alloc: Global, spot: Spot, cursor: &mut Cursor) -> Result<Stmt, Stop>
    ensures { GivesLeaving result cursor.new (store_at spot cursor.old) }
{
    let group = cursor.number()?;
    let member = cursor.number()?;
    let subset = cursor.picked(alloc)?;
    Ok(Stmt::Store {
        spot,
        group,
        member,
        subset,
    })
}

fn read_restore(alloc: Global, spot: Spot, cursor: &mut Cursor) -> Result<Stmt, Stop>
    ensures { GivesLeaving result cursor.new (restore_at spot cursor.old) }
{
    let group = cursor.number()?;
    let member = cursor.number()?;
    let stamp = cursor.expr(alloc)?;
    Ok(Stmt::Restore {
        spot,
        group,
        member,
        stamp,
    })
}
