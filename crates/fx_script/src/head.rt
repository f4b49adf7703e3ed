ghost use Rattle.fx_script.specs.Outcome.{Gives, GivesLeaving};
ghost use Rattle.fx_script.specs.Heads.{part_at, edge_at, event_at, fields_at, head_at};

use crate::cursor::Cursor;
use crate::expr::Expr;
use crate::job::{EventKind, Stmt, Test};
use crate::keyword::{EdgeWord, EventWord, Keyword, PartWord};
use crate::refusal::Stop;
use crate::statement::read_simple;
use fx_base::{Bytes, Role, Spot};
use std::alloc::Global;

/// What one line with words says.
#[derive(Debug, Drop)]
pub enum Head {
    Part(PartHead),
    Edge(EdgeHead),
    Simple(Stmt),
    Event(EventKind),
}

/// A line between the parts of a job.
#[derive(Debug, Drop)]
pub enum PartHead {
    Fenix,
    Ranks(i64),
    Spares(i64),
    Separation(i64),
    Array(Bytes, i64),
    Counter(Bytes),
    Callback(Bytes),
    EndCallback,
    Begin,
    End,
    Schedule,
    Stop,
}

/// A line that opens, divides or closes a block.
#[derive(Debug, Drop)]
pub enum EdgeHead {
    When(Role),
    EndWhen,
    If(Test, Expr, Expr),
    Else,
    EndIf,
    For(Bytes, Expr, i64),
    EndFor,
}

/// Reads the words behind a line's keyword, and sees that no word is left.
pub fn read_head(
    alloc: Global,
    keyword: Keyword,
    spot: Spot,
    cursor: &mut Cursor,
) -> Result<Head, Stop>
    ensures { Gives result (head_at keyword spot cursor.old) }
{
    let head = read_fields(alloc, keyword, spot, cursor)?;
    cursor.end()?;
    Ok(head)
}

fn read_fields(
    alloc: Global,
    keyword: Keyword,
    spot: Spot,
    cursor: &mut Cursor,
) -> Result<Head, Stop>
    ensures { GivesLeaving result cursor.new (fields_at keyword spot cursor.old) }
{
    match keyword {
        Keyword::Part(word) => Ok(Head::Part(read_part(alloc, word, cursor)?)),
        Keyword::Edge(word) => Ok(Head::Edge(read_edge(alloc, word, cursor)?)),
        Keyword::Simple(word) => Ok(Head::Simple(read_simple(alloc, word, spot, cursor)?)),
        Keyword::Event(word) => Ok(Head::Event(read_event(word, cursor)?)),
    }
}

fn read_part(alloc: Global, word: PartWord, cursor: &mut Cursor) -> Result<PartHead, Stop>
    ensures { GivesLeaving result cursor.new (part_at word cursor.old) }
{
    match word {
        PartWord::Fenix => {
            cursor.fixed("1")?;
            Ok(PartHead::Fenix)
        }
        PartWord::Ranks => Ok(PartHead::Ranks(cursor.number()?)),
        PartWord::Spares => Ok(PartHead::Spares(cursor.number()?)),
        PartWord::Separation => Ok(PartHead::Separation(cursor.number()?)),
        PartWord::Array => {
            let name = cursor.name(alloc)?;
            let len = cursor.number()?;
            Ok(PartHead::Array(name, len))
        }
        PartWord::Counter => Ok(PartHead::Counter(cursor.name(alloc)?)),
        PartWord::Callback => Ok(PartHead::Callback(cursor.name(alloc)?)),
        PartWord::EndCallback => Ok(PartHead::EndCallback),
        PartWord::Begin => Ok(PartHead::Begin),
        PartWord::End => Ok(PartHead::End),
        PartWord::Schedule => Ok(PartHead::Schedule),
        PartWord::Stop => Ok(PartHead::Stop),
    }
}

fn read_edge(alloc: Global, word: EdgeWord, cursor: &mut Cursor) -> Result<EdgeHead, Stop>
    ensures { GivesLeaving result cursor.new (edge_at word cursor.old) }
{
    match word {
        EdgeWord::When => Ok(EdgeHead::When(cursor.role()?)),
        EdgeWord::EndWhen => Ok(EdgeHead::EndWhen),
        EdgeWord::If => {
            let test = cursor.test()?;
            let left = cursor.expr(alloc)?;
            let right = cursor.expr(alloc)?;
            Ok(EdgeHead::If(test, left, right))
        }
        EdgeWord::Else => Ok(EdgeHead::Else),
        EdgeWord::EndIf => Ok(EdgeHead::EndIf),
        EdgeWord::For => {
            let counter = cursor.name(alloc)?;
            let first = cursor.expr(alloc)?;
            let last = cursor.number()?;
            Ok(EdgeHead::For(counter, first, last))
        }
        EdgeWord::EndFor => Ok(EdgeHead::EndFor),
    }
}

/// Reads the words of an event, behind its keyword.
pub fn read_event(word: EventWord, cursor: &mut Cursor) -> Result<EventKind, Stop>
    ensures { GivesLeaving result cursor.new (event_at word cursor.old) }
{
    match word {
        EventWord::Step => Ok(EventKind::Step(cursor.number()?)),
        EventWord::Rest => Ok(EventKind::Rest(cursor.number()?)),
        EventWord::Deliver => {
            let from = cursor.number()?;
            let to = cursor.number()?;
            Ok(EventKind::Deliver(from, to))
        }
        EventWord::Kill => Ok(EventKind::Kill(cursor.number()?)),
        EventWord::Notice => {
            let lost = cursor.number()?;
            let to = cursor.number()?;
            Ok(EventKind::Notice(lost, to))
        }
        EventWord::Run => Ok(EventKind::Run(cursor.number()?)),
    }
}
