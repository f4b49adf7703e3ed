ghost use Rattle.std.specs.Prelude.{◌≡◌, Some, ◌<◌, ◌-◌, ◌^◌, not, length};
ghost use Rattle.std.specs.List.{position};
ghost use Rattle.fx_text.specs.Checks.{is_printable};
ghost use Rattle.fx_script.specs.Outcome.{Gives};
ghost use Rattle.fx_script.specs.Next.{word_of};
ghost use Rattle.fx_script.specs.Reading.{sound, keyword_placed, said_by, taken, line_taken, at_line, reading};
ghost use Rattle.fx_script.specs.declared.keyword.Keyword.TheVariants as keyword;
ghost use Rattle.fx_script.specs.Answers.{Advances, Proceeds, Answers};

use crate::cursor::{Cursor, FoundWord};
use crate::draft::{Draft, DuePart};
use crate::head::{read_event, read_head};
use crate::job::Event;
use crate::keyword::{EventWord, Keyword, SimpleWord, keyword_of};
use crate::order::may_stand;
use crate::refusal::{JobFault, ReadJob, Stop, Wrong};
use crate::statement::read_simple;
use fx_base::Spot;
use fx_text::{LONGEST_LINE, LineFault, LineSpan, check_line, next_line};
use std::alloc::Global;

/// Reads the lines of a text one after another, up to the first fault.
pub fn read_text(alloc: Global, text: &[u8]) -> Result<Draft, ReadJob>
    requires { length text.now < 2 ^ 32 - 1 }
    ensures { Answers result (reading text.now) }
{
    let mut draft = Draft::new(alloc);
    let mut number = 1u32;
    let mut at = 0;
    while let Some(line) = next_line(text, at) {
        read_line(alloc, &mut draft, number, &text[line.from..line.to], line)?;
        number += 1;
        at = line.to + 1;
    }
    match draft.due_part {
        DuePart::Stopped => Ok(draft),
        _ => Err(ReadJob::Refused(
            JobFault::MissingPart,
            Spot {
                line: number,
                column: 1,
            },
        )),
    }
}

// Reads the line of this number, whose bytes stand at that span of the text.
fn read_line(
    alloc: Global,
    draft: &mut Draft,
    number: u32,
    line: &[u8],
    span: LineSpan,
) -> Result<(), ReadJob>
    requires short { length line.now < 2 ^ 32 - 1 }
    requires bad { span.bad ≡ position (λ b. not (is_printable b)) line.now }
    ensures { Proceeds result draft.new
        (at_line number (line_taken draft.old number (record { bytes = line.now; ended = span.ended }))) }
{
    match take_line(alloc, draft, number, line, span) {
        Ok(()) => Ok(()),
        Err(Stop::NoMemory) => Err(ReadJob::NoMemory),
        Err(Stop::Wrong(wrong)) => Err(ReadJob::Refused(
            wrong.fault,
            Spot {
                line: number,
                column: wrong.column,
            },
        )),
    }
}

fn take_line(
    alloc: Global,
    draft: &mut Draft,
    number: u32,
    line: &[u8],
    span: LineSpan,
) -> Result<(), Stop>
    requires short { length line.now < 2 ^ 32 - 1 }
    requires bad { span.bad ≡ position (λ b. not (is_printable b)) line.now }
    ensures { Advances result draft.new (line_taken draft.old number (record { bytes = line.now; ended = span.ended })) }
{
    see_sound(line, span)?;
    let mut cursor = Cursor::new(line);
    match cursor.next() {
        Some(first) if !first.is_comment() => take_met(alloc, draft, number, first, &mut cursor),
        _ => Ok(()),
    }
}

// Takes a line with words that is no comment, behind its first word.
fn take_met(
    alloc: Global,
    draft: &mut Draft,
    number: u32,
    first: FoundWord,
    cursor: &mut Cursor,
) -> Result<(), Stop>
    ensures { Advances result draft.new
        (taken draft.old (Some (record { number = number; first = word_of first.entry; left = cursor.old }))) }
{
    let spot = Spot {
        line: number,
        column: first.column,
    };
    match keyword_due(draft, first)? {
        Keyword::Simple(word) => take_simple(alloc, draft, spot, word, cursor),
        Keyword::Event(word) => take_event(draft, spot, word, cursor),
        keyword => take_other(alloc, draft, spot, keyword, cursor),
    }
}

// Takes a statement without a block: it goes straight into its list, as a body may have many.
fn take_simple(
    alloc: Global,
    draft: &mut Draft,
    spot: Spot,
    word: SimpleWord,
    cursor: &mut Cursor,
) -> Result<(), Stop>
    ensures { Advances result draft.new (said_by draft.old (keyword.Simple word) spot cursor.old) }
{
    let stmt = read_simple(alloc, word, spot, cursor)?;
    cursor.end()?;
    draft.now.push(stmt)?;
    Ok(())
}

// Takes an event: it goes straight into its list, as a schedule may have many.
fn take_event(
    draft: &mut Draft,
    spot: Spot,
    word: EventWord,
    cursor: &mut Cursor,
) -> Result<(), Stop>
    ensures { Advances result draft.new (said_by draft.old (keyword.Event word) spot cursor.old) }
{
    let kind = read_event(word, cursor)?;
    cursor.end()?;
    draft.job.events.push(Event { spot, kind })?;
    Ok(())
}

// Takes a line of any kind.
fn take_other(
    alloc: Global,
    draft: &mut Draft,
    spot: Spot,
    keyword: Keyword,
    cursor: &mut Cursor,
) -> Result<(), Stop>
    ensures { Advances result draft.new (said_by draft.old keyword spot cursor.old) }
{
    let head = read_head(alloc, keyword, spot, cursor)?;
    draft.take(alloc, spot, head)?;
    Ok(())
}

// Sees that a line is printable, not too long, and has its line end.
fn see_sound(line: &[u8], span: LineSpan) -> Result<(), Wrong>
    requires short { length line.now < 2 ^ 32 - 1 }
    requires bad { span.bad ≡ position (λ b. not (is_printable b)) line.now }
    ensures { result ≡ sound (record { bytes = line.now; ended = span.ended }) }
{
    match check_line(line, span.bad) {
        Err(LineFault::NotAscii(column)) => Err(Wrong {
            fault: JobFault::NotAscii,
            column,
        }),
        Err(LineFault::TooLong) => Err(Wrong {
            fault: JobFault::LineTooLong,
            column: LONGEST_LINE as u32 + 1,
        }),
        Ok(()) if !span.ended => Err(Wrong {
            fault: JobFault::BadLine,
            column: line.len() as u32 + 1,
        }),
        Ok(()) => Ok(()),
    }
}

// The keyword that a line begins with, if its first word is one that may stand here.
fn keyword_due(draft: &Draft, first: FoundWord) -> Result<Keyword, Stop>
    ensures { Gives result (keyword_placed draft.entry.now.due_part draft.entry.now.blocks (word_of first.entry)) }
{
    if draft.due_part == DuePart::Stopped {
        return Err(Stop::Wrong(Wrong {
            fault: JobFault::TrailingText,
            column: first.column,
        }));
    }
    match keyword_of(first.bytes) {
        Some(keyword) if may_stand(draft.due_part, &draft.blocks, keyword) => Ok(keyword),
        _ => Err(first.misfit()),
    }
}
