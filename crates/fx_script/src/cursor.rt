ghost use Rattle.std.specs.Prelude.{◌≡◌, ◌==◌, [], ◌<◌, ◌+◌, ◌-◌, ◌^◌, length, IfOk, MatchOption};
ghost use Rattle.std.specs.Borrow.{Bor};
ghost use Rattle.fx_text.specs.Words.{words_of};
ghost use Rattle.fx_script.specs.Outcome.{Gives, GivesLeaving};
ghost use Rattle.fx_script.specs.Fields.{misfit, fixed_at, name_at, number_in_word, number_at, role_at, test_at, strided_at, ranges_at, pair_at, pairs_at, pairs_from, picked_at, end_at};
ghost use Rattle.fx_script.specs.Comments.{is_comment};
ghost use Rattle.fx_script.specs.Exprs.{expr_at};
ghost use Rattle.fx_script.specs.Next.{IsNext, IsDue, word_of};
ghost use Rattle.fx_script.specs.declared.refusal.Stop.TheVariants as stop;

use crate::expr::{Expr, Step};
use crate::expr_word::take_word;
use crate::job::{NumPairs, Picked, Test};
use crate::keyword::is_text;
use crate::refusal::{JobFault, Stop, Wrong};
use crate::stack::Stack;
use fx_base::{Bytes, Role};
use fx_text::{is_name, next_word, read_number};
use std::alloc::Global;
use std::marker::Model;

// How many pairs may stand behind the first.
const MORE_PAIRS: u32 = 15;

/// A word of a line, and the column of its first byte.
#[derive(Clone, Copy)]
pub struct FoundWord<'a> {
    pub bytes: &'a [u8],
    pub column: u32,
}

/// The words of a line that are still to be read. It is seen as these words and the column past the line's end.
#[derive(Drop)]
pub struct Cursor<'a> {
    line: &'a [u8],
    at: usize,
}

impl<'a> Model for Cursor<'a> {
    ghost use Rattle.std.specs.Prelude.{◌+◌, ◌-◌, ◌^◌, ◌<◌, ◌≤◌, drop, length};
    ghost use Rattle.fx_text.specs.Words.{words_from};
    ghost use Rattle.fx_script.specs.Left.{Left};

    ghost Value = { Left };

    ghost view = { λ c. record { words = words_from (c.at + 1) (drop c.at c.line.now); past = length c.line.now + 1 } };

    ghost invariant = { λ c. (c.at ≤ length c.line.now) × (length c.line.now < 2 ^ 32 - 1) };
}

impl<'a> Cursor<'a> {
    /// All words of a line.
    pub fn new(line: &'a [u8]) -> Cursor<'a>
        requires { length line.now < 2 ^ 32 - 1 }
        ensures { result ≡ record { words = words_of line.now; past = length line.now + 1 } }
    {
        Cursor { line, at: 0 }
    }

    /// The next word, if there is one.
    pub fn next(&mut self) -> Option<FoundWord<'a>>
        ensures { MatchOption result (self.old.words ≡ []) (λ word. IsNext word self.old self.new) }
    {
        let span = next_word(self.line, self.at)?;
        self.at = span.to;
        Some(FoundWord {
            bytes: &self.line[span.from..span.to],
            column: span.from as u32 + 1,
        })
    }
}

impl<'a> Cursor<'a> {
    // The next word, which must be there.
    fn due(&mut self) -> Result<FoundWord<'a>, Wrong>
        ensures { IsDue result self.old self.new }
    {
        let past = self.line.len() as u32 + 1;
        self.next().ok_or(Wrong {
            fault: JobFault::BadLine,
            column: past,
        })
    }

    /// Reads this very word.
    pub fn fixed(&mut self, text: &str) -> Result<(), Stop>
        ensures { GivesLeaving result self.new (fixed_at text.now self.old) }
    {
        let word = self.due()?;
        if !is_text(word.bytes, text) {
            return Err(word.misfit());
        }
        Ok(())
    }

    /// Reads a name.
    pub fn name(&mut self, alloc: Global) -> Result<Bytes, Stop>
        ensures { GivesLeaving result self.new (name_at self.old) }
    {
        let word = self.due()?;
        if !is_name(word.bytes) {
            return Err(word.misfit());
        }
        let mut name = Bytes::new(alloc);
        name.append(word.bytes)?;
        Ok(name)
    }

    /// Reads a number.
    pub fn number(&mut self) -> Result<i64, Stop>
        ensures { GivesLeaving result self.new (number_at self.old) }
    {
        let word = self.due()?;
        word.number()
    }

    /// Reads a role.
    pub fn role(&mut self) -> Result<Role, Stop>
        ensures { GivesLeaving result self.new (role_at self.old) }
    {
        let word = self.due()?;
        if is_text(word.bytes, "initial") {
            return Ok(Role::Initial);
        }
        if is_text(word.bytes, "survivor") {
            return Ok(Role::Survivor);
        }
        if is_text(word.bytes, "recovered") {
            return Ok(Role::Recovered);
        }
        Err(word.misfit())
    }

    /// Reads how two sides are compared.
    pub fn test(&mut self) -> Result<Test, Stop>
        ensures { GivesLeaving result self.new (test_at self.old) }
    {
        let word = self.due()?;
        if is_text(word.bytes, "lt") {
            return Ok(Test::Lt);
        }
        if is_text(word.bytes, "le") {
            return Ok(Test::Le);
        }
        if is_text(word.bytes, "eq") {
            return Ok(Test::Eq);
        }
        Err(word.misfit())
    }

    /// Reads an expression.
    pub fn expr(&mut self, alloc: Global) -> Result<Expr, Stop>
        ensures { GivesLeaving result self.new (expr_at self.old) }
    {
        let mut pending = Stack::new(alloc);
        let mut group = false;
        loop {
            let word = self.due()?;
            match take_word(alloc, &word, group, &mut pending)? {
                Step::Whole(expr) => return Ok(expr),
                Step::More(due) => group = due,
            }
        }
    }

    /// Reads which elements are stored.
    pub fn picked(&mut self, alloc: Global) -> Result<Picked, Stop>
        ensures { GivesLeaving result self.new (picked_at self.old) }
    {
        let word = self.due()?;
        if is_text(word.bytes, "full") {
            return Ok(Picked::Full);
        }
        if is_text(word.bytes, "empty") {
            return Ok(Picked::Empty);
        }
        if is_text(word.bytes, "strided") {
            return self.strided();
        }
        if is_text(word.bytes, "ranges") {
            return self.ranges(alloc);
        }
        Err(word.misfit())
    }

    fn strided(&mut self) -> Result<Picked, Stop>
        ensures { GivesLeaving result self.new (strided_at self.old) }
    {
        let blocks = self.number()?;
        let start = self.number()?;
        let end = self.number()?;
        let stride = self.number()?;
        Ok(Picked::Strided(blocks, start, end, stride))
    }

    fn ranges(&mut self, alloc: Global) -> Result<Picked, Stop>
        ensures { GivesLeaving result self.new (ranges_at self.old) }
    {
        Ok(Picked::Ranges(self.pairs(alloc)?))
    }

    // Reads 1 to 16 pairs.
    fn pairs(&mut self, alloc: Global) -> Result<NumPairs, Stop>
        ensures { GivesLeaving result self.new (pairs_at self.old) }
    {
        let mut pairs = NumPairs::new(alloc);
        pairs.push(self.pair()?)?;
        self.more_pairs(pairs)
    }

    fn more_pairs(&mut self, before: NumPairs) -> Result<NumPairs, Stop>
        ensures { GivesLeaving result self.new (pairs_from 15 before self.old) }
    {
        let mut pairs = before;
        for _ in 0..MORE_PAIRS {
            if self.is_done() {
                return Ok(pairs);
            }
            pairs.push(self.pair()?)?;
        }
        Ok(pairs)
    }

    fn pair(&mut self) -> Result<(i64, i64), Stop>
        ensures { GivesLeaving result self.new (pair_at self.old) }
    {
        let first = self.number()?;
        let last = self.number()?;
        Ok((first, last))
    }

    // Whether no word is left.
    fn is_done(&self) -> bool
        ensures { result ≡ length self.now.words == 0 }
    {
        matches!(next_word(self.line, self.at), None)
    }

    /// Sees that no word is left.
    pub fn end(&mut self) -> Result<(), Stop>
        ensures { Gives result (end_at self.old) }
    {
        match self.next() {
            None => Ok(()),
            Some(word) => Err(word.misfit()),
        }
    }
}

impl<'a> FoundWord<'a> {
    /// Whether its line is a comment, where it is the first.
    pub fn is_comment(&self) -> bool
        ensures { result ≡ is_comment (word_of self.now) }
    {
        matches!(self.bytes, [b'#', ..])
    }

    /// The number that it spells.
    pub fn number(&self) -> Result<i64, Stop>
        ensures { Gives result (number_in_word (word_of self.now)) }
    {
        let column = self.column;
        read_number(self.bytes).map_err(|_| {
            Stop::Wrong(Wrong {
                fault: JobFault::BadNumber,
                column,
            })
        })
    }

    // What is wrong where this word doesn't fit.
    pub fn misfit(&self) -> Stop
        ensures { result ≡ stop.Wrong (misfit (word_of self.now)) }
    {
        Stop::Wrong(Wrong {
            fault: JobFault::BadLine,
            column: self.column,
        })
    }
}
