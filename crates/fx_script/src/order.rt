ghost use Rattle.std.specs.Prelude.{◌≡◌};
ghost use Rattle.fx_script.specs.Order.{may_stand, is_inside, part_stands, edge_stands};

use crate::draft::{Block, DuePart};
use crate::keyword::{EdgeWord, Keyword, PartWord};
use crate::stack::Stack;

/// How many blocks may be open at once.
const DEEPEST: usize = 64;

/// Whether a line with this keyword may stand next.
pub fn may_stand(due_part: DuePart, blocks: &Stack<Block>, keyword: Keyword) -> bool
    ensures { result ≡ may_stand due_part blocks.now keyword }
{
    match keyword {
        Keyword::Part(word) => part_stands(due_part, blocks, word),
        Keyword::Edge(word) => is_inside(due_part) && edge_stands(blocks, word),
        Keyword::Simple(_) => is_inside(due_part),
        Keyword::Event(_) => due_part == DuePart::Events,
    }
}

// Statements may stand in a callback and in the body.
fn is_inside(due_part: DuePart) -> bool
    ensures { result ≡ is_inside due_part }
{
    matches!(due_part, DuePart::Callback | DuePart::Body)
}

fn part_stands(due_part: DuePart, blocks: &Stack<Block>, word: PartWord) -> bool
    ensures { result ≡ part_stands due_part blocks.now word }
{
    match word {
        PartWord::Fenix => due_part == DuePart::Fenix,
        PartWord::Ranks => due_part == DuePart::Ranks,
        PartWord::Spares => due_part == DuePart::Spares,
        PartWord::Separation => due_part == DuePart::Separation,
        PartWord::Array | PartWord::Counter => due_part == DuePart::Names,
        PartWord::Callback | PartWord::Begin => matches!(
            due_part,
            DuePart::Names | DuePart::Callbacks
        ),
        PartWord::EndCallback => due_part == DuePart::Callback && blocks.len() == 0,
        PartWord::End => due_part == DuePart::Body && blocks.len() == 0,
        PartWord::Schedule => due_part == DuePart::Schedule,
        PartWord::Stop => due_part == DuePart::Events,
    }
}

fn edge_stands(blocks: &Stack<Block>, word: EdgeWord) -> bool
    ensures { result ≡ edge_stands blocks.now word }
{
    match word {
        EdgeWord::When | EdgeWord::If | EdgeWord::For => blocks.len() < DEEPEST,
        EdgeWord::EndWhen => matches!(blocks.top(), Some(Block::RoleOnly { .. })),
        EdgeWord::Else => matches!(blocks.top(), Some(Block::Yes { .. })),
        EdgeWord::EndIf => matches!(blocks.top(), Some(Block::Yes { .. } | Block::No { .. })),
        EdgeWord::EndFor => matches!(blocks.top(), Some(Block::Loop { .. })),
    }
}
