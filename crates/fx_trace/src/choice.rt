//! Fields that are one of a few words.
ghost use Rattle.std.specs.Prelude.{◌≡◌};
ghost use Rattle.fx_lines.specs.Choices.{answer_word, how_word, op_word, role_word, statement_word, warning_word};
ghost use Rattle.fx_lines.specs.Slots.{slot_name};

use fx_base::{How, Op, Role};
use fx_item::{Answer, Refusable};
use fx_link::Slot;

/// The word of a role.
pub fn role_word(role: Role) -> &'static [u8]
    ensures { result.now ≡ role_word role }
{
    match role {
        Role::Initial => b"initial",
        Role::Survivor => b"survivor",
        Role::Recovered => b"recovered",
    }
}

/// The word of a reduction.
pub fn op_word(op: Op) -> &'static [u8]
    ensures { result.now ≡ op_word op }
{
    match op {
        Op::Sum => b"sum",
        Op::Min => b"min",
        Op::Max => b"max",
    }
}

/// The word of what a creation found.
pub fn how_word(how: How) -> &'static [u8]
    ensures { result.now ≡ how_word how }
{
    match how {
        How::Fresh => b"fresh",
        How::Kept => b"kept",
        How::Lost => b"lost",
    }
}

/// The word for whether there are fewer places than the job asks for.
pub fn warning_word(warn: bool) -> &'static [u8]
    ensures { result.now ≡ warning_word warn }
{
    if warn { b"spares-depleted" } else { b"full" }
}

/// The word with which a statement begins.
pub fn statement_word(statement: Refusable) -> &'static [u8]
    ensures { result.now ≡ statement_word statement }
{
    match statement {
        Refusable::Group => b"group",
        Refusable::Member => b"member",
        Refusable::Store => b"store",
        Refusable::Commit => b"commit",
        Refusable::CommitBarrier => b"commitbarrier",
        Refusable::Restore => b"restore",
        Refusable::Drop => b"drop",
    }
}

/// The word for why a statement is refused.
pub fn answer_word(answer: Answer) -> &'static [u8]
    ensures { result.now ≡ answer_word answer }
{
    match answer {
        Answer::NotCreated => b"NotCreated",
        Answer::NotAttached => b"NotAttached",
        Answer::NoStamp => b"NoStamp",
        Answer::NotStored => b"NotStored",
        Answer::AlreadyCreated => b"AlreadyCreated",
        Answer::Full => b"Full",
    }
}

/// The word of a slot, or the part of it before the `=`.
pub fn slot_name(slot: Slot) -> &'static [u8]
    ensures { result.now ≡ slot_name slot }
{
    match slot {
        Slot::Start => b"start",
        Slot::Spare => b"spare",
        Slot::Error => b"error",
        Slot::Final => b"final",
        Slot::Yes | Slot::Flag(_) => b"yes",
        Slot::Fresh => b"fresh",
        Slot::Kept => b"kept",
        Slot::Gone => b"gone",
        Slot::NoLost(_) => b"nolost",
        Slot::NoLeft(_) => b"noleft",
        Slot::Lost => b"lost",
        Slot::Left => b"left",
    }
}
