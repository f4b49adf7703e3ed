ghost use Rattle.std.specs.Prelude.{◌≡◌, ◌∷◌, ◌++◌, map, OnOk};
ghost use Rattle.std.specs.Fmt.{signed_decimal};
ghost use Rattle.fx_text.specs.Written.{Keeps};
ghost use Rattle.fx_lines.specs.Fields.{a_seat};
ghost use Rattle.fx_lines.specs.Forms.{joined};
ghost use Rattle.fx_lines.specs.Slots.{a_slot, some_slots};
ghost use Rattle.fx_trace.specs.Pieces.{each_behind};

use crate::choice::{
    answer_word, how_word, op_word, role_word, slot_name, statement_word, warning_word,
};
use fx_base::{
    Bytes, CallNo, Epoch, GroupId, How, Ident, MemberId, NoMemory, Op, Proc, Role, Seats, Stamp,
};
use fx_item::{Answer, Refusable};
use fx_link::{Slot, Slots};
use fx_text::{push_number, put_number, put_word};

/// A field of one word, for printing.
#[derive(Clone, Copy)]
pub enum Field<'a> {
    Process(&'a Proc),
    Epoch(&'a Epoch),
    Call(&'a CallNo),
    Group(&'a GroupId),
    Member(&'a MemberId),
    Stamp(&'a Stamp),
    Number(&'a i64),
    Identity(&'a Ident),
    /// A rank, a number of places, a round or a distance.
    Count(&'a u8),
    Name(&'a Bytes),
    /// What a process joins a ballot with.
    JoinKind(&'a Slot),
    Role(&'a Role),
    Op(&'a Op),
    How(&'a How),
    Warning(&'a bool),
    Statement(&'a Refusable),
    Answer(&'a Answer),
    Slot(&'a Slot),
    /// Slots, joined by commas.
    Slots(&'a Slots),
    /// Seats, joined by commas.
    Seats(&'a Seats),
}

impl Field<'_> {
    ghost use Rattle.fx_trace.specs.Printed.{word_of};

    /// Prints the field behind a space.
    pub fn put(&self, out: &mut Bytes) -> Result<(), NoMemory>
        ensures ok { OnOk result (out.new ≡ out.old ++ 32 ∷ word_of self.now) }
        ensures keeps { Keeps out.old out.new }
    {
        match self {
            Field::Process(process) => put_number(out, i64::from(process.0)),
            Field::Epoch(epoch) => put_number(out, i64::from(epoch.0)),
            Field::Call(call) => put_number(out, i64::from(call.0)),
            Field::Group(group) => put_number(out, i64::from(group.0)),
            Field::Member(member) => put_number(out, i64::from(member.0)),
            Field::Stamp(stamp) => put_number(out, stamp.0),
            Field::Number(number) => put_number(out, **number),
            Field::Identity(identity) => put_number(out, i64::from(identity.0)),
            Field::Count(count) => put_number(out, i64::from(**count)),
            Field::Name(name) => put_word(out, name.as_slice()),
            Field::JoinKind(slot) => put_word(out, slot_name(**slot)),
            Field::Role(role) => put_word(out, role_word(**role)),
            Field::Op(op) => put_word(out, op_word(**op)),
            Field::How(how) => put_word(out, how_word(**how)),
            Field::Warning(warn) => put_word(out, warning_word(**warn)),
            Field::Statement(statement) => put_word(out, statement_word(**statement)),
            Field::Answer(answer) => put_word(out, answer_word(**answer)),
            Field::Slot(slot) => put_slot(out, **slot),
            Field::Slots(slots) => put_slots(out, slots.as_slice()),
            Field::Seats(seats) => put_joined_seats(out, seats.as_slice()),
        }
    }
}

/// Prints a slot behind a space.
pub fn put_slot(out: &mut Bytes, slot: Slot) -> Result<(), NoMemory>
    ensures ok { OnOk result (out.new ≡ out.old ++ 32 ∷ a_slot.spell slot) }
    ensures keeps { Keeps out.old out.new }
{
    out.push(b' ')?;
    push_slot(out, slot)
}

/// Prints slots, joined by commas, behind a space.
pub fn put_slots(out: &mut Bytes, slots: &[Slot]) -> Result<(), NoMemory>
    ensures ok { OnOk result (out.new ≡ out.old ++ 32 ∷ some_slots.spell slots.now) }
    ensures keeps { Keeps out.old out.new }
{
    match slots {
        [] => out.push(b' '),
        [first, others @ ..] => {
            put_slot(out, *first)?;
            push_other_slots(out, others)
        }
    }
}

// Slots, each behind a comma.
fn push_other_slots(out: &mut Bytes, slots: &[Slot]) -> Result<(), NoMemory>
    ensures ok { OnOk result (out.new ≡ out.old ++ each_behind 44 (map a_slot.spell slots.now)) }
    ensures keeps { Keeps out.old out.new }
{
    for slot in slots {
        out.push(b',')?;
        push_slot(out, *slot)?;
    }
    Ok(())
}

fn push_slot(out: &mut Bytes, slot: Slot) -> Result<(), NoMemory>
    ensures ok { OnOk result (out.new ≡ out.old ++ a_slot.spell slot) }
    ensures keeps { Keeps out.old out.new }
{
    out.append(slot_name(slot))?;
    match slot {
        Slot::Flag(number) => push_behind_equals(out, number),
        Slot::NoLost(process) | Slot::NoLeft(process) => {
            push_behind_equals(out, i64::from(process.0))
        }
        _ => Ok(()),
    }
}

fn push_behind_equals(out: &mut Bytes, number: i64) -> Result<(), NoMemory>
    ensures ok { OnOk result (out.new ≡ out.old ++ 61 ∷ signed_decimal number) }
    ensures keeps { Keeps out.old out.new }
{
    out.push(b'=')?;
    push_number(out, number)
}

/// Prints an identity and the process that has it behind a space.
pub fn put_seat(out: &mut Bytes, seat: (Ident, Proc)) -> Result<(), NoMemory>
    ensures ok { OnOk result (out.new ≡ out.old ++ 32 ∷ a_seat.spell seat) }
    ensures keeps { Keeps out.old out.new }
{
    put_number(out, i64::from(seat.0.0))?;
    push_behind_equals(out, i64::from(seat.1.0))
}

// Seats, joined by commas, behind a space.
fn put_joined_seats(out: &mut Bytes, seats: &[(Ident, Proc)]) -> Result<(), NoMemory>
    ensures ok { OnOk result (out.new ≡ out.old ++ 32 ∷ (joined 44 a_seat).spell seats.now) }
    ensures keeps { Keeps out.old out.new }
{
    match seats {
        [] => out.push(b' '),
        [first, others @ ..] => {
            put_seat(out, *first)?;
            push_other_seats(out, others)
        }
    }
}

// Seats, each behind a comma.
fn push_other_seats(out: &mut Bytes, seats: &[(Ident, Proc)]) -> Result<(), NoMemory>
    ensures ok { OnOk result (out.new ≡ out.old ++ each_behind 44 (map a_seat.spell seats.now)) }
    ensures keeps { Keeps out.old out.new }
{
    for seat in seats {
        out.push(b',')?;
        push_number(out, i64::from(seat.0.0))?;
        push_behind_equals(out, i64::from(seat.1.0))?;
    }
    Ok(())
}
