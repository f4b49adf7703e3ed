//! Fields of one word, as they are read.
ghost use Rattle.std.specs.Prelude.{◌≡◌, ◌<◌, ◌^◌, [], ◌∷◌, IfOk, IfSome};
ghost use Rattle.std.specs.Str.{bytes_eq};
ghost use Rattle.fx_text.specs.Numbers.{number_in};
ghost use Rattle.fx_lines.specs.Choices.{a_how, a_role, a_statement, a_warning, an_answer, an_op};
ghost use Rattle.fx_lines.specs.Fields.{a_call, a_group, a_member, a_seat, a_stamp, an_epoch, an_identity};
ghost use Rattle.fx_lines.specs.Forms.{integer, integer_in, joined, natural, natural_below, read_each};
ghost use Rattle.fx_lines.specs.Hex.{bytes_in, hex_digit};
ghost use Rattle.fx_lines.specs.Lists.{a_share, an_element};
ghost use Rattle.fx_lines.specs.Names.{name};
ghost use Rattle.fx_lines.specs.Slots.{a_join_kind, a_process, a_slot, numbered_slot, slot_in, some_slots};
ghost use Rattle.fx_trace.specs.Pieces.{IsPair};

use crate::choice::{
    answer_word, how_word, op_word, role_word, slot_name, statement_word, warning_word,
};
use crate::pieces::Pieces;
use crate::read::Field;
use fx_base::{
    Bytes, CallNo, Epoch, GroupId, How, Ident, MemberId, NoMemory, Op, Proc, Role, Seats, Seq,
    Stamp,
};
use fx_item::{Answer, Refusable};
use fx_link::{Slot, Slots};
use fx_text::{is_name, read_number};
use std::alloc::Global;

// The number that a word spells, if it is one of 64 bits with a sign.
fn read_integer(word: &[u8]) -> Option<i64>
    ensures { result ≡ integer_in (number_in word.now) }
{
    read_number(word).ok()
}

// The number that a word spells, if it is one of 8 bits without a sign.
fn read_u8(word: &[u8]) -> Option<u8>
    ensures { result ≡ natural_below 256 (number_in word.now) }
{
    match read_number(word) {
        Ok(number) => u8::try_from(number).ok(),
        Err(_) => None,
    }
}

// The number that a word spells, if it is one of 32 bits without a sign.
fn read_u32(word: &[u8]) -> Option<u32>
    ensures { result ≡ natural_below (2 ^ 32) (number_in word.now) }
{
    match read_number(word) {
        Ok(number) => u32::try_from(number).ok(),
        Err(_) => None,
    }
}

impl Field for Proc {
    ghost form = { a_process };

    fn read(_alloc: Global, word: &[u8]) -> Result<Option<Self>, NoMemory> {
        Ok(read_u8(word).map(Proc))
    }
}

impl Field for Epoch {
    ghost form = { an_epoch };

    fn read(_alloc: Global, word: &[u8]) -> Result<Option<Self>, NoMemory> {
        Ok(read_u32(word).map(Epoch))
    }
}

impl Field for CallNo {
    ghost form = { a_call };

    fn read(_alloc: Global, word: &[u8]) -> Result<Option<Self>, NoMemory> {
        Ok(read_u32(word).map(CallNo))
    }
}

impl Field for GroupId {
    ghost form = { a_group };

    fn read(_alloc: Global, word: &[u8]) -> Result<Option<Self>, NoMemory> {
        Ok(read_u8(word).map(GroupId))
    }
}

impl Field for MemberId {
    ghost form = { a_member };

    fn read(_alloc: Global, word: &[u8]) -> Result<Option<Self>, NoMemory> {
        Ok(read_u8(word).map(MemberId))
    }
}

impl Field for Ident {
    ghost form = { an_identity };

    fn read(_alloc: Global, word: &[u8]) -> Result<Option<Self>, NoMemory> {
        Ok(read_u8(word).map(Ident))
    }
}

impl Field for Stamp {
    ghost form = { a_stamp };

    fn read(_alloc: Global, word: &[u8]) -> Result<Option<Self>, NoMemory> {
        Ok(read_integer(word).map(Stamp))
    }
}

impl Field for i64 {
    ghost form = { integer };

    fn read(_alloc: Global, word: &[u8]) -> Result<Option<Self>, NoMemory> {
        Ok(read_integer(word))
    }
}

/// A rank, a number of places, a round or a distance.
impl Field for u8 {
    ghost form = { natural 256 };

    fn read(_alloc: Global, word: &[u8]) -> Result<Option<Self>, NoMemory> {
        Ok(read_u8(word))
    }
}

/// A name.
impl Field for Bytes {
    ghost form = { name };

    fn read(alloc: Global, word: &[u8]) -> Result<Option<Self>, NoMemory> {
        if !is_name(word) {
            return Ok(None);
        }
        let mut name = Bytes::new(alloc);
        name.append(word)?;
        Ok(Some(name))
    }
}

// The first of these values with this word.
macro_rules! choose {
    ($word:ident, $spell:ident, $($value:expr),*) => {{
        $(if $spell($value) == $word {
            return Ok(Some($value));
        })*
        Ok(None)
    }};
}

impl Field for Role {
    ghost form = { a_role };

    fn read(_alloc: Global, word: &[u8]) -> Result<Option<Self>, NoMemory> {
        choose!(
            word,
            role_word,
            Role::Initial,
            Role::Survivor,
            Role::Recovered
        )
    }
}

impl Field for Op {
    ghost form = { an_op };

    fn read(_alloc: Global, word: &[u8]) -> Result<Option<Self>, NoMemory> {
        choose!(word, op_word, Op::Sum, Op::Min, Op::Max)
    }
}

impl Field for How {
    ghost form = { a_how };

    fn read(_alloc: Global, word: &[u8]) -> Result<Option<Self>, NoMemory> {
        choose!(word, how_word, How::Fresh, How::Kept, How::Lost)
    }
}

/// Whether there are fewer places than the job asks for.
impl Field for bool {
    ghost form = { a_warning };

    fn read(_alloc: Global, word: &[u8]) -> Result<Option<Self>, NoMemory> {
        choose!(word, warning_word, true, false)
    }
}

impl Field for Refusable {
    ghost form = { a_statement };

    fn read(_alloc: Global, word: &[u8]) -> Result<Option<Self>, NoMemory> {
        choose!(
            word,
            statement_word,
            Refusable::Group,
            Refusable::Member,
            Refusable::Store,
            Refusable::Commit,
            Refusable::CommitBarrier,
            Refusable::Restore,
            Refusable::Drop
        )
    }
}

impl Field for Answer {
    ghost form = { an_answer };

    fn read(_alloc: Global, word: &[u8]) -> Result<Option<Self>, NoMemory> {
        choose!(
            word,
            answer_word,
            Answer::NotCreated,
            Answer::NotAttached,
            Answer::NoStamp,
            Answer::NotStored,
            Answer::AlreadyCreated,
            Answer::Full
        )
    }
}

/// A slot that a process joins a ballot with.
#[derive(Clone, Copy)]
pub struct JoinKind(pub Slot);

impl Field for JoinKind {
    ghost use Rattle.fx_lines.specs.Forms.{wrapped};

    ghost form = { wrapped (λ s. record { 0 = s }) (λ k. k.0) a_join_kind };

    fn read(_alloc: Global, word: &[u8]) -> Result<Option<Self>, NoMemory> {
        choose!(
            word,
            join_word,
            JoinKind(Slot::Start),
            JoinKind(Slot::Spare),
            JoinKind(Slot::Error),
            JoinKind(Slot::Final)
        )
    }
}

fn join_word(kind: JoinKind) -> &'static [u8]
    ensures { result.now ≡ a_join_kind.spell kind.0 }
{
    slot_name(kind.0)
}

impl Field for Slot {
    ghost form = { a_slot };

    fn read(_alloc: Global, word: &[u8]) -> Result<Option<Self>, NoMemory> {
        let mut parts = Pieces::new(b'=', word);
        let Some(name) = parts.next() else {
            return Ok(None);
        };
        let Some(number) = parts.next() else {
            return Ok(bare_slot(name));
        };
        if parts.next().is_some() {
            return Ok(None);
        }
        Ok(numbered_slot(name, number))
    }
}

macro_rules! bare {
    ($name:ident, $($slot:ident),*) => {{
        $(if slot_name(Slot::$slot) == $name {
            return Some(Slot::$slot);
        })*
        None
    }};
}

// The slot of a name alone.
fn bare_slot(name: &[u8]) -> Option<Slot>
    ensures { result ≡ slot_in (name.now ∷ []) }
{
    bare!(
        name, Start, Spare, Error, Final, Yes, Fresh, Kept, Gone, Lost, Left
    )
}

// The slot of a name and a number.
fn numbered_slot(name: &[u8], number: &[u8]) -> Option<Slot>
    ensures { result ≡ numbered_slot name.now number.now }
{
    if is_word(name, b"yes") {
        return read_integer(number).map(Slot::Flag);
    }
    if is_word(name, b"nolost") {
        return read_u8(number).map(|process| Slot::NoLost(Proc(process)));
    }
    if is_word(name, b"noleft") {
        return read_u8(number).map(|process| Slot::NoLeft(Proc(process)));
    }
    None
}

/// Whether a word is this one.
pub fn is_word(word: &[u8], text: &[u8]) -> bool
    ensures { result ≡ bytes_eq word.now text.now }
{
    word == text
}

/// The value of each piece, where each piece says one.
pub fn read_each<T: Field>(alloc: Global, pieces: &mut Pieces) -> Result<Option<Seq<T>>, NoMemory>
    ensures { IfOk result (λ list. list ≡ read_each T.form.read pieces.old) }
{
    let mut list = Seq::new(alloc);
    while let Some(piece) = pieces.next() {
        match T::read(alloc, piece)? {
            Some(value) => list.push(value)?,
            None => return Ok(None),
        }
    }
    Ok(Some(list))
}

/// Slots, joined by commas.
impl Field for Slots {
    ghost form = { some_slots };

    fn read(alloc: Global, word: &[u8]) -> Result<Option<Self>, NoMemory> {
        match read_each(alloc, &mut Pieces::new(b',', word))? {
            Some(slots) => Ok(Some(Slots::of(alloc, slots)?)),
            None => Ok(None),
        }
    }
}

/// Seats, joined by commas.
impl Field for Seats {
    ghost form = { joined 44 a_seat };

    fn read(alloc: Global, word: &[u8]) -> Result<Option<Self>, NoMemory> {
        read_each(alloc, &mut Pieces::new(b',', word))
    }
}

// The two parts of a word, where it has one `=`.
fn split_pair(word: &[u8]) -> Option<(&[u8], &[u8])>
    ensures { IsPair result word.now }
{
    let mut parts = Pieces::new(b'=', word);
    let first = parts.next()?;
    let second = parts.next()?;
    match parts.next() {
        None => Some((first, second)),
        Some(_) => None,
    }
}

/// An identity and the process that has it.
impl Field for (Ident, Proc) {
    ghost form = { a_seat };

    fn read(_alloc: Global, word: &[u8]) -> Result<Option<Self>, NoMemory> {
        let Some((first, second)) = split_pair(word) else {
            return Ok(None);
        };
        match (read_u8(first), read_u8(second)) {
            (Some(identity), Some(process)) => Ok(Some((Ident(identity), Proc(process)))),
            _ => Ok(None),
        }
    }
}

/// An index and its element.
impl Field for (u32, i64) {
    ghost form = { an_element };

    fn read(_alloc: Global, word: &[u8]) -> Result<Option<Self>, NoMemory> {
        let Some((first, second)) = split_pair(word) else {
            return Ok(None);
        };
        match (read_u32(first), read_integer(second)) {
            (Some(index), Some(element)) => Ok(Some((index, element))),
            _ => Ok(None),
        }
    }
}

/// A stamp and its bytes.
impl Field for (Stamp, Bytes) {
    ghost form = { a_share };

    fn read(alloc: Global, word: &[u8]) -> Result<Option<Self>, NoMemory> {
        let Some((first, second)) = split_pair(word) else {
            return Ok(None);
        };
        match (read_integer(first), read_hex(alloc, second)?) {
            (Some(stamp), Some(bytes)) => Ok(Some((Stamp(stamp), bytes))),
            _ => Ok(None),
        }
    }
}

// The bytes of digits in pairs.
fn read_hex(alloc: Global, digits: &[u8]) -> Result<Option<Bytes>, NoMemory>
    ensures { IfOk result (λ bytes. bytes ≡ bytes_in digits.now) }
{
    let mut bytes = Bytes::new(alloc);
    let mut rest = digits;
    loop {
        match rest {
            [] => return Ok(Some(bytes)),
            [high, low, others @ ..] => {
                match (hex_number(*high), hex_number(*low)) {
                    (Some(high), Some(low)) => bytes.push(high * 16 + low)?,
                    _ => return Ok(None),
                }
                rest = others;
            }
            [_] => return Ok(None),
        }
    }
}

// The number below 16 that a digit stands for.
fn hex_number(digit: u8) -> Option<u8>
    ensures value { result ≡ hex_digit digit }
    ensures below { IfSome result (λ number. number < 16) }
{
    match digit {
        b'0'..=b'9' => Some(digit - b'0'),
        b'a'..=b'f' => Some(digit - b'a' + 10),
        _ => None,
    }
}
