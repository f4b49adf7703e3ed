ghost use Rattle.std.specs.Prelude.{◌≡◌, ◌++◌, map, OnOk};
ghost use Rattle.std.specs.Fmt.{signed_decimal};
ghost use Rattle.fx_text.specs.Written.{Keeps, spaced};
ghost use Rattle.fx_item.specs.declared.item.Item.TheVariants as Item;
ghost use Rattle.fx_link.specs.declared.message.Message.TheVariants as Message;
ghost use Rattle.fx_lines.specs.Items.{line_of};
ghost use Rattle.fx_trace.specs.Printed.{holding_text, item_text, message_text, row_text, row_words, word_of};

use crate::field::{Field, put_slot, put_slots};
use crate::list::Tail;
use crate::rows::{item_rows, message_rows};
use fx_base::{Bytes, CallNo, Elems, Epoch, NoMemory, Proc};
use fx_item::Item;
use fx_link::{Held, Known, Message, Slot, Slots, Values};
use fx_text::{put_numbers, put_word};

/// Prints the line of an item, without a line end, at the end of `out`.
///
/// Where each field has its form, `read_item` reads the same item back: a `join` tells one of the four slots that a process
/// joins with, a name is a name, and slots, or seats, that are joined by commas are at least one. Without memory all that
/// stood in `out` stays in front.
pub fn print_item(item: &Item, out: &mut Bytes) -> Result<(), NoMemory>
    ensures ok { OnOk result (out.new ≡ out.old ++ line_of item.now) }
    ensures keeps { Keeps out.old out.new }
{
    put_item(out, item)
}

/// Prints the line of a message that one process sends to another, as `print_item` does, with no item made of it.
pub fn print_send(p: Proc, q: Proc, message: &Message, out: &mut Bytes) -> Result<(), NoMemory>
    ensures ok { OnOk result (out.new ≡ out.old ++ line_of (Item.Send p q message.now)) }
    ensures keeps { Keeps out.old out.new }
{
    put_numbered(out, b"send", &[i64::from(p.0), i64::from(q.0)])?;
    put_message(out, message)
}

/// Prints the line of a message of one process that another receives, as `print_item` does, with no item made of it.
pub fn print_delivery(p: Proc, q: Proc, message: &Message, out: &mut Bytes) -> Result<(), NoMemory>
    ensures ok { OnOk result (out.new ≡ out.old ++ line_of (Item.Deliver p q message.now)) }
    ensures keeps { Keeps out.old out.new }
{
    put_numbered(out, b"deliver", &[i64::from(p.0), i64::from(q.0)])?;
    put_message(out, message)
}

// The arms that take a value apart: a row for each kind, with its word, its fields and what ends it.
macro_rules! put_arms {
    ({ $put:ident, $out:ident, $value:ident, $type:ident } $($number:literal $kind:ident $word:literal ($($field:ident: $shape:ident),*) $($last:ident: $end:ident)?;)*) => {
        match $value {
            $($type::$kind { $($field,)* $($last)? } => {
                put_ended!($put, $out, $word, &[$(Field::$shape($field)),*] $(, $last: $end)?)
            })*
        }
    };
}

// A row that ends with nothing, with what follows a list's mark, or with what is told in rows of its own.
macro_rules! put_ended {
    ($put:ident, $out:ident, $word:literal, $fields:expr) => {
        $put($out, $word, $fields, Tail::Nothing)
    };
    ($put:ident, $out:ident, $word:literal, $fields:expr, $message:ident: Message) => {{
        $put($out, $word, $fields, Tail::Nothing)?;
        put_message($out, $message)
    }};
    ($put:ident, $out:ident, $word:literal, $fields:expr, $known:ident: Known) => {{
        $put($out, $word, $fields, Tail::Nothing)?;
        put_holding($out, $known)
    }};
    ($put:ident, $out:ident, $word:literal, $fields:expr, $list:ident: $end:ident) => {
        $put($out, $word, $fields, Tail::$end($list))
    };
}

fn put_item(out: &mut Bytes, item: &Item) -> Result<(), NoMemory>
    ensures ok { OnOk result (out.new ≡ out.old ++ item_text item.now) }
    ensures keeps { Keeps out.old out.new }
{
    match item {
        Item::Print { p, e, name, list } => put_print(out, p, e, name, list),
        _ => put_any_item(out, item),
    }
}

// The row of a print. A journal has more of these than of all others, and a function with one row makes room for one.
fn put_print(
    out: &mut Bytes,
    p: &Proc,
    e: &Epoch,
    name: &Bytes,
    list: &Elems,
) -> Result<(), NoMemory>
    ensures ok { OnOk result (out.new ≡ out.old ++ item_text (Item.Print p.now e.now name.now list.now)) }
    ensures keeps { Keeps out.old out.new }
{
    put_row(
        out,
        b"print",
        &[Field::Process(p), Field::Epoch(e), Field::Name(name)],
        Tail::Numbers(list),
    )
}

fn put_any_item(out: &mut Bytes, item: &Item) -> Result<(), NoMemory>
    ensures ok { OnOk result (out.new ≡ out.old ++ item_text item.now) }
    ensures keeps { Keeps out.old out.new }
{
    item_rows!(put_arms! { put_row, out, item, Item })
}

// The words of a message, each behind a space.
fn put_message(out: &mut Bytes, message: &Message) -> Result<(), NoMemory>
    ensures ok { OnOk result (out.new ≡ out.old ++ message_text message.now) }
    ensures keeps { Keeps out.old out.new }
{
    match message {
        Message::Part { e, k, elems } => put_part(out, *e, *k, elems),
        Message::Vote { e, k, slot } => put_vote(out, *e, *k, *slot),
        Message::Est { e, k, r, slots } => put_estimate(out, *e, *k, *r, slots),
        _ => put_any_message(out, message),
    }
}

// The row of a part. Most messages are parts, votes and estimates.
fn put_part(out: &mut Bytes, e: Epoch, k: CallNo, elems: &Values) -> Result<(), NoMemory>
    ensures ok { OnOk result (out.new ≡ out.old ++ message_text (Message.Part e k elems.now)) }
    ensures keeps { Keeps out.old out.new }
{
    put_numbered(out, b" part", &[i64::from(e.0), i64::from(k.0)])?;
    Tail::Values(elems).put(out)
}

fn put_vote(out: &mut Bytes, e: Epoch, k: CallNo, slot: Slot) -> Result<(), NoMemory>
    ensures ok { OnOk result (out.new ≡ out.old ++ message_text (Message.Vote e k slot)) }
    ensures keeps { Keeps out.old out.new }
{
    put_numbered(out, b" vote", &[i64::from(e.0), i64::from(k.0)])?;
    put_slot(out, slot)
}

fn put_estimate(out: &mut Bytes, e: Epoch, k: CallNo, r: u8, slots: &Slots) -> Result<(), NoMemory>
    ensures ok { OnOk result (out.new ≡ out.old ++ message_text (Message.Est e k r slots.now)) }
    ensures keeps { Keeps out.old out.new }
{
    put_numbered(
        out,
        b" est",
        &[i64::from(e.0), i64::from(k.0), i64::from(r)],
    )?;
    put_slots(out, slots.as_slice())
}

fn put_any_message(out: &mut Bytes, message: &Message) -> Result<(), NoMemory>
    ensures ok { OnOk result (out.new ≡ out.old ++ message_text message.now) }
    ensures keeps { Keeps out.old out.new }
{
    message_rows!(put_arms! { put_spaced_row, out, message, Message })
}

// What a process says that it holds, each word behind a space.
fn put_holding(out: &mut Bytes, held: &Option<Held>) -> Result<(), NoMemory>
    ensures ok { OnOk result (out.new ≡ out.old ++ holding_text held.now) }
    ensures keeps { Keeps out.old out.new }
{
    match held {
        None => put_spaced_row(out, b"unknown", &[], Tail::Nothing),
        Some(held) => put_known(out, held.get()),
    }
}

fn put_known(out: &mut Bytes, known: &Known) -> Result<(), NoMemory>
    ensures ok { OnOk result (out.new ≡ out.old ++ holding_text (Some known.now)) }
    ensures keeps { Keeps out.old out.new }
{
    put_spaced_row(
        out,
        b"known",
        &[
            Field::Epoch(&known.created),
            Field::Stamp(&known.next),
            Field::Seats(&known.comm),
        ],
        Tail::Stamps(&known.stamps),
    )
}

// A row of fields behind the word that begins it.
fn put_row(out: &mut Bytes, word: &[u8], fields: &[Field], tail: Tail) -> Result<(), NoMemory>
    ensures ok { OnOk result (out.new ≡ out.old ++ row_text word.now fields.now tail.entry) }
    ensures keeps { Keeps out.old out.new }
{
    out.append(word)?;
    put_fields(out, fields)?;
    tail.put(out)
}

// The same behind a space.
fn put_spaced_row(
    out: &mut Bytes,
    word: &[u8],
    fields: &[Field],
    tail: Tail,
) -> Result<(), NoMemory>
    ensures ok { OnOk result (out.new ≡ out.old ++ spaced (row_words word.now fields.now tail.entry)) }
    ensures keeps { Keeps out.old out.new }
{
    put_word(out, word)?;
    put_fields(out, fields)?;
    tail.put(out)
}

// Numbers behind the bytes that begin a row.
fn put_numbered(out: &mut Bytes, word: &[u8], numbers: &[i64]) -> Result<(), NoMemory>
    ensures ok { OnOk result (out.new ≡ out.old ++ (word.now ++ spaced (map signed_decimal numbers.now))) }
    ensures keeps { Keeps out.old out.new }
{
    out.append(word)?;
    put_numbers(out, numbers)
}

fn put_fields(out: &mut Bytes, fields: &[Field]) -> Result<(), NoMemory>
    ensures ok { OnOk result (out.new ≡ out.old ++ spaced (map word_of fields.now)) }
    ensures keeps { Keeps out.old out.new }
{
    for field in fields {
        field.put(out)?;
    }
    Ok(())
}
