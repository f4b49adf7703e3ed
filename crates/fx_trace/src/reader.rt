ghost use Rattle.std.specs.Prelude.{◌≡◌, true, IfOk, option_and_then, slice_get};
ghost use Rattle.fx_lines.specs.Forms.{as_one_field, kind_named, read_kind, tabled};
ghost use Rattle.fx_lines.specs.Items.{is_writable, item_in, items};
ghost use Rattle.fx_lines.specs.Messages.{holdings, messages};
ghost use Rattle.fx_trace.specs.Reads.{Gives};

use crate::pieces::Pieces;
use crate::read::{ReadItem, Row, bad_field};
use crate::read_word::{JoinKind, is_word};
use crate::rows::{item_rows, message_rows};
use crate::shape;
use crate::table::LineTable;
use fx_item::Item;
use fx_lines::ItemFault;
use fx_link::{Held, Known, Message};
use std::alloc::Global;

/// The item that a line tells, without its line end.
///
/// A line that is no item's is refused for what is first wrong in it from the left: `NoSuchKind` for its first word,
/// `BadField` for a field that is missing or wrong, `TrailingText` for words behind the last field.
pub fn read_item(alloc: Global, line: &[u8]) -> Result<Item, ReadItem>
    ensures answer { Gives result (item_in line.now) }
    ensures writable { IfOk result (λ item. is_writable item ≡ true) }
{
    read_line(alloc, line)
}

fn read_line(alloc: Global, line: &[u8]) -> Result<Item, ReadItem>
    ensures { Gives result (item_in line.now) }
{
    let mut words = Pieces::new(b' ', line);
    let Some(word) = words.next() else {
        return Err(no_such_kind());
    };
    let Some(number) = item_number(word) else {
        return Err(no_such_kind());
    };
    read_item_row(alloc, number, &mut words)
}

// The words of a table's rows.
macro_rules! words {
    ({} $($number:literal $kind:ident $word:literal ($($field:ident: $shape:ident),*) $($last:ident: $end:ident)?;)*) => {
        LineTable { words: &[$($word),*] }
    };
}

static ITEMS: LineTable<29> = item_rows!(words! {});

static MESSAGES: LineTable<9> = message_rows!(words! {});

// The number of the kind of item with this word.
fn item_number(word: &[u8]) -> Option<usize>
    ensures { option_and_then (slice_get items.kinds) result ≡ kind_named items word.now }
{
    ITEMS.number_of(word)
}

// The number of the kind of message with this word.
fn message_number(word: &[u8]) -> Option<usize>
    ensures { option_and_then (slice_get messages.kinds) result ≡ kind_named messages word.now }
{
    MESSAGES.number_of(word)
}

// The arms that put a value together: a row for each kind, by its number.
macro_rules! read_arms {
    ({ $given:ident, $alloc:ident, $first:expr, $words:ident, $type:ident } $($number:literal $kind:ident $word:literal ($($field:ident: $shape:ident),*) $($last:ident: $end:ident)?;)*) => {
        match $given {
            $($number => {
                let row_pattern!($($field: $shape,)* $($last)?) =
                    <row_type!($($shape),* $(; $end)?)>::read($alloc, $first, $words)?;
                Ok($type::$kind { $($field,)* $($last)? })
            })*
            _ => Err(no_such_kind()),
        }
    };
}

// The type of a row: each field before those that follow it.
macro_rules! row_type {
    () => { () };
    (; $end:ident) => { shape::$end };
    ($shape:ident $(, $others:ident)* $(; $end:ident)?) => {
        (shape::$shape, row_type!($($others),* $(; $end)?))
    };
}

// The names of a row's fields, as the row has them.
macro_rules! row_pattern {
    () => { () };
    ($last:ident) => { $last };
    ($field:ident: JoinKind, $($others:tt)*) => { (JoinKind($field), row_pattern!($($others)*)) };
    ($field:ident: $shape:ident, $($others:tt)*) => { ($field, row_pattern!($($others)*)) };
}

// The item of the kind with this number, from the words behind its first.
fn read_item_row(alloc: Global, number: usize, words: &mut Pieces) -> Result<Item, ReadItem>
    ensures { Gives result (read_kind items 0 (slice_get items.kinds number) words.old) }
{
    item_rows!(read_arms! { number, alloc, 1, words, Item })
}

// The message of the kind with this number, from the words behind its first.
fn read_message_row(alloc: Global, number: usize, words: &mut Pieces) -> Result<Message, ReadItem>
    ensures { Gives result (read_kind messages 0 (slice_get messages.kinds number) words.old) }
{
    message_rows!(read_arms! { number, alloc, 1, words, Message })
}

// The refusal of a first word that names no kind.
fn no_such_kind() -> ReadItem
    ensures { result ≡ ReadItem.Refused ItemFault.NoSuchKind }
{
    ReadItem::Refused(ItemFault::NoSuchKind)
}

/// A message is one field: whatever is wrong in it, that field is.
impl Row for Message {
    ghost form = { as_one_field (tabled messages) };

    ghost width = { 1 };

    fn read(alloc: Global, first: u8, words: &mut Pieces) -> Result<Self, ReadItem> {
        let Some(word) = words.next() else {
            return Err(bad_field(first));
        };
        let Some(number) = message_number(word) else {
            return Err(bad_field(first));
        };
        match read_message_row(alloc, number, words) {
            Err(ReadItem::Refused(_)) => Err(bad_field(first)),
            answer => answer,
        }
    }
}

/// What a process says that it holds.
impl Row for Option<Held> {
    ghost form = { tabled holdings };

    ghost width = { 5 };

    fn read(alloc: Global, first: u8, words: &mut Pieces) -> Result<Self, ReadItem> {
        match words.next() {
            Some(word) if is_word(word, b"unknown") => {
                <()>::read(alloc, first + 1, words)?;
                Ok(None)
            }
            Some(word) if is_word(word, b"known") => {
                let (created, (next, (comm, stamps))) =
                    <row_type!(Epoch, Stamp, Seats; Stamps)>::read(alloc, first + 1, words)?;
                let known = Known {
                    created,
                    next,
                    comm,
                    stamps,
                };
                Ok(Some(Held::new(alloc, known)?))
            }
            _ => Err(no_such_kind()),
        }
    }
}
