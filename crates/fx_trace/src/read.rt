ghost use Rattle.std.specs.Prelude.{◌≡◌, ◌+◌, ◌<◌, ℕ, IfOk};
ghost use Rattle.fx_lines.specs.Forms.{Form, WordForm, before, nothing};
ghost use Rattle.fx_trace.specs.Reads.{Gives};

use crate::pieces::Pieces;
use fx_base::NoMemory;
use fx_lines::ItemFault;
use std::alloc::Global;

/// Why a line gives no item.
#[derive(Clone, Copy, Debug, PartialEq, Eq)]
pub enum ReadItem {
    /// The line is no item's.
    Refused(ItemFault),
    NoMemory,
}

impl From<NoMemory> for ReadItem {
    ghost use Rattle.fx_trace.specs.declared.read.ReadItem.TheVariants as read_item;

    ghost from_gives = { λ _ result. result ≡ read_item.NoMemory };

    fn from(_: NoMemory) -> Self {
        ReadItem::NoMemory
    }
}

/// A value that is one word.
pub trait Field: Sized + Drop {
    ghost form: { WordForm Self };

    /// The value that the word says, if it says one.
    fn read(alloc: Global, word: &[u8]) -> Result<Option<Self>, NoMemory>
        ensures { IfOk result (λ value. value ≡ form.read word.now) };
}

/// Values that are all that is left of a line.
pub trait Row: Sized + Drop {
    ghost form: { Form Self };

    // The number of fields.
    ghost width: { ℕ };

    /// The values that the words say, where the first of them is field `first`.
    fn read(alloc: Global, first: u8, words: &mut Pieces) -> Result<Self, ReadItem>
        requires { first + width < 256 }
        ensures { Gives result (form.read first words.old) };
}

impl Row for () {
    ghost form = { nothing };

    ghost width = { 0 };

    fn read(_alloc: Global, _first: u8, words: &mut Pieces) -> Result<(), ReadItem> {
        match words.next() {
            None => Ok(()),
            Some(_) => Err(ReadItem::Refused(ItemFault::TrailingText)),
        }
    }
}

impl<A: Field, B: Row> Row for (A, B) {
    ghost form = { before A.form B.form };

    ghost width = { B.width + 1 };

    fn read(alloc: Global, first: u8, words: &mut Pieces) -> Result<Self, ReadItem> {
        let Some(word) = words.next() else {
            return Err(bad_field(first));
        };
        let Some(field) = A::read(alloc, word)? else {
            return Err(bad_field(first));
        };
        let rest = B::read(alloc, first + 1, words)?;
        Ok((field, rest))
    }
}

/// The refusal for a field that is missing or wrong.
pub fn bad_field(number: u8) -> ReadItem
    ensures { result ≡ ReadItem.Refused (ItemFault.BadField number) }
{
    ReadItem::Refused(ItemFault::BadField(number))
}
