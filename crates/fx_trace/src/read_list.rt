//! The lists that end a line, as they are read.
ghost use Rattle.std.specs.Prelude.{◌≡◌, IfOk};
ghost use Rattle.std.specs.Ordering.{nat_cmp};
ghost use Rattle.fx_base.specs.Keys.{by_time};
ghost use Rattle.fx_lines.specs.Forms.{integer, list_of, listed};
ghost use Rattle.fx_lines.specs.Fields.{a_seat, a_stamp};
ghost use Rattle.fx_lines.specs.Lists.{a_share, an_element, map_of, risen};
ghost use Rattle.fx_trace.specs.Reads.{is_later};

use crate::pieces::Pieces;
use crate::read::{Field, ReadItem, Row, bad_field};
use crate::read_word::{is_word, read_each};
use fx_base::{Bytes, Elems, NoMemory, Seats, Seq, Sparse, Stamp, StampShares, Stamps};
use fx_link::Values;
use std::alloc::Global;

// The values behind the word `:`, where all that follows is right.
fn read_listed<T: Field>(alloc: Global, words: &mut Pieces) -> Result<Option<Seq<T>>, NoMemory>
    ensures { IfOk result (λ list. list ≡ listed T.form.read words.old) }
{
    match words.next() {
        Some(mark) if is_word(mark, b":") => read_each(alloc, words),
        _ => Ok(None),
    }
}

impl Row for Seats {
    ghost form = { list_of a_seat };

    ghost width = { 1 };

    fn read(alloc: Global, first: u8, words: &mut Pieces) -> Result<Self, ReadItem> {
        read_listed(alloc, words)?.ok_or(bad_field(first))
    }
}

impl Row for Elems {
    ghost form = { list_of integer };

    ghost width = { 1 };

    fn read(alloc: Global, first: u8, words: &mut Pieces) -> Result<Self, ReadItem> {
        read_listed(alloc, words)?.ok_or(bad_field(first))
    }
}

impl Row for Values {
    ghost form = { list_of integer };

    ghost width = { 1 };

    fn read(alloc: Global, first: u8, words: &mut Pieces) -> Result<Self, ReadItem> {
        match read_listed(alloc, words)? {
            Some(values) => Ok(Values::of(alloc, values)?),
            None => Err(bad_field(first)),
        }
    }
}

impl Row for Stamps {
    ghost form = { list_of a_stamp };

    ghost width = { 1 };

    fn read(alloc: Global, first: u8, words: &mut Pieces) -> Result<Self, ReadItem> {
        read_listed(alloc, words)?.ok_or(bad_field(first))
    }
}

impl Row for Sparse {
    ghost form = { map_of nat_cmp an_element };

    ghost width = { 1 };

    fn read(alloc: Global, first: u8, words: &mut Pieces) -> Result<Self, ReadItem> {
        let Some(entries) = read_listed::<(u32, i64)>(alloc, words)? else {
            return Err(bad_field(first));
        };
        elements_of(alloc, entries)?.ok_or(bad_field(first))
    }
}

impl Row for StampShares {
    ghost form = { map_of by_time a_share };

    ghost width = { 1 };

    fn read(alloc: Global, first: u8, words: &mut Pieces) -> Result<Self, ReadItem> {
        let Some(entries) = read_listed::<(Stamp, Bytes)>(alloc, words)? else {
            return Err(bad_field(first));
        };
        shares_of(alloc, entries)?.ok_or(bad_field(first))
    }
}

// The map with these entries, where their indices rise.
fn elements_of(alloc: Global, entries: Seq<(u32, i64)>) -> Result<Option<Sparse>, NoMemory>
    ensures { IfOk result (λ elements. elements ≡ risen nat_cmp (Some entries)) }
{
    let mut elements = Sparse::new(alloc);
    let mut least = 0;
    for (index, element) in entries.into_items() {
        if u64::from(index) < least {
            return Ok(None);
        }
        least = u64::from(index) + 1;
        elements.put(index, element)?;
    }
    Ok(Some(elements))
}

// The map with these entries, where their stamps rise.
fn shares_of(alloc: Global, entries: Seq<(Stamp, Bytes)>) -> Result<Option<StampShares>, NoMemory>
    ensures { IfOk result (λ shares. shares ≡ risen by_time (Some entries)) }
{
    let mut shares = StampShares::new(alloc);
    let mut last: Option<Stamp> = None;
    for (stamp, bytes) in entries.into_items() {
        if !is_later(last, stamp) {
            return Ok(None);
        }
        last = Some(stamp);
        shares.put(stamp, bytes)?;
    }
    Ok(Some(shares))
}

// Whether a stamp is later than the last one, if there is one.
fn is_later(last: Option<Stamp>, stamp: Stamp) -> bool
    ensures { result ≡ is_later last stamp }
{
    match last {
        None => true,
        Some(last) => last < stamp,
    }
}
