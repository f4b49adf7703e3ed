ghost use Rattle.std.specs.Prelude.{◌≡◌, ◌∷◌, [], OnOk};
ghost use Rattle.fx_io.specs.Writing.{Puts};
ghost use Rattle.fx_item.specs.declared.item.Item.TheVariants as Item;
ghost use Rattle.fx_world.specs.Counting.{counted, counted_one, no_counts};
ghost use Rattle.fx_world.specs.Texts.{ended_line, shown_text};

use crate::counts::Counts;
use crate::shown::{Shown, is_shown};
use fx_base::{Bytes, Proc};
use fx_io::{PutEnd, Sink, write_whole};
use fx_item::Item;
use fx_link::Message;
use fx_text::end_line;
use fx_trace::{print_delivery, print_item, print_send};
use std::alloc::Global;
use std::marker::Model;

/// Tells items: counts each, and writes those that are shown. It is seen as the counts so far.
#[derive(Debug, Drop)]
pub(crate) struct Teller {
    counts: Counts,
    line: Bytes,
}

impl Model for Teller {
    ghost use Rattle.fx_world.specs.declared.counts.Counts.{Counts};

    ghost Value = { Counts };

    ghost view = { λ t. t.counts };
}

impl Teller {
    /// Nothing is told yet.
    pub(crate) fn new(alloc: Global) -> Teller
        ensures { result ≡ no_counts }
    {
        Teller {
            counts: Counts::none(),
            line: Bytes::new(alloc),
        }
    }

    /// The counts of all that was told.
    pub(crate) fn counts(&self) -> Counts
        ensures { result ≡ self.now }
    {
        self.counts
    }

    /// Tells an item: where it is shown its line is written, with its line end as one piece.
    pub(crate) fn tell<K: Sink>(
        &mut self,
        item: &Item,
        shown: Shown,
        sink: &mut K,
    ) -> Result<(), PutEnd>
        ensures counts { self.new ≡ counted_one self.old item.now }
        ensures writes { Puts (K.state sink.old) (K.state sink.new) (shown_text shown (item.now ∷ [])) result }
    {
        self.counts.count(item);
        if !is_shown(shown, item) {
            return Ok(());
        }
        put_item(item, &mut self.line, sink)
    }

    /// Tells that a message is sent, as `tell` does, with no item made of it.
    pub(crate) fn tell_send<K: Sink>(
        &mut self,
        p: Proc,
        q: Proc,
        message: &Message,
        shown: Shown,
        sink: &mut K,
    ) -> Result<(), PutEnd>
        ensures counts { self.new ≡ counted_one self.old (Item.Send p q message.now) }
        ensures writes { Puts (K.state sink.old) (K.state sink.new) (shown_text shown (Item.Send p q message.now ∷ [])) result }
    {
        match shown {
            Shown::Wire => put_send(p, q, message, &mut self.line, sink),
            Shown::Journal | Shown::Only(_) | Shown::Nothing => Ok(()),
        }
    }

    /// Tells that a message is received, as `tell` does, with no item made of it.
    pub(crate) fn tell_delivery<K: Sink>(
        &mut self,
        p: Proc,
        q: Proc,
        message: &Message,
        shown: Shown,
        sink: &mut K,
    ) -> Result<(), PutEnd>
        ensures counts { self.new ≡ counted_one self.old (Item.Deliver p q message.now) }
        ensures writes { Puts (K.state sink.old) (K.state sink.new) (shown_text shown (Item.Deliver p q message.now ∷ [])) result }
    {
        match shown {
            Shown::Wire => put_delivery(p, q, message, &mut self.line, sink),
            Shown::Journal | Shown::Only(_) | Shown::Nothing => Ok(()),
        }
    }

    /// Tells items, one after another.
    pub(crate) fn tell_all<K: Sink>(
        &mut self,
        items: &[Item],
        shown: Shown,
        sink: &mut K,
    ) -> Result<(), PutEnd>
        ensures counts { OnOk result (self.new ≡ counted self.old items.now) }
        ensures writes { Puts (K.state sink.old) (K.state sink.new) (shown_text shown items.now) result }
    {
        for item in items {
            self.tell(item, shown, sink)?;
        }
        Ok(())
    }
}

// Writes the line of an item as one piece; `line` is room for it.
fn put_item<K: Sink>(item: &Item, line: &mut Bytes, sink: &mut K) -> Result<(), PutEnd>
    ensures { Puts (K.state sink.old) (K.state sink.new) (ended_line item.now) result }
{
    line.clear();
    print_item(item, line)?;
    end_line(line)?;
    write_whole(sink, line.as_slice())
}

// Writes the line of a message that is sent as one piece; `line` is room for it.
fn put_send<K: Sink>(
    p: Proc,
    q: Proc,
    message: &Message,
    line: &mut Bytes,
    sink: &mut K,
) -> Result<(), PutEnd>
    ensures { Puts (K.state sink.old) (K.state sink.new) (ended_line (Item.Send p q message.now)) result }
{
    line.clear();
    print_send(p, q, message, line)?;
    end_line(line)?;
    write_whole(sink, line.as_slice())
}

// Writes the line of a message that is received as one piece; `line` is room for it.
fn put_delivery<K: Sink>(
    p: Proc,
    q: Proc,
    message: &Message,
    line: &mut Bytes,
    sink: &mut K,
) -> Result<(), PutEnd>
    ensures { Puts (K.state sink.old) (K.state sink.new) (ended_line (Item.Deliver p q message.now)) result }
{
    line.clear();
    print_delivery(p, q, message, line)?;
    end_line(line)?;
    write_whole(sink, line.as_slice())
}
