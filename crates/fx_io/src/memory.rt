ghost use Rattle.std.specs.Prelude.{◌≡◌, ◌<◌, [], length};
ghost use Rattle.std.specs.List.{list_any};
ghost use Rattle.fx_io.specs.Held.{is_number};
ghost use Rattle.fx_io.specs.Reading.{Reads};
ghost use Rattle.fx_io.specs.Writing.{Writes};

use crate::sink::{Sink, WriteStep};
use crate::source::{ReadStep, Source};
use crate::sure::copy_front;
use fx_base::{Bytes, Elems};
use std::alloc::Global;
use std::marker::Model;

/// A source in memory that gives its bytes in pieces of at most `chunk`, and fails at some calls.
#[derive(Drop)]
pub struct MemSource {
    held: Bytes,
    at: usize,
    chunk: usize,
    failing: Elems,
    calls: u64,
    faults: u64,
}

impl Model for MemSource {
    ghost use Rattle.std.specs.Prelude.{◌≤◌, ◌<◌, drop, length};
    ghost use Rattle.fx_io.specs.Held.{HeldSource};

    ghost Value = { HeldSource };

    ghost view = { λ s. record {
      left = drop s.at s.held;
      chunk = s.chunk;
      failing = s.failing;
      calls = s.calls;
      faults = s.faults;
    } };

    ghost invariant = { λ s. (s.at ≤ length s.held) × (0 < s.chunk) };
}

impl MemSource {
    /// A source of these bytes. The calls of `read_some` are numbered from 1, and those whose numbers stand in
    /// `failing` fail. `chunk` is at least 1.
    pub fn new(held: Bytes, chunk: usize, failing: Elems) -> MemSource
        requires { 0 < chunk }
        ensures { result ≡ record { left = held; chunk = chunk; failing = failing; calls = 0; faults = 0 } }
    {
        MemSource {
            held,
            at: 0,
            chunk,
            failing,
            calls: 0,
            faults: 0,
        }
    }
}

impl Source for MemSource {
    ghost use Rattle.fx_io.specs.Held.{answer_of_source, source_after, source_state};

    ghost state = { source_state };

    fn read_some(&mut self, into: &mut [u8]) -> ReadStep
        requires { 0 < length into.old }
        ensures reads { Reads (source_state self.old) (source_state self.new) into.new result }
        ensures answer { result ≡ answer_of_source self.old (length into.old) }
        ensures after { self.new ≡ source_after self.old result }
    {
        self.calls = self.calls.saturating_add(1);
        if is_among(self.failing.as_slice(), self.calls) {
            self.faults = self.faults.saturating_add(1);
            return ReadStep::Failed;
        }
        let (_, rest) = self.held.as_slice().split_at(self.at);
        if rest.is_empty() {
            return ReadStep::End;
        }
        let count = copy_front(rest, into, self.chunk);
        self.at += count;
        ReadStep::Got(count)
    }
}

/// A sink in memory that takes each piece whole, and fails at some calls.
#[derive(Drop)]
pub struct MemSink {
    held: Bytes,
    failing: Elems,
    calls: u64,
    faults: u64,
}

impl Model for MemSink {
    ghost use Rattle.fx_io.specs.Held.{HeldSink};

    ghost Value = { HeldSink };

    ghost view = { λ k. record { written = k.held; failing = k.failing; calls = k.calls; faults = k.faults } };
}

impl MemSink {
    /// A sink to which nothing was written yet. The calls of `write_some` are numbered from 1, and those whose
    /// numbers stand in `failing` fail.
    pub fn new(alloc: Global, failing: Elems) -> MemSink
        ensures { result ≡ record { written = []; failing = failing; calls = 0; faults = 0 } }
    {
        MemSink {
            held: Bytes::new(alloc),
            failing,
            calls: 0,
            faults: 0,
        }
    }

    /// All that was written.
    pub fn written(&self) -> &Bytes
        ensures { result.now ≡ self.now.written }
    {
        &self.held
    }
}

impl Sink for MemSink {
    ghost use Rattle.fx_io.specs.Held.{AnswersPiece, sink_after, sink_state};

    ghost state = { sink_state };

    fn write_some(&mut self, piece: &[u8]) -> WriteStep
        requires { 0 < length piece.now }
        ensures writes { Writes (sink_state self.old) (sink_state self.new) piece.now result }
        ensures answer { AnswersPiece self.old (length piece.now) result }
        ensures after { self.new ≡ sink_after self.old piece.now result }
    {
        self.calls = self.calls.saturating_add(1);
        if is_among(self.failing.as_slice(), self.calls) {
            self.faults = self.faults.saturating_add(1);
            return WriteStep::Failed;
        }
        match self.held.append(piece) {
            Ok(()) => WriteStep::Took(piece.len()),
            Err(_) => WriteStep::NoMemory,
        }
    }
}

// Whether the number of a call stands in a list.
fn is_among(numbers: &[i64], call: u64) -> bool
    ensures { result ≡ list_any (is_number call) numbers.now }
{
    numbers.iter().any(|number| is_number(*number, call))
}

fn is_number(number: i64, call: u64) -> bool
    ensures { result ≡ is_number call number }
{
    number >= 0 && number as u64 == call
}
