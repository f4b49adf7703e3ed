ghost use Rattle.std.specs.Prelude.{◌≡◌, ◌≤◌, [], Some, min, length, take};

use crate::sink::{Sink, WriteStep};
use crate::source::{ReadStep, Source};
use fx_base::Bytes;
use std::alloc::Global;
use std::marker::Model;

/// A source in memory that never fails. It is seen as the bytes that are left.
#[derive(Drop)]
pub struct SureSource {
    held: Bytes,
    at: usize,
}

impl Model for SureSource {
    ghost use Rattle.std.specs.Prelude.{List, ℕ, ◌≤◌, drop, length};

    ghost Value = { List ℕ };

    ghost view = { λ s. drop s.at s.held };

    ghost invariant = { λ s. s.at ≤ length s.held };
}

impl SureSource {
    /// A source of these bytes.
    pub fn new(held: Bytes) -> SureSource
        ensures { result ≡ held }
    {
        SureSource { held, at: 0 }
    }
}

impl Source for SureSource {
    ghost state = { λ s. record { left = Some s; faults = 0 } };

    fn read_some(&mut self, into: &mut [u8]) -> ReadStep {
        let (_, rest) = self.held.as_slice().split_at(self.at);
        if rest.is_empty() {
            return ReadStep::End;
        }
        let count = copy_front(rest, into, rest.len());
        self.at += count;
        ReadStep::Got(count)
    }
}

/// A sink in memory that never fails. It is seen as the bytes that were written.
#[derive(Drop)]
pub struct SureSink {
    held: Bytes,
}

impl Model for SureSink {
    ghost use Rattle.std.specs.Prelude.{List, ℕ};

    ghost Value = { List ℕ };

    ghost view = { λ k. k.held };
}

impl SureSink {
    /// A sink to which nothing was written yet.
    pub fn new(alloc: Global) -> SureSink
        ensures { result ≡ [] }
    {
        SureSink {
            held: Bytes::new(alloc),
        }
    }

    /// All that was written.
    pub fn written(&self) -> &Bytes
        ensures { result.now ≡ self.now }
    {
        &self.held
    }
}

impl Sink for SureSink {
    ghost state = { λ k. record { written = Some k; faults = 0 } };

    fn write_some(&mut self, piece: &[u8]) -> WriteStep {
        match self.held.append(piece) {
            Ok(()) => WriteStep::Took(piece.len()),
            Err(_) => WriteStep::NoMemory,
        }
    }
}

// Copies as many bytes as the least of what there is, what there is room for, and `most`.
pub fn copy_front(from: &[u8], into: &mut [u8], most: usize) -> usize
    ensures count { result ≡ min most (min (length from.now) (length into.old)) }
    ensures bytes { take result into.new ≡ take result from.now }
{
    let count = most.min(from.len().min(into.len()));
    into[..count].copy_from_slice(&from[..count]);
    count
}
