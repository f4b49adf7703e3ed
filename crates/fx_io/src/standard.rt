ghost use Rattle.std.specs.Prelude.{◌≡◌, ◌<◌, ◌≤◌, None, IfSome, length};

use crate::sink::{Sink, WriteStep};
use crate::source::{ReadStep, Source};
use std::io::{Read, Write};
use std::marker::Model;

/// std's `Read` as a source. It tells nothing of what is left, and is seen as the count of its faults.
#[derive(Drop)]
pub struct StdSource<R> {
    inner: R,
    faults: u64,
}

impl<R> Model for StdSource<R> {
    ghost use Rattle.std.specs.Prelude.{ℕ};

    ghost Value = { ℕ };

    ghost view = { λ s. s.faults };
}

impl<R> StdSource<R> {
    /// The source that reads from `inner`, without a fault so far.
    pub fn new(inner: R) -> StdSource<R>
        ensures { result ≡ 0 }
    {
        StdSource { inner, faults: 0 }
    }
}

impl<R: Read> Source for StdSource<R> {
    ghost state = { λ s. record { left = None; faults = s } };

    fn read_some(&mut self, into: &mut [u8]) -> ReadStep {
        match self.inner.read(into) {
            Ok(0) => ReadStep::End,
            Ok(count) => ReadStep::Got(count),
            Err(_) => {
                self.faults = self.faults.saturating_add(1);
                ReadStep::Failed
            }
        }
    }
}

/// std's `Write` as a sink that is flushed after each write. It tells nothing of what is written, and is seen as
/// the count of its faults. A write that takes nothing, or whose flush fails, is a fault.
#[derive(Drop)]
pub struct StdSink<W> {
    inner: W,
    faults: u64,
}

impl<W> Model for StdSink<W> {
    ghost use Rattle.std.specs.Prelude.{ℕ};

    ghost Value = { ℕ };

    ghost view = { λ s. s.faults };
}

impl<W> StdSink<W> {
    /// The sink that writes to `inner`, without a fault so far.
    pub fn new(inner: W) -> StdSink<W>
        ensures { result ≡ 0 }
    {
        StdSink { inner, faults: 0 }
    }
}

impl<W: Write> Sink for StdSink<W> {
    ghost state = { λ s. record { written = None; faults = s } };

    fn write_some(&mut self, piece: &[u8]) -> WriteStep {
        match write_and_flush(&mut self.inner, piece) {
            Some(count) => WriteStep::Took(count),
            None => {
                self.faults = self.faults.saturating_add(1);
                WriteStep::Failed
            }
        }
    }
}

// How many bytes of the front of the piece were written, at least one; None where the write or the flush failed.
fn write_and_flush<W: Write>(inner: &mut W, piece: &[u8]) -> Option<usize>
    ensures { IfSome result (λ count. (0 < count) × (count ≤ length piece.now)) }
{
    let count = inner.write(piece).ok()?;
    inner.flush().ok()?;
    if count == 0 { None } else { Some(count) }
}
