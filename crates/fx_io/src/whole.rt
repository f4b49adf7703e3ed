ghost use Rattle.std.specs.Prelude.{◌≡◌};
ghost use Rattle.fx_io.specs.Reading.{ReadsWhole};
ghost use Rattle.fx_io.specs.Writing.{Puts};
ghost use Rattle.fx_io.specs.declared.whole.WholeEnd.TheVariants as whole_end;
ghost use Rattle.fx_io.specs.declared.whole.PutEnd.TheVariants as put_end;

use crate::sink::{Sink, WriteStep};
use crate::source::{ReadStep, Source};
use fx_base::{Bytes, NoMemory};
use std::alloc::Global;

/// Why a source wasn't read to its end.
#[derive(Clone, Copy, Debug, PartialEq, Eq)]
pub enum WholeEnd {
    /// More bytes came than the limit.
    TooLong,
    /// The source failed, and its count of faults rose.
    Failed,
    /// Memory ran out.
    NoMemory,
}

impl From<NoMemory> for WholeEnd {
    ghost from_gives = { λ _ e. e ≡ whole_end.NoMemory };

    fn from(_error: NoMemory) -> WholeEnd {
        WholeEnd::NoMemory
    }
}

/// Why a piece wasn't written whole.
#[derive(Clone, Copy, Debug, PartialEq, Eq)]
pub enum PutEnd {
    /// The sink failed, and its count of faults rose.
    Failed,
    /// Memory ran out.
    NoMemory,
}

impl From<NoMemory> for PutEnd {
    ghost from_gives = { λ _ e. e ≡ put_end.NoMemory };

    fn from(_error: NoMemory) -> PutEnd {
        PutEnd::NoMemory
    }
}

const PIECE: usize = 4096;

/// All that a source holds. It is asked in pieces of at most 4,096 bytes until it says `End`, and not again.
///
/// `TooLong` says that more bytes than `limit` came, and is answered as soon as they did. `Failed` says that the source
/// failed, and its count of faults rose.
pub fn read_whole<S: Source>(alloc: Global, source: &mut S, limit: usize) -> Result<Bytes, WholeEnd>
    ensures { ReadsWhole (S.state source.old) (S.state source.new) limit result }
{
    let mut bytes = Bytes::new(alloc);
    let mut piece = [0u8; PIECE];
    loop {
        match source.read_some(&mut piece) {
            ReadStep::Got(count) => {
                if count > limit - bytes.len() {
                    return Err(WholeEnd::TooLong);
                }
                bytes.append(&piece[..count])?;
            }
            ReadStep::End => return Ok(bytes),
            ReadStep::Failed => return Err(WholeEnd::Failed),
        }
    }
}

/// Writes a piece whole. After a refusal a front of the piece was written.
///
/// `Failed` comes only where the sink's count of faults rose in this call.
pub fn write_whole<K: Sink>(sink: &mut K, piece: &[u8]) -> Result<(), PutEnd>
    ensures { Puts (K.state sink.old) (K.state sink.new) piece.now result }
{
    let mut rest = piece;
    while !rest.is_empty() {
        match sink.write_some(rest) {
            WriteStep::Took(count) => {
                let (_, later) = rest.split_at(count);
                rest = later;
            }
            WriteStep::Failed => return Err(PutEnd::Failed),
            WriteStep::NoMemory => return Err(PutEnd::NoMemory),
        }
    }
    Ok(())
}
