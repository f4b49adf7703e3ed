ghost use Rattle.std.specs.Prelude.{map, string_bytes};
ghost use Rattle.fx_cli.specs.Dues.{due_to, input_of};
ghost use Rattle.fx_cli.specs.Ends.{IsInMemory};

use crate::program::fenix;
use crate::status::Status;
use fx_base::Bytes;
use fx_io::{SureSink, SureSource};
use std::alloc::Global;

/// Runs the program over bytes in memory, which never fail: the status, and the sink with all that was written.
///
/// They are exactly what is due, unless memory runs out.
pub fn fenix_in_memory(alloc: Global, words: &[String], held: Bytes) -> (Status, SureSink)
    ensures { IsInMemory (due_to (input_of (map string_bytes words.now) held)) result.1 result.0 }
{
    let mut source = SureSource::new(held);
    let mut sink = SureSink::new(alloc);
    let status = fenix(alloc, words, &mut source, &mut sink);
    (status, sink)
}
