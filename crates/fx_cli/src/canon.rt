ghost use Rattle.fx_io.specs.Writing.{Puts};
ghost use Rattle.fx_script.specs.Canonical.{HasText, canonical};

use crate::lines::put_lines;
use fx_io::{PutEnd, Sink};
use fx_script::{Job, print_job};
use std::alloc::Global;

/// Writes the canonical text of a job. Some text spells the job, its spots aside, as is so for every job that was
/// read.
pub fn write_canonical<K: Sink>(alloc: Global, job: &Job, sink: &mut K) -> Result<(), PutEnd>
    requires { HasText job.now }
    ensures { Puts (K.state sink.old) (K.state sink.new) (canonical job.now) result }
{
    let text = print_job(alloc, job)?;
    put_lines(text.as_slice(), sink)
}
