ghost use Rattle.std.specs.Prelude.{◌≡◌, None};
ghost use Rattle.fx_script.specs.Canonical.{HasText};
ghost use Rattle.fx_cli.specs.Built.{first_unbuilt};
ghost use Rattle.fx_cli.specs.Ends.{WritesRun};

use fx_check::Accepted;
use fx_io::Sink;
use fx_sched::moments;
use fx_world::{RunEnd, Shown, World};
use std::alloc::Global;

/// Runs the world of a job each line of which can be run, and writes the lines of those items that are shown.
pub fn write_run<K: Sink>(
    alloc: Global,
    job: &Accepted,
    shown: Shown,
    sink: &mut K,
) -> Result<(), RunEnd>
    requires has_text { HasText job.now }
    requires built { first_unbuilt job.now ≡ None }
    ensures { WritesRun job.now shown (K.state sink.old) (K.state sink.new) result }
{
    let mut world = World::new(alloc, job)?;
    let moments = moments(alloc, job)?;
    world.run_all(&moments, job.bound(), shown, sink)?;
    Ok(())
}
