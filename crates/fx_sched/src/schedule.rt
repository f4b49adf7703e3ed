ghost use Rattle.std.specs.Prelude.{◌≡◌, pos, All, IfOk, true};
ghost use Rattle.fx_check.specs.Rules.{is_event_in_range, is_process, procs_of};
ghost use Rattle.fx_sched.specs.Moments.{AreMoments, IsAmong, event_of};

use crate::moment::{Moment, Moments};
use fx_base::{NoMemory, Proc};
use fx_check::Accepted;
use fx_script::EventKind;
use std::alloc::Global;

// Each number is one of the job's processes, or of its rounds: both are small.
fn proc(number: i64) -> Proc
    requires { is_process 16 number ≡ true }
    ensures { pos result.0 ≡ number }
{
    Proc(number as u8)
}

/// The moment that an event stands for.
fn moment_of(kind: EventKind) -> Moment
    requires { is_event_in_range 16 kind ≡ true }
    ensures { event_of result ≡ kind }
{
    match kind {
        EventKind::Step(process) => Moment::Step(proc(process)),
        EventKind::Rest(process) => Moment::Rest(proc(process)),
        EventKind::Deliver(from, to) => Moment::Deliver(proc(from), proc(to)),
        EventKind::Kill(process) => Moment::Kill(proc(process)),
        EventKind::Notice(lost, to) => Moment::Notice(proc(lost), proc(to)),
        EventKind::Run(rounds) => Moment::Run(rounds as u32),
    }
}

/// The events of a job, one for one and in order. Each process in them is one of the job's.
pub fn moments(alloc: Global, job: &Accepted) -> Result<Moments, NoMemory>
    ensures exact { IfOk result (λ moments. AreMoments job.now moments) }
    ensures among { IfOk result (All (IsAmong (procs_of job.now))) }
{
    let mut moments = Moments::new(alloc);
    for event in job.job().events.as_slice() {
        moments.push(moment_of(event.kind))?;
    }
    Ok(moments)
}
