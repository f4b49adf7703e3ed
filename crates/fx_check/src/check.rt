ghost use Rattle.std.specs.Prelude.{◌≡◌, IfOk};
ghost use Rattle.fx_script.specs.Canonical.{HasText};
ghost use Rattle.fx_check.specs.Acceptance.{RefusesAs, IsAccepted, IsUnrefused, first_refused, lines_of, refusal_of};
ghost use Rattle.fx_check.specs.Rules.{procs_of};

use crate::accepted::Accepted;
use crate::callbacks::check_callbacks;
use crate::fault::{CheckJob, StaticFault};
use crate::head::{check_events, check_head, check_names};
use crate::limits::MOST_WORK;
use crate::surroundings::Surroundings;
use crate::tables::IndexedJob;
use crate::walk::check_stmts;
use crate::work::work_up_to_limit;
use fx_script::Job;
use std::alloc::Global;

/// Checks a job. Some text spells it, its spots aside, as is so for every job that was read.
///
/// A job that breaks a rule is refused at the first line that does, for the first of its reasons;
/// too much work comes last, at the line `begin`. A refused job is dropped.
pub fn check_job(alloc: Global, job: Job) -> Result<Accepted, CheckJob>
    requires { HasText job }
    // What is accepted is this job.
    ensures same { IfOk result (λ accepted. accepted ≡ job) }
    // What is accepted keeps every rule.
    ensures accepted { IfOk result (λ accepted. IsAccepted accepted) }
    // A job that keeps every rule isn't refused.
    ensures only { IsAccepted job → IsUnrefused result }
    // Which refusal it is: none exactly where the job keeps every rule.
    ensures exact { RefusesAs result (refusal_of job) }
{
    check_exactly(alloc, job)
}

fn check_exactly(alloc: Global, job: Job) -> Result<Accepted, CheckJob>
    requires { HasText job }
    ensures same { IfOk result (λ accepted. accepted ≡ job) }
    ensures exact { RefusesAs result (refusal_of job) }
{
    let procs = check_lines(alloc, &job)?;
    let work = work_up_to_limit(job.body.as_slice());
    if work > MOST_WORK {
        return Err(CheckJob::Refused(StaticFault::TooMuchWork, job.begin_spot));
    }
    Ok(Accepted::new(job, procs, work))
}

// Checks the lines of a job in their order, and gives how many processes it has.
fn check_lines(alloc: Global, job: &Job) -> Result<u8, CheckJob>
    ensures same { IfOk result (λ procs. procs ≡ procs_of job.now) }
    ensures exact { RefusesAs result (first_refused (lines_of job.now)) }
{
    let procs = check_head(job)?;
    check_names(job.names.as_slice())?;
    let indexed = IndexedJob::new(alloc, job)?;
    check_callbacks(alloc, &indexed, job.callbacks.as_slice())?;
    check_stmts(alloc, &indexed, Surroundings::body(), job.body.as_slice())?;
    check_events(procs, job.events.as_slice())?;
    Ok(procs)
}
