ghost use Rattle.std.specs.Prelude.{◌≡◌, ◌∷◌, []};
ghost use Rattle.fx_check.specs.Acceptance.{RefusesAs, callback_body_lines, callback_line, callbacks_lines, first_refused};
ghost use Rattle.fx_check.specs.Facts.{facts_of};

use crate::fault::{CheckJob, StaticFault};
use crate::limits::MOST_CALLBACKS;
use crate::lookup::{is_called, is_declared};
use crate::surroundings::Surroundings;
use crate::tables::IndexedJob;
use crate::walk::check_stmt;
use fx_script::{Callback, Stmt};
use std::alloc::Global;

/// Checks the callbacks of a job.
pub fn check_callbacks(
    alloc: Global,
    job: &IndexedJob,
    callbacks: &[Callback],
) -> Result<(), CheckJob>
    ensures { RefusesAs result (first_refused (callbacks_lines (facts_of job.now) [] callbacks.now)) }
{
    for (index, callback) in callbacks.iter().enumerate() {
        check_callback(job, &callbacks[..index], callback)?;
        check_body(alloc, job, callback.body.as_slice())?;
    }
    Ok(())
}

// Checks the first line of a callback behind these.
fn check_callback(
    job: &IndexedJob,
    before: &[Callback],
    callback: &Callback,
) -> Result<(), CheckJob>
    ensures { RefusesAs result (first_refused (callback_line (facts_of job.now) before.now callback.now ∷ [])) }
{
    let name = callback.name.as_slice();
    if is_declared(name, job.names()) || is_called(name, before) {
        return Err(CheckJob::Refused(StaticFault::NameTwice, callback.spot));
    }
    if before.len() >= MOST_CALLBACKS {
        return Err(CheckJob::Refused(StaticFault::OutOfRange, callback.spot));
    }
    Ok(())
}

// Checks the statements of a callback.
fn check_body(alloc: Global, job: &IndexedJob, body: &[Stmt]) -> Result<(), CheckJob>
    ensures { RefusesAs result (first_refused (callback_body_lines (facts_of job.now) 0 body.now)) }
{
    for (index, statement) in body.iter().enumerate() {
        check_stmt(alloc, job, Surroundings::callback(index as u64), statement)?;
    }
    Ok(())
}
