ghost use Rattle.std.specs.Prelude.{◌≡◌, ◌∷◌, [], IfOk, length};
ghost use Rattle.std.specs.List.{filter};
ghost use Rattle.fx_check.specs.Acceptance.{RefusesAs, decl_line, decl_lines, event_lines, first_refused, has_decl_room, head_lines, is_decl_in_range};
ghost use Rattle.fx_check.specs.Facts.{is_array_decl, is_counter_decl};
ghost use Rattle.fx_check.specs.Rules.{is_event_in_range, procs_of};

use crate::fault::{CheckJob, StaticFault};
use crate::limits::{
    LAST_SEPARATION, MOST_ARRAYS, MOST_COUNTERS, MOST_ELEMENTS, MOST_EVENTS, MOST_PROCS,
    MOST_ROUNDS,
};
use crate::lookup::{decl_spot, is_declared, name_of};
use crate::range::{is_between, is_process};
use fx_script::{Decl, Event, EventKind, Job};

/// Checks the first lines of a job, and gives how many processes it has.
pub fn check_head(job: &Job) -> Result<u8, CheckJob>
    ensures same { IfOk result (λ procs. procs ≡ procs_of job.now) }
    ensures exact { RefusesAs result (first_refused (head_lines job.now)) }
{
    if !is_between(1, MOST_PROCS, job.ranks) {
        return Err(CheckJob::Refused(StaticFault::OutOfRange, job.ranks_spot));
    }
    if !is_between(0, MOST_PROCS, job.spares) || job.ranks + job.spares > i64::from(MOST_PROCS) {
        return Err(CheckJob::Refused(StaticFault::OutOfRange, job.spares_spot));
    }
    if !is_between(1, LAST_SEPARATION, job.separation) {
        return Err(CheckJob::Refused(StaticFault::OutOfRange, job.separation_spot));
    }
    Ok((job.ranks + job.spares) as u8)
}

/// Checks what a job declares.
pub fn check_names(names: &[Decl]) -> Result<(), CheckJob>
    ensures { RefusesAs result (first_refused (decl_lines [] names.now)) }
{
    for (index, decl) in names.iter().enumerate() {
        check_decl(&names[..index], decl)?;
    }
    Ok(())
}

// Checks a declaration behind these.
fn check_decl(before: &[Decl], decl: &Decl) -> Result<(), CheckJob>
    ensures { RefusesAs result (first_refused (decl_line before.now decl.now ∷ [])) }
{
    if is_declared(name_of(decl), before) {
        return Err(CheckJob::Refused(StaticFault::NameTwice, decl_spot(decl)));
    }
    if !is_decl_in_range(decl) || !has_decl_room(before, decl) {
        return Err(CheckJob::Refused(StaticFault::OutOfRange, decl_spot(decl)));
    }
    Ok(())
}

fn is_decl_in_range(decl: &Decl) -> bool
    ensures { result ≡ is_decl_in_range decl.now }
{
    match decl {
        Decl::Array { len, .. } => is_between(1, MOST_ELEMENTS, *len),
        Decl::Counter { .. } => true,
    }
}

fn has_decl_room(before: &[Decl], decl: &Decl) -> bool
    ensures { result ≡ has_decl_room before.now decl.now }
{
    match decl {
        Decl::Array { .. } => arrays_in(before) < MOST_ARRAYS,
        Decl::Counter { .. } => counters_in(before) < MOST_COUNTERS,
    }
}

fn arrays_in(names: &[Decl]) -> usize
    ensures { result ≡ length (filter is_array_decl names.now) }
{
    names
        .iter()
        .filter(|decl| matches!(decl, Decl::Array { .. }))
        .count()
}

fn counters_in(names: &[Decl]) -> usize
    ensures { result ≡ length (filter is_counter_decl names.now) }
{
    names
        .iter()
        .filter(|decl| matches!(decl, Decl::Counter { .. }))
        .count()
}

/// Checks the events of a job of so many processes.
pub fn check_events(procs: u8, events: &[Event]) -> Result<(), CheckJob>
    ensures { RefusesAs result (first_refused (event_lines procs 0 events.now)) }
{
    for (index, event) in events.iter().enumerate() {
        if !is_event_in_range(procs, event.kind) || index >= MOST_EVENTS {
            return Err(CheckJob::Refused(StaticFault::OutOfRange, event.spot));
        }
    }
    Ok(())
}

fn is_event_in_range(procs: u8, event: EventKind) -> bool
    ensures { result ≡ is_event_in_range procs event }
{
    match event {
        EventKind::Step(process) => is_process(procs, process),
        EventKind::Rest(process) => is_process(procs, process),
        EventKind::Deliver(from, to) => is_process(procs, from) && is_process(procs, to),
        EventKind::Kill(process) => is_process(procs, process),
        EventKind::Notice(lost, to) => is_process(procs, lost) && is_process(procs, to),
        EventKind::Run(rounds) => is_between(1, MOST_ROUNDS, rounds),
    }
}
