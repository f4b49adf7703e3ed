ghost use Rattle.std.specs.Prelude.{◌≡◌, [], ◌∷◌, ◌++◌, IfOk, OnOk, codes, map};
ghost use Rattle.fx_script.specs.Canonical.{HasText, SpellsAlone, canonical, entry_line, line_of_words, text_of};
ghost use Rattle.fx_script.specs.Spelling.{anywhere, callback_entries, chained, decl_entry, event_entry, event_words, heading};

use crate::job::{Callback, Decl, Event, EventKind, Job};
use crate::print_line::{put_bare, put_named, put_numbered, put_sized, put_two_numbered};
use crate::print_stmt::put_block;
use fx_base::{Bytes, NoMemory};
use std::alloc::Global;

/// The canonical text of a job: its lines with one space between words, none elsewhere, and no comments or blank
/// lines. The job must be one that some text spells, spots aside; every job that was read is one. What is printed
/// then spells the job and, spots aside, no other. So it is read again as the same job but for the spots.
pub fn print_job(alloc: Global, job: &Job) -> Result<Bytes, NoMemory>
    requires { HasText job.now }
    // What is printed is this text.
    ensures canonical { IfOk result (λ text. text ≡ canonical job.now) }
    // It spells the job and, spots aside, no other.
    ensures alone { IfOk result (λ text. SpellsAlone text job.now) }
{
    let mut text = Bytes::new(alloc);
    put_job(&mut text, job)?;
    Ok(text)
}

fn put_job(out: &mut Bytes, job: &Job) -> Result<(), NoMemory>
    ensures { OnOk result (out.new ≡ out.old ++ canonical job.now) }
{
    put_heading(out, job)?;
    put_names(out, job.names.as_slice())?;
    put_callbacks(out, job.callbacks.as_slice())?;
    put_bare(out, b"begin")?;
    put_block(out, job.body.as_slice(), b"end")?;
    put_schedule(out, job.events.as_slice())
}

// The first lines of a job.
fn put_heading(out: &mut Bytes, job: &Job) -> Result<(), NoMemory>
    ensures { OnOk result (out.new ≡ out.old ++ text_of (heading job.now)) }
{
    put_bare(out, b"fenix 1")?;
    put_numbered(out, b"ranks", job.ranks)?;
    put_numbered(out, b"spares", job.spares)?;
    put_numbered(out, b"separation", job.separation)
}

fn put_names(out: &mut Bytes, names: &[Decl]) -> Result<(), NoMemory>
    ensures { OnOk result (out.new ≡ out.old ++ text_of (map decl_entry names.now)) }
{
    for decl in names {
        put_decl(out, decl)?;
    }
    Ok(())
}

fn put_decl(out: &mut Bytes, decl: &Decl) -> Result<(), NoMemory>
    ensures { OnOk result (out.new ≡ out.old ++ entry_line (decl_entry decl.now)) }
{
    match decl {
        Decl::Array { name, len, .. } => put_sized(out, b"array", name.as_slice(), *len),
        Decl::Counter { name, .. } => put_named(out, b"counter", name.as_slice()),
    }
}

fn put_callbacks(out: &mut Bytes, callbacks: &[Callback]) -> Result<(), NoMemory>
    ensures { OnOk result (out.new ≡ out.old ++ text_of (chained (map callback_entries callbacks.now))) }
{
    for callback in callbacks {
        put_callback(out, callback)?;
    }
    Ok(())
}

fn put_callback(out: &mut Bytes, callback: &Callback) -> Result<(), NoMemory>
    ensures { OnOk result (out.new ≡ out.old ++ text_of (callback_entries callback.now)) }
{
    put_named(out, b"callback", callback.name.as_slice())?;
    put_block(out, callback.body.as_slice(), b"endcallback")
}

// The schedule with its first and its last line.
fn put_schedule(out: &mut Bytes, events: &[Event]) -> Result<(), NoMemory>
    ensures { OnOk result (out.new ≡ out.old ++ text_of (anywhere (codes "schedule") ∷ (map event_entry events.now ++ anywhere (codes "stop") ∷ []))) }
{
    put_bare(out, b"schedule")?;
    put_events(out, events)?;
    put_bare(out, b"stop")
}

fn put_events(out: &mut Bytes, events: &[Event]) -> Result<(), NoMemory>
    ensures { OnOk result (out.new ≡ out.old ++ text_of (map event_entry events.now)) }
{
    for event in events {
        put_event(out, event.kind)?;
    }
    Ok(())
}

fn put_event(out: &mut Bytes, kind: EventKind) -> Result<(), NoMemory>
    ensures { OnOk result (out.new ≡ out.old ++ (line_of_words (event_words kind) ++ 10 ∷ [])) }
{
    match kind {
        EventKind::Step(process) => put_numbered(out, b"step", process),
        EventKind::Rest(process) => put_numbered(out, b"rest", process),
        EventKind::Deliver(from, to) => put_two_numbered(out, b"deliver", from, to),
        EventKind::Kill(process) => put_numbered(out, b"kill", process),
        EventKind::Notice(lost, to) => put_two_numbered(out, b"notice", lost, to),
        EventKind::Run(rounds) => put_numbered(out, b"run", rounds),
    }
}
