ghost use Rattle.std.specs.Prelude.{◌≡◌, ◌≤◌, ℕ, List, IfOk, None, Ok, Some, length, map, string_bytes};
ghost use Rattle.fx_io.specs.Faults.{Rose};
ghost use Rattle.fx_check.specs.Acceptance.{refusal_of};
ghost use Rattle.fx_script.specs.Canonical.{HasText};
ghost use Rattle.fx_script.specs.Reading.{job_in};
ghost use Rattle.fx_cli.specs.Answers.{refusal_line};
ghost use Rattle.fx_cli.specs.Built.{first_unbuilt};
ghost use Rattle.fx_cli.specs.Dues.{WrongWords, due_refusal, due_to, due_to_accepted, due_to_job, due_to_reading, due_to_world, input_of, longest_job, mode_of};
ghost use Rattle.fx_cli.specs.Ends.{DoesWhatIsAsked, Ends, IsCheck, IsDoneUnlessCut, IsGiven, IsRun, IsUnbuilt, IsUnlessCut, IsWired, Settles, settled, status_of_run};

use crate::built::first_unbuilt;
use crate::canon::write_canonical;
use crate::laws::journals_are_legal;
use crate::mode::{Mode, mode_of};
use crate::run::write_run;
use crate::status::{Refusal, Status, reason_of};
use fx_base::{Bytes, NoMemory, Spot};
use fx_check::{Accepted, CheckJob, check_job};
use fx_io::{PutEnd, Sink, Source, WholeEnd, read_whole, write_whole};
use fx_script::{Job, ReadJob, read_job};
use fx_text::push_number;
use fx_world::{RunEnd, Shown};
use std::alloc::Global;

/// The most bytes that a job may have.
const LONGEST_JOB: usize = 1_048_576;

/// Runs the program: from its words and what the source holds to what the sink gets.
///
/// It knows the words `run`, `wire` and `check`, one of them alone. The source is read to its end, the text must spell a
/// job, and the job must be accepted. Then `check` writes the job's canonical text. If each line of its body can be run, `run`
/// writes the journal of its run, and `wire` all that happens in it. Its schedule may have any events: processes are killed
/// and told of losses. Each line is written as one piece with its line end. A refusal is one line.
pub fn fenix<S: Source, K: Sink>(
    alloc: Global,
    words: &[String],
    source: &mut S,
    sink: &mut K,
) -> Status
    // What was read and written, by the status.
    ensures ends { Ends (map string_bytes words.now) (S.state source.old) (S.state source.new) (K.state sink.old) (K.state sink.new) result }
    // Done: a text of an accepted job was read. In modes run and wire each line of its body can be run, its journal is legal and
    // tells the whole schedule, each epoch in it has its loss, each process ends or is killed in it, and exactly the text of its
    // journal was written, or of all that happens; in mode check its canonical text was.
    ensures done { result ≡ Status.Done → DoesWhatIsAsked (mode_of (map string_bytes words.now)) (S.state source.old) (S.state source.new) (K.state sink.old) (K.state sink.new) }
    // No run is left unfinished: the rounds behind the schedule are enough for each process to end.
    ensures never_unfinished { result ≡ Status.Unfinished → ⊥ }
    // Not built: in modes run and wire alone, and the source held a text of an accepted job. The first line that can't be run is
    // there, and it is a line of the body.
    ensures not_built_is_accepted { (spot : Spot) → result ≡ Status.BadJob Refusal.NotBuilt spot → IsUnbuilt (map string_bytes words.now) (S.state source.old) (S.state source.new) spot }
    // Where the source tells what it holds, that and the words fix the status, unless a fault or want of memory cuts the call short.
    ensures status_is_due { (held : List ℕ) → (S.state source.old).left ≡ Some held → IsUnlessCut (due_to (input_of (map string_bytes words.now) held)).status result }
    // The source tells a text that spells an accepted job, each line of its body can be run, and the words ask for its run,
    // whatever its events are: the call is done, unless it is cut short. Exactly the text of the job's journal was written,
    // which is legal; each epoch in it has its loss, and each process ends or is killed in it.
    ensures jobs_are_run { (job : Job) → IsGiven Mode.Run (map string_bytes words.now) (S.state source.old) job → first_unbuilt job ≡ None → IsDoneUnlessCut (IsRun job (K.state sink.old) (K.state sink.new)) result }
    // The same with the word wire: exactly the text of all that happens was written.
    ensures jobs_are_wired { (job : Job) → IsGiven Mode.Wire (map string_bytes words.now) (S.state source.old) job → first_unbuilt job ≡ None → IsDoneUnlessCut (IsWired job (K.state sink.old) (K.state sink.new)) result }
    // The same with the word check: exactly the canonical text of the job was written.
    ensures accepted_jobs_are_printed { (job : Job) → IsGiven Mode.Check (map string_bytes words.now) (S.state source.old) job → IsDoneUnlessCut (IsCheck job (K.state sink.old) (K.state sink.new)) result }
    ensures read_fault_only_if_count_rose { result ≡ Status.ReadFault → Rose (S.state source.old).faults (S.state source.new).faults }
    ensures write_fault_only_if_count_rose { result ≡ Status.WriteFault → Rose (K.state sink.old).faults (K.state sink.new).faults }
    ensures source_count_never_falls { (S.state source.old).faults ≤ (S.state source.new).faults }
    ensures sink_count_never_falls { (K.state sink.old).faults ≤ (K.state sink.new).faults }
{
    journals_are_legal();
    call(alloc, words, source, sink)
}

fn call<S: Source, K: Sink>(alloc: Global, words: &[String], source: &mut S, sink: &mut K) -> Status
    ensures ends { Ends (map string_bytes words.now) (S.state source.old) (S.state source.new) (K.state sink.old) (K.state sink.new) result }
    ensures read_fault_only_if_count_rose { result ≡ Status.ReadFault → Rose (S.state source.old).faults (S.state source.new).faults }
    ensures write_fault_only_if_count_rose { result ≡ Status.WriteFault → Rose (K.state sink.old).faults (K.state sink.new).faults }
    ensures source_count_never_falls { (S.state source.old).faults ≤ (S.state source.new).faults }
    ensures sink_count_never_falls { (K.state sink.old).faults ≤ (K.state sink.new).faults }
{
    let Some(mode) = mode_of(words) else {
        return refuse_words(sink);
    };
    match read_whole(alloc, source, LONGEST_JOB) {
        Ok(text) => answer(alloc, mode, text.as_slice(), sink),
        Err(WholeEnd::TooLong) => refuse(alloc, Refusal::TooBig, Spot { line: 1, column: 1 }, sink),
        Err(WholeEnd::Failed) => Status::ReadFault,
        Err(WholeEnd::NoMemory) => Status::NoMemory,
    }
}

// Answers a whole text.
fn answer<K: Sink>(alloc: Global, mode: Mode, text: &[u8], sink: &mut K) -> Status
    requires { length text.now ≤ longest_job }
    ensures { Settles (due_to_reading mode (job_in text.now)) (K.state sink.old) (K.state sink.new) result }
{
    match read_job(alloc, text) {
        Ok(job) => answer_job(alloc, mode, job, sink),
        Err(ReadJob::Refused(fault, spot)) => refuse(alloc, Refusal::Text(fault), spot, sink),
        Err(ReadJob::NoMemory) => Status::NoMemory,
    }
}

// Answers a job that was read.
fn answer_job<K: Sink>(alloc: Global, mode: Mode, job: Job, sink: &mut K) -> Status
    requires { HasText job }
    ensures { Settles (due_to_job mode job (refusal_of job)) (K.state sink.old) (K.state sink.new) result }
{
    match check_job(alloc, job) {
        Ok(accepted) => answer_accepted(alloc, mode, &accepted, sink),
        Err(CheckJob::Refused(fault, spot)) => refuse(alloc, Refusal::Static(fault), spot, sink),
        Err(CheckJob::NoMemory) => Status::NoMemory,
    }
}

// Answers an accepted job.
fn answer_accepted<K: Sink>(alloc: Global, mode: Mode, job: &Accepted, sink: &mut K) -> Status
    requires { HasText job.now }
    ensures { Settles (due_to_accepted mode job.now) (K.state sink.old) (K.state sink.new) result }
{
    match mode {
        Mode::Run => run(alloc, job, Shown::Journal, sink),
        Mode::Wire => run(alloc, job, Shown::Wire, sink),
        Mode::Check => settled(write_canonical(alloc, job.job(), sink), Status::Done),
    }
}

// Runs an accepted job, or refuses it at its first line that can't be run yet.
fn run<K: Sink>(alloc: Global, job: &Accepted, shown: Shown, sink: &mut K) -> Status
    requires { HasText job.now }
    ensures { Settles (due_to_world shown job.now (first_unbuilt job.now)) (K.state sink.old) (K.state sink.new) result }
{
    match first_unbuilt(job.job()) {
        Some(spot) => refuse(alloc, Refusal::NotBuilt, spot, sink),
        None => status_of_run(write_run(alloc, job, shown, sink)),
    }
}

// Writes the line for words that ask for no mode.
fn refuse_words<K: Sink>(sink: &mut K) -> Status
    ensures { Settles (due_to WrongWords) (K.state sink.old) (K.state sink.new) result }
{
    settled(write_whole(sink, b"fenix: bad words\n"), Status::BadWords)
}

// Writes the line of a refusal.
fn refuse<K: Sink>(alloc: Global, refusal: Refusal, spot: Spot, sink: &mut K) -> Status
    ensures { Settles (due_refusal refusal spot) (K.state sink.old) (K.state sink.new) result }
{
    match refusal_line(alloc, refusal, spot) {
        Ok(line) => settled(
            write_whole(sink, line.as_slice()),
            Status::BadJob(refusal, spot),
        ),
        Err(_) => Status::NoMemory,
    }
}

fn refusal_line(alloc: Global, refusal: Refusal, spot: Spot) -> Result<Bytes, NoMemory>
    ensures { IfOk result (λ line. line ≡ refusal_line refusal spot) }
{
    let mut line = Bytes::new(alloc);
    line.append(b"fenix: bad job: ")?;
    line.append(reason_of(refusal))?;
    line.append(b" at ")?;
    push_number(&mut line, i64::from(spot.line))?;
    line.push(b':')?;
    push_number(&mut line, i64::from(spot.column))?;
    line.push(b'\n')?;
    Ok(line)
}

// The status of a call that has written what is due, or was cut short.
fn settled(put: Result<(), PutEnd>, status: Status) -> Status
    ensures { result ≡ settled put status }
{
    match put {
        Ok(()) => status,
        Err(PutEnd::Failed) => Status::WriteFault,
        Err(PutEnd::NoMemory) => Status::NoMemory,
    }
}

// The status of a call that has run a job.
fn status_of_run(end: Result<(), RunEnd>) -> Status
    ensures { result ≡ status_of_run end }
{
    match end {
        Ok(()) => Status::Done,
        Err(RunEnd::Unfinished) => Status::Unfinished,
        Err(RunEnd::WriteFault) => Status::WriteFault,
        Err(RunEnd::NoMemory) => Status::NoMemory,
    }
}
