use crate::jobs::job_of;
use fx_base::{Bytes, Elems, Proc};
use fx_check::Accepted;
use fx_io::{MemSink, Sink, SureSink};
use fx_sched::{Moment, moments};
use fx_world::{Counts, RunEnd, Shown, World};
use std::alloc::Global;
use std::test::Fail;

// What is expected comes from a program written apart from this one. A bar ends a line.

const SPARE: &str =
    "fenix 1|ranks 2|spares 1|separation 1|array a 2|begin|let a + rank index|print a|end|schedule|step 0|deliver 0 1|rest 1|run 1|stop|";

const LOSS: &str =
    "fenix 1|ranks 2|spares 1|separation 1|array a 2|begin|let a + rank index|print a|end|schedule|run 1|step 0|step 0|kill 1|notice 1 0|run 2|stop|";

const REDUCED: &str =
    "fenix 1|ranks 2|spares 0|separation 1|array a 1|counter c|begin|barrier|let a + rank 1|sum c a|max c a|print c|end|schedule|stop|";

const BARRIER_STRUCK: &str =
    "fenix 1|ranks 2|spares 1|separation 1|array a 1|begin|barrier|print a|end|schedule|run 1|step 0|step 0|step 0|step 0|kill 1|run 1|stop|";

const BARRIER_REVOKED: &str =
    "fenix 1|ranks 3|spares 0|separation 1|begin|barrier|barrier|end|schedule|step 0|step 1|step 2|run 1|deliver 2 1|rest 1|kill 1|notice 1 0|deliver 2 0|rest 0|deliver 0 2|deliver 0 2|rest 2|deliver 1 2|rest 2|stop|";

const AGREED: &str =
    "fenix 1|ranks 2|spares 0|separation 1|array a 1|counter c|begin|let a - 6 rank|agree c a 0|print c|end|schedule|stop|";

const AGREEMENT_STRUCK: &str =
    "fenix 1|ranks 3|spares 0|separation 1|array a 1|counter c|begin|let a - 6 rank|agree c a 0|print c|end|schedule|run 1|rest 0|rest 1|rest 2|deliver 0 1|kill 2|run 3|stop|";

const ALONE: &str =
    "fenix 1|ranks 1|spares 0|separation 1|array a 1|begin|print a|end|schedule|stop|";

const ALONE_WRITES: &str =
    "join 0 1 start|repaired 0 1 1 full : 0=0|init 0 1 initial 0 0 1 full|print 0 1 a : 0|join 0 2 final|ended 0|";

// A run: what it shows, its job, which items are shown, all that is written, and how many epochs and returns of `init` there
// were, and how many were killed and have ended.
struct Run {
    shows: &'static str,
    source: &'static str,
    shown: Shown,
    written: &'static str,
    epochs: u64,
    inits: u64,
    kills: u64,
    ended: u64,
}

const RUNS: [Run; 9] = [
    Run {
        shows: "two ranks and a spare",
        source: SPARE,
        shown: Shown::Journal,
        written: "join 0 1 start|join 1 1 start|join 2 1 start|repaired 2 1 2 full : 0=0 1=1|repaired 0 1 2 full : 0=0 1=1|init 0 1 initial 0 0 2 full|print 0 1 a : 0 1|join 0 2 final|repaired 1 1 2 full : 0=0 1=1|init 1 1 initial 1 1 2 full|print 1 1 a : 1 2|join 1 2 final|join 2 2 spare|ended 2|ended 0|ended 1|",
        epochs: 1,
        inits: 2,
        kills: 0,
        ended: 3,
    },
    Run {
        shows: "what happens to process 1",
        source: SPARE,
        shown: Shown::Only(Proc(1)),
        written: "join 1 1 start|repaired 1 1 2 full : 0=0 1=1|init 1 1 initial 1 1 2 full|print 1 1 a : 1 2|join 1 2 final|ended 1|",
        epochs: 1,
        inits: 2,
        kills: 0,
        ended: 3,
    },
    Run {
        shows: "nothing of it",
        source: SPARE,
        shown: Shown::Nothing,
        written: "",
        epochs: 1,
        inits: 2,
        kills: 0,
        ended: 3,
    },
    Run {
        shows: "a loss before the first decision",
        source: LOSS,
        shown: Shown::Wire,
        written: "join 0 1 start|send 0 1 join 1 start|send 0 2 join 1 start|deliver 0 1 join 1 start|join 1 1 start|send 1 0 join 1 start|send 1 2 join 1 start|deliver 0 2 join 1 start|deliver 1 2 join 1 start|join 2 1 start|send 2 0 join 1 start|send 2 1 join 1 start|kill 1|told 1 0|deliver 2 0 join 1 start|send 0 1 jest 1 0 start,lost,start|send 0 2 jest 1 0 start,lost,start|deliver 0 2 jest 1 0 start,lost,start|told 1 2|send 2 0 jest 1 2 start,lost,start|send 2 1 jest 1 2 start,lost,start|repaired 2 1 2 full : 0=0 1=2|init 2 1 initial 1 1 2 full|print 2 1 a : 1 2|join 2 2 final|send 2 0 join 2 final|deliver 2 0 jest 1 2 start,lost,start|deliver 2 0 join 2 final|repaired 0 1 2 full : 0=0 1=2|init 0 1 initial 0 0 2 full|print 0 1 a : 0 1|join 0 2 final|send 0 2 join 2 final|send 0 2 jest 2 0 final,final|deliver 0 2 join 2 final|deliver 0 2 jest 2 0 final,final|send 2 0 jest 2 1 final,final|ended 2|deliver 2 0 jest 2 1 final,final|ended 0|",
        epochs: 1,
        inits: 2,
        kills: 1,
        ended: 2,
    },
    Run {
        shows: "a barrier, a sum and a greatest",
        source: REDUCED,
        shown: Shown::Wire,
        written: "join 0 1 start|send 0 1 join 1 start|deliver 0 1 join 1 start|join 1 1 start|send 1 0 join 1 start|deliver 1 0 join 1 start|send 0 1 jest 1 0 start,start|deliver 0 1 jest 1 0 start,start|send 1 0 jest 1 1 start,start|repaired 1 1 2 full : 0=0 1=1|init 1 1 initial 1 1 2 full|barrier 1 1 1|send 1 0 part 1 1 :|deliver 1 0 jest 1 1 start,start|deliver 1 0 part 1 1 :|repaired 0 1 2 full : 0=0 1=1|init 0 1 initial 0 0 2 full|barrier 0 1 1|send 0 1 part 1 1 :|passed 0 1 1|reduce 0 1 2 sum 1|send 0 1 part 1 2 : 1|deliver 0 1 part 1 1 :|deliver 0 1 part 1 2 : 1|passed 1 1 1|reduce 1 1 2 sum 2|send 1 0 part 1 2 : 2|value 1 1 2 3|reduce 1 1 3 max 2|send 1 0 part 1 3 : 2|deliver 1 0 part 1 2 : 2|deliver 1 0 part 1 3 : 2|value 0 1 2 3|reduce 0 1 3 max 1|send 0 1 part 1 3 : 1|value 0 1 3 2|print 0 1 c : 2|join 0 2 final|send 0 1 join 2 final|deliver 0 1 part 1 3 : 1|deliver 0 1 join 2 final|value 1 1 3 2|print 1 1 c : 2|join 1 2 final|send 1 0 join 2 final|deliver 1 0 join 2 final|send 0 1 jest 2 0 final,final|deliver 0 1 jest 2 0 final,final|send 1 0 jest 2 1 final,final|ended 1|deliver 1 0 jest 2 1 final,final|ended 0|",
        epochs: 1,
        inits: 2,
        kills: 0,
        ended: 2,
    },
    Run {
        shows: "a barrier that fails by a loss",
        source: BARRIER_STRUCK,
        shown: Shown::Journal,
        written: "join 0 1 start|join 1 1 start|join 2 1 start|kill 1|repaired 2 1 2 full : 0=0 1=1|join 2 2 spare|repaired 0 1 2 full : 0=0 1=1|init 0 1 initial 0 0 2 full|barrier 0 1 1|failed 0 1 1 1|join 0 2 error|repaired 2 2 2 full : 0=0 1=2|init 2 2 recovered 1 1 2 full|barrier 2 2 1|repaired 0 2 2 full : 0=0 1=2|init 0 2 survivor 0 0 2 full|barrier 0 2 1|passed 0 2 1|print 0 2 a : 0|join 0 3 final|passed 2 2 1|print 2 2 a : 0|join 2 3 final|ended 2|ended 0|",
        epochs: 2,
        inits: 3,
        kills: 1,
        ended: 2,
    },
    Run {
        shows: "a barrier that passes at one and fails at another, and one that is revoked",
        source: BARRIER_REVOKED,
        shown: Shown::Journal,
        written: "join 0 1 start|join 1 1 start|join 2 1 start|repaired 2 1 3 full : 0=0 1=1 2=2|init 2 1 initial 2 2 3 full|barrier 2 1 1|repaired 1 1 3 full : 0=0 1=1 2=2|init 1 1 initial 1 1 3 full|barrier 1 1 1|kill 1|repaired 0 1 3 full : 0=0 1=1 2=2|init 0 1 initial 0 0 3 full|barrier 0 1 1|failed 0 1 1 1|join 0 2 error|passed 2 1 1|barrier 2 1 2|revoked 2 1 2 0|join 2 2 error|repaired 2 2 2 spares-depleted : 0=0 2=2|init 2 2 survivor 2 1 2 spares-depleted|barrier 2 2 1|repaired 0 2 2 spares-depleted : 0=0 2=2|init 0 2 survivor 0 0 2 spares-depleted|barrier 0 2 1|passed 0 2 1|barrier 0 2 2|passed 2 2 1|barrier 2 2 2|passed 2 2 2|join 2 3 final|passed 0 2 2|join 0 3 final|ended 2|ended 0|",
        epochs: 2,
        inits: 5,
        kills: 1,
        ended: 2,
    },
    Run {
        shows: "an agreement",
        source: AGREED,
        shown: Shown::Wire,
        written: "join 0 1 start|send 0 1 join 1 start|deliver 0 1 join 1 start|join 1 1 start|send 1 0 join 1 start|deliver 1 0 join 1 start|send 0 1 jest 1 0 start,start|deliver 0 1 jest 1 0 start,start|send 1 0 jest 1 1 start,start|repaired 1 1 2 full : 0=0 1=1|init 1 1 initial 1 1 2 full|agree 1 1 1 5|send 1 0 vote 1 1 yes=5|deliver 1 0 jest 1 1 start,start|deliver 1 0 vote 1 1 yes=5|repaired 0 1 2 full : 0=0 1=1|init 0 1 initial 0 0 2 full|agree 0 1 1 6|send 0 1 vote 1 1 yes=6|send 0 1 est 1 1 0 yes=6,yes=5|deliver 0 1 vote 1 1 yes=6|deliver 0 1 est 1 1 0 yes=6,yes=5|send 1 0 est 1 1 1 yes=6,yes=5|value 1 1 1 4|print 1 1 c : 4|join 1 2 final|send 1 0 join 2 final|deliver 1 0 est 1 1 1 yes=6,yes=5|deliver 1 0 join 2 final|value 0 1 1 4|print 0 1 c : 4|join 0 2 final|send 0 1 join 2 final|send 0 1 jest 2 0 final,final|deliver 0 1 join 2 final|deliver 0 1 jest 2 0 final,final|send 1 0 jest 2 1 final,final|ended 1|deliver 1 0 jest 2 1 final,final|ended 0|",
        epochs: 1,
        inits: 2,
        kills: 0,
        ended: 2,
    },
    Run {
        shows: "an agreement that fails by a loss at each",
        source: AGREEMENT_STRUCK,
        shown: Shown::Journal,
        written: "join 0 1 start|join 1 1 start|join 2 1 start|kill 2|repaired 1 1 3 full : 0=0 1=1 2=2|init 1 1 initial 1 1 3 full|agree 1 1 1 5|repaired 0 1 3 full : 0=0 1=1 2=2|init 0 1 initial 0 0 3 full|agree 0 1 1 6|failed 1 1 1 2|join 1 2 error|failed 0 1 1 2|join 0 2 error|repaired 1 2 2 spares-depleted : 0=0 1=1|init 1 2 survivor 1 1 2 spares-depleted|agree 1 2 1 5|repaired 0 2 2 spares-depleted : 0=0 1=1|init 0 2 survivor 0 0 2 spares-depleted|agree 0 2 1 6|value 1 2 1 4|print 1 2 c : 4|join 1 3 final|value 0 2 1 4|print 0 2 c : 4|join 0 3 final|ended 1|ended 0|",
        epochs: 2,
        inits: 4,
        kills: 1,
        ended: 2,
    },
];

fn run_whole<K: Sink>(
    alloc: Global,
    job: &Accepted,
    bound: u64,
    shown: Shown,
    sink: &mut K,
) -> Result<Result<Counts, RunEnd>, Fail> {
    let mut world = World::new(alloc, job)?;
    let moments = moments(alloc, job)?;
    Ok(world.run_all(&moments, bound, shown, sink))
}

fn lines_of(alloc: Global, text: &str) -> Result<Bytes, Fail> {
    let mut lines = Bytes::new(alloc);
    for byte in text.as_bytes() {
        lines.push(if *byte == b'|' { b'\n' } else { *byte })?;
    }
    Ok(lines)
}

#[test]
fn worlds_run_to_their_end(rt: HostRuntime) -> Result<(), Fail> {
    let alloc = rt.alloc();
    for row in RUNS.iter() {
        let job = job_of(&rt, alloc, row.source)?;
        let mut sink = SureSink::new(alloc);
        let end = run_whole(alloc, &job, job.bound(), row.shown, &mut sink)?;
        let due = lines_of(alloc, row.written)?;
        assert_eq!(rt;
            sink.written().as_slice(),
            due.as_slice(),
            "at {}",
            row.shows
        );
        let is_counted = match end {
            Ok(counts) => {
                counts.epochs == row.epochs
                    && counts.inits == row.inits
                    && counts.kills == row.kills
                    && counts.ended == row.ended
            }
            Err(_) => false,
        };
        assert!(rt; is_counted, "at {}", row.shows);
    }
    Ok(())
}

#[test]
fn a_world_can_be_cut_short(rt: HostRuntime) -> Result<(), Fail> {
    let alloc = rt.alloc();
    let job = job_of(&rt, alloc, ALONE)?;
    let whole = lines_of(alloc, ALONE_WRITES)?;
    for (bound, failing, end, lines) in [
        (0, 9, Some(RunEnd::Unfinished), 0),
        (1, 9, None, 6),
        (1, 1, Some(RunEnd::WriteFault), 0),
        (1, 3, Some(RunEnd::WriteFault), 2),
    ] {
        let mut calls = Elems::new(alloc);
        calls.push(failing)?;
        let mut sink = MemSink::new(alloc, calls);
        let answer = run_whole(alloc, &job, bound, Shown::Wire, &mut sink)?;
        assert!(rt; answer.err() == end, "at {bound} rounds, fault {failing}");
        let written = sink.written().as_slice();
        let count = written.iter().filter(|byte| **byte == b'\n').count();
        assert_eq!(rt; count, lines);
        assert!(rt; whole.as_slice().starts_with(written));
    }
    Ok(())
}

#[test]
fn a_world_goes_on_moment_by_moment(rt: HostRuntime) -> Result<(), Fail> {
    let alloc = rt.alloc();
    let job = job_of(&rt, alloc, ALONE)?;
    let mut world = World::new(alloc, &job)?;
    let mut sink = SureSink::new(alloc);
    assert!(rt; job.procs() == 1);
    world.apply(Moment::Step(Proc(0)), Shown::Wire, &mut sink)?;
    assert!(rt; *sink.written() == lines_of(alloc, "join 0 1 start|")?);
    world.round(Shown::Wire, &mut sink)?;
    world.round(Shown::Wire, &mut sink)?;
    assert!(rt; *sink.written() == lines_of(alloc, ALONE_WRITES)?);
    Ok(())
}
