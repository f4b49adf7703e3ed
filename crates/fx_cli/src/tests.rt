use super::*;
use fx_base::{Bytes, Elems, Spot};
use fx_check::StaticFault;
use fx_io::{MemSink, MemSource, SureSink, SureSource};
use fx_script::JobFault;
use std::alloc::Global;
use std::test::Fail;

const TWO_PRINTS: &str =
    "fenix 1\nranks 1\nspares 0\nseparation 1\narray a 3\nbegin\nprint a\nprint a\nend\nschedule\nstop\n";

const JOURNAL: &str =
    "join 0 1 start\nrepaired 0 1 1 full : 0=0\ninit 0 1 initial 0 0 1 full\nprint 0 1 a : 0 0 0\nprint 0 1 a : 0 0 0\njoin 0 2 final\nended 0\n";

const TWO_RANKS: &str =
    "fenix 1\nranks 2\nspares 0\nseparation 1\narray a 1\nbegin\nprint a\nend\nschedule\nstop\n";

const JOURNAL_OF_TWO: &str =
    "join 0 1 start\njoin 1 1 start\nrepaired 1 1 2 full : 0=0 1=1\ninit 1 1 initial 1 1 2 full\nprint 1 1 a : 0\njoin 1 2 final\nrepaired 0 1 2 full : 0=0 1=1\ninit 0 1 initial 0 0 2 full\nprint 0 1 a : 0\njoin 0 2 final\nended 1\nended 0\n";

const WIRE_OF_TWO: &str =
    "join 0 1 start\nsend 0 1 join 1 start\ndeliver 0 1 join 1 start\njoin 1 1 start\nsend 1 0 join 1 start\ndeliver 1 0 join 1 start\nsend 0 1 jest 1 0 start,start\ndeliver 0 1 jest 1 0 start,start\nsend 1 0 jest 1 1 start,start\nrepaired 1 1 2 full : 0=0 1=1\ninit 1 1 initial 1 1 2 full\nprint 1 1 a : 0\njoin 1 2 final\nsend 1 0 join 2 final\ndeliver 1 0 jest 1 1 start,start\ndeliver 1 0 join 2 final\nrepaired 0 1 2 full : 0=0 1=1\ninit 0 1 initial 0 0 2 full\nprint 0 1 a : 0\njoin 0 2 final\nsend 0 1 join 2 final\nsend 0 1 jest 2 0 final,final\ndeliver 0 1 join 2 final\ndeliver 0 1 jest 2 0 final,final\nsend 1 0 jest 2 1 final,final\nended 1\ndeliver 1 0 jest 2 1 final,final\nended 0\n";

const A_KILL: &str =
    "fenix 1\nranks 2\nspares 0\nseparation 1\nbegin\nend\nschedule\nstep 0\nkill 1\nstop\n";

const WIRE_OF_A_KILL: &str =
    "join 0 1 start\nsend 0 1 join 1 start\nkill 1\ntold 1 0\nsend 0 1 jest 1 0 start,lost\nrepaired 0 1 1 spares-depleted : 0=0\ninit 0 1 initial 0 0 1 spares-depleted\njoin 0 2 final\nended 0\n";

const A_BARRIER: &str =
    "fenix 1\nranks 2\nspares 0\nseparation 1\nbegin\nbarrier\nend\nschedule\nstop\n";

const JOURNAL_OF_A_BARRIER: &str =
    "join 0 1 start\njoin 1 1 start\nrepaired 1 1 2 full : 0=0 1=1\ninit 1 1 initial 1 1 2 full\nbarrier 1 1 1\nrepaired 0 1 2 full : 0=0 1=1\ninit 0 1 initial 0 0 2 full\nbarrier 0 1 1\npassed 0 1 1\njoin 0 2 final\npassed 1 1 1\njoin 1 2 final\nended 1\nended 0\n";

const AN_AGREEMENT: &str =
    "fenix 1\nranks 2\nspares 0\nseparation 1\narray a 1\ncounter c\nbegin\nagree c a 0\nend\nschedule\nstop\n";

const JOURNAL_OF_AN_AGREEMENT: &str =
    "join 0 1 start\njoin 1 1 start\nrepaired 1 1 2 full : 0=0 1=1\ninit 1 1 initial 1 1 2 full\nagree 1 1 1 0\nrepaired 0 1 2 full : 0=0 1=1\ninit 0 1 initial 0 0 2 full\nagree 0 1 1 0\nvalue 1 1 1 0\njoin 1 2 final\nvalue 0 1 1 0\njoin 0 2 final\nended 1\nended 0\n";

const A_DATA_GROUP: &str =
    "fenix 1\nranks 2\nspares 0\nseparation 1\narray a 1\nbegin\nbarrier\ngroup 0 0 0\nend\nschedule\nstop\n";

const SPACED: &str =
    "fenix 1\nranks 1\nspares  0\nseparation 1\narray a 3\n# note\nbegin\nprint a\nprint a\nend\nschedule\nstop\n";

const MISPLACED: &str =
    "fenix 1\nranks 1\nspares  0\nseparation 1\narray a 3\nbegin\nwhen recovered\nbarrier\nendwhen\nprint a\nend\nschedule\nstop\n";

const NOT_UNIFORM: &str =
    "fenix 1\nranks 1\nspares  0\nseparation 1\narray a 3\ncounter c\nbegin\nset c rank\nprint a\nend\nschedule\nstop\n";

const UNKNOWN: &str =
    "fenix 1\nranks 2\nspares 0\nseparation 1\nbegin\nprint a\nend\nschedule\nstop\n";

const UNENDED: &str =
    "fenix 1\nranks 1\nspares 0\nseparation 1\narray a 3\nbegin\nprint a\nprint a\nend\nschedule\nstop";

fn bytes_of(alloc: Global, text: &str) -> Result<Bytes, Fail> {
    let mut bytes = Bytes::new(alloc);
    bytes.append(text.as_bytes())?;
    Ok(bytes)
}

fn numbers(alloc: Global, number: i64) -> Result<Elems, Fail> {
    let mut list = Elems::new(alloc);
    list.push(number)?;
    Ok(list)
}

fn words_of(alloc: Global, line: &str) -> Result<Vec<String>, Fail> {
    let mut words = Vec::new(alloc);
    for word in line.split_ascii_whitespace() {
        words.push(String::from_str(alloc, word)?)?;
    }
    Ok(words)
}

fn bad(fault: JobFault, line: u32, column: u32) -> Status {
    Status::BadJob(Refusal::Text(fault), Spot { line, column })
}

fn broken(fault: StaticFault, line: u32) -> Status {
    Status::BadJob(Refusal::Static(fault), Spot { line, column: 1 })
}

fn unbuilt(line: u32) -> Status {
    Status::BadJob(Refusal::NotBuilt, Spot { line, column: 1 })
}

fn answer_to(alloc: Global, words: &str, text: &str) -> Result<(Status, SureSink), Fail> {
    let words = words_of(alloc, words)?;
    let text = bytes_of(alloc, text)?;
    Ok(fenix_in_memory(alloc, words.as_slice(), text))
}

#[test]
fn other_words_are_refused(rt: HostRuntime) -> Result<(), Fail> {
    let alloc = rt.alloc();
    for words in ["run run", "walk", "wire check", "wires", ""] {
        let (ended, sink) = answer_to(alloc, words, TWO_PRINTS)?;
        assert_eq!(rt; ended, Status::BadWords, "at {words}");
        assert_eq!(rt;
            sink.written().as_slice(),
            b"fenix: bad words\n".as_slice(),
            "at {words}"
        );
    }
    Ok(())
}

#[test]
fn texts_are_answered(rt: HostRuntime) -> Result<(), Fail> {
    let alloc = rt.alloc();
    for (words, text, status, output) in [
        ("run", TWO_PRINTS, Status::Done, JOURNAL),
        ("run", TWO_RANKS, Status::Done, JOURNAL_OF_TWO),
        ("wire", TWO_PRINTS, Status::Done, JOURNAL),
        ("wire", TWO_RANKS, Status::Done, WIRE_OF_TWO),
        ("run", A_BARRIER, Status::Done, JOURNAL_OF_A_BARRIER),
        ("run", AN_AGREEMENT, Status::Done, JOURNAL_OF_AN_AGREEMENT),
        (
            "wire",
            A_DATA_GROUP,
            unbuilt(8),
            "fenix: bad job: NotBuilt at 8:1\n",
        ),
        ("wire", A_KILL, Status::Done, WIRE_OF_A_KILL),
        (
            "run",
            "",
            bad(JobFault::MissingPart, 1, 1),
            "fenix: bad job: MissingPart at 1:1\n",
        ),
        (
            "run",
            UNENDED,
            bad(JobFault::BadLine, 11, 5),
            "fenix: bad job: BadLine at 11:5\n",
        ),
    ] {
        let (ended, sink) = answer_to(alloc, words, text)?;
        assert_eq!(rt; ended, status, "at {output}");
        assert_eq!(rt; sink.written().as_slice(), output.as_bytes(), "at {output}");
    }
    Ok(())
}

#[test]
fn jobs_are_checked(rt: HostRuntime) -> Result<(), Fail> {
    let alloc = rt.alloc();
    for (words, text, status, output) in [
        ("check", SPACED, Status::Done, TWO_PRINTS),
        ("check", TWO_RANKS, Status::Done, TWO_RANKS),
        (
            "check",
            MISPLACED,
            broken(StaticFault::Misplaced, 8),
            "fenix: bad job: Misplaced at 8:1\n",
        ),
        (
            "check",
            NOT_UNIFORM,
            broken(StaticFault::NotUniform, 8),
            "fenix: bad job: NotUniform at 8:1\n",
        ),
        (
            "run",
            UNKNOWN,
            broken(StaticFault::UnknownName, 6),
            "fenix: bad job: UnknownName at 6:1\n",
        ),
        (
            "check",
            UNENDED,
            bad(JobFault::BadLine, 11, 5),
            "fenix: bad job: BadLine at 11:5\n",
        ),
    ] {
        let (ended, sink) = answer_to(alloc, words, text)?;
        assert_eq!(rt; ended, status, "at {output}");
        assert_eq!(rt; sink.written().as_slice(), output.as_bytes(), "at {output}");
    }
    Ok(())
}

#[test]
fn too_many_bytes_are_refused(rt: HostRuntime) -> Result<(), Fail> {
    let alloc = rt.alloc();
    let mut text = Bytes::new(alloc);
    for _ in 0..1_048_577 {
        text.push(b'#')?;
    }
    let words = words_of(alloc, "run")?;
    let (ended, sink) = fenix_in_memory(alloc, words.as_slice(), text);
    assert_eq!(rt;
        ended,
        Status::BadJob(Refusal::TooBig, Spot { line: 1, column: 1 })
    );
    assert_eq!(rt; code(&ended), 3);
    assert_eq!(rt;
        sink.written().as_slice(),
        b"fenix: bad job: TooBig at 1:1\n".as_slice()
    );
    Ok(())
}

#[test]
fn a_sink_fails_at_its_third_line(rt: HostRuntime) -> Result<(), Fail> {
    let alloc = rt.alloc();
    let words = words_of(alloc, "run")?;
    let mut source = SureSource::new(bytes_of(alloc, TWO_PRINTS)?);
    let mut sink = MemSink::new(alloc, numbers(alloc, 3)?);
    let ended = fenix(alloc, words.as_slice(), &mut source, &mut sink);
    assert_eq!(rt; ended, Status::WriteFault);
    assert_eq!(rt;
        sink.written().as_slice(),
        b"join 0 1 start\nrepaired 0 1 1 full : 0=0\n".as_slice()
    );
    Ok(())
}

#[test]
fn a_sink_fails_at_the_third_line_of_a_text(rt: HostRuntime) -> Result<(), Fail> {
    let alloc = rt.alloc();
    let words = words_of(alloc, "check")?;
    let mut source = SureSource::new(bytes_of(alloc, TWO_PRINTS)?);
    let mut sink = MemSink::new(alloc, numbers(alloc, 3)?);
    let ended = fenix(alloc, words.as_slice(), &mut source, &mut sink);
    assert_eq!(rt; ended, Status::WriteFault);
    assert_eq!(rt; sink.written().as_slice(), b"fenix 1\nranks 1\n".as_slice());
    Ok(())
}

#[test]
fn a_source_fails_at_its_second_call(rt: HostRuntime) -> Result<(), Fail> {
    let alloc = rt.alloc();
    let words = words_of(alloc, "run")?;
    let mut source = MemSource::new(bytes_of(alloc, TWO_PRINTS)?, 64, numbers(alloc, 2)?);
    let mut sink = SureSink::new(alloc);
    let ended = fenix(alloc, words.as_slice(), &mut source, &mut sink);
    assert_eq!(rt; ended, Status::ReadFault);
    assert_eq!(rt; sink.written().len(), 0);
    Ok(())
}

#[test]
fn a_source_is_not_asked_behind_its_end(rt: HostRuntime) -> Result<(), Fail> {
    let alloc = rt.alloc();
    let words = words_of(alloc, "run")?;
    // The first call gives all that there is, the second is the end.
    let mut source = MemSource::new(bytes_of(alloc, TWO_PRINTS)?, 4096, numbers(alloc, 3)?);
    let mut sink = SureSink::new(alloc);
    let ended = fenix(alloc, words.as_slice(), &mut source, &mut sink);
    assert_eq!(rt; ended, Status::Done);
    assert_eq!(rt; sink.written().as_slice(), JOURNAL.as_bytes());
    Ok(())
}
