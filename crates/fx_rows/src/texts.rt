ghost use Rattle.std.specs.Prelude.{◌<◌, length, IfOk};

use crate::written::{bytes_of, text_of};
use fx_base::{Bytes, Spot};
use fx_script::JobFault::{BadLine, BadNumber, LineTooLong, MissingPart, NotAscii, TrailingText};
use fx_script::{JobFault, ReadJob, print_job, read_job};
use std::alloc::Global;
use std::process::Abort;
use std::test::Fail;

// In a table a bar stands for the end of a line. What is expected comes from a program written apart from this one.

// Each kind of line, and each kind of subset, event and expression.
const WHOLE: &str = "fenix 1|ranks 3|spares 1|separation 2|array a 4|counter c|array b 4\
|callback note|let a + index * rank -7|print a|endcallback|callback rest|endcallback\
|begin|register note|set c latest 0|when initial|let a - size c|endwhen\
|when survivor|when recovered|barrier|endwhen|endwhen\
|if lt c 3|print c|else|print a|endif|if le 0 c|endif\
|if eq rank - c 1|if lt a b|else|drop 1 c|endif|else|endif\
|for c + 0 1 2|for c latest -1 -2|barrier|endfor|endfor\
|sum c a|min c a|max c b|agree c a 0|shift a b -1|group 0 5 2|member 0 1 a\
|store 0 1 full|store 0 1 empty|store 0 1 strided 2 0 1 4|store 0 1 ranges 0 1 2 3\
|commit 0|commitbarrier 0|restore 0 1 latest 0|drop 0 c|end\
|schedule|step 0|rest 1|deliver 0 1|kill 2|notice 2 0|run 7|step -9223372036854775808|stop|";

// The same lines, with comments, blank lines and more spaces.
const LOOSE: &str = "# every kind of line||  fenix   1|ranks 3  |# ranks|spares 1| separation  2\
|  array a 4|   |counter  c|array b    4|  # callbacks\
|callback note|  let a  + index  *  rank -7|  print a  |endcallback|callback  rest|# x|endcallback  \
|| begin|  register   note|  set c latest  0|  when   initial|    let a - size  c  |  endwhen\
|when survivor|  when  recovered|    barrier |  endwhen|endwhen\
|if  lt c 3|  print c|# two|  else |  print a|endif|if le 0  c||endif\
|if eq  rank - c 1|  if lt a  b|  else|    drop 1  c|  endif|else|endif\
|for c  + 0 1 2|  for  c latest  -1 -2|    barrier|  endfor|endfor\
|sum  c a|min c  a|max c b |  agree c a  0|shift a b  -1|group 0 5  2|member 0  1 a\
|store 0 1  full|store  0 1 empty|store 0 1 strided 2  0 1 4|store 0 1 ranges 0 1  2 3\
|commit  0|commitbarrier 0 |restore 0 1  latest 0|drop 0   c|  end\
|schedule|# events|  step 0|  rest  1|deliver 0  1|kill 2 |notice  2 0|run   7\
|step -9223372036854775808|  stop|# behind|  |";

const NOTED: &str =
    "fenix 1|ranks 1|spares  0|separation 1|array a 3|# note|begin|print a|print a|end|schedule|stop|";

const PLAIN: &str =
    "fenix 1|ranks 1|spares 0|separation 1|array a 3|begin|print a|print a|end|schedule|stop|";

const HEAD: &str = "fenix 1|ranks 1|spares 0|separation 1|";

const BODY: &str = "fenix 1|ranks 1|spares 0|separation 1|array a 2|counter c|begin|";

const LET: &str = "fenix 1|ranks 1|spares 0|separation 1|array a 2|begin|let a ";

const STORE: &str = "fenix 1|ranks 1|spares 0|separation 1|begin|store 0 1 ranges";

const BODY_END: &str = "|end|schedule|stop|";

const EVENTS: &str = "fenix 1|ranks 1|spares 0|separation 1|begin|end|schedule|";

const STOPPED: &str = "fenix 1|ranks 1|spares 0|separation 1|begin|end|schedule|stop|";

// Lines in front, the lines that are tried, lines behind, and the refusal that is due.
static REFUSED: [(&str, &str, &str, JobFault, u32, u32); 102] = [
    ("", "\tfenix 1|", "", NotAscii, 1, 1),
    ("", "fenix 2\r|", "", NotAscii, 1, 8),
    ("", "fenix 1|# é|", "", NotAscii, 2, 3),
    (STOPPED, "x\t", "", NotAscii, 9, 2),
    ("", "", "", MissingPart, 1, 1),
    ("", "|", "", MissingPart, 2, 1),
    ("", "# a", "", BadLine, 1, 4),
    ("", "# a|", "", MissingPart, 2, 1),
    ("", "fenix 1", "", BadLine, 1, 8),
    ("", "fenix 1|", "", MissingPart, 2, 1),
    (HEAD, "", "", MissingPart, 5, 1),
    (HEAD, "begin|end|", "", MissingPart, 7, 1),
    (HEAD, "begin|end|schedule|", "", MissingPart, 8, 1),
    (HEAD, "begin|if lt 0 1|", "", MissingPart, 7, 1),
    ("", "fenix|", "", BadLine, 1, 6),
    ("", "fenix 2|", "", BadLine, 1, 7),
    ("", " fenix  1 x|", "", BadLine, 1, 11),
    ("", "ranks 1|", "", BadLine, 1, 1),
    ("", "fenix 1|fenix 1|", "", BadLine, 2, 1),
    ("", "fenix 1|ranks|", "", BadLine, 2, 6),
    ("", "fenix 1|ranks x|", "", BadNumber, 2, 7),
    ("", "fenix 1|ranks 01|", "", BadNumber, 2, 7),
    ("", "fenix 1|ranks -0|", "", BadNumber, 2, 7),
    (
        "",
        "fenix 1|ranks 9223372036854775808|",
        "",
        BadNumber,
        2,
        7,
    ),
    ("", "fenix 1|ranks 1 2|", "", BadLine, 2, 9),
    ("", "fenix 1|ranks 1|separation 1|", "", BadLine, 3, 1),
    (HEAD, "array|", "", BadLine, 5, 6),
    (HEAD, "array a|", "", BadLine, 5, 8),
    (HEAD, "array A 1|", "", BadLine, 5, 7),
    (HEAD, "array rank 1|", "", BadLine, 5, 7),
    (HEAD, "array abcdefghijklmnopq 1|", "", BadLine, 5, 7),
    (HEAD, "array a a|", "", BadNumber, 5, 9),
    (HEAD, "array a 1 1|", "", BadLine, 5, 11),
    (HEAD, "counter|", "", BadLine, 5, 8),
    (HEAD, "counter latest|", "", BadLine, 5, 9),
    (HEAD, "callback|", "", BadLine, 5, 9),
    (HEAD, "callback n|array a 1|", "", BadLine, 6, 1),
    (HEAD, "callback n|endcallback|array a 1|", "", BadLine, 7, 1),
    (HEAD, "begin|endcallback|", "", BadLine, 6, 1),
    (BODY, "print", BODY_END, BadLine, 8, 6),
    (BODY, "let a", BODY_END, BadLine, 8, 6),
    (BODY, "let a + 1", BODY_END, BadLine, 8, 10),
    (BODY, "let a latest", BODY_END, BadLine, 8, 13),
    (BODY, "set c * 2 - 3", BODY_END, BadLine, 8, 14),
    (BODY, "register", BODY_END, BadLine, 8, 9),
    (BODY, "sum a", BODY_END, BadLine, 8, 6),
    (BODY, "agree c a", BODY_END, BadLine, 8, 10),
    (BODY, "shift a b", BODY_END, BadLine, 8, 10),
    (BODY, "group 0 1", BODY_END, BadLine, 8, 10),
    (BODY, "member 0 1", BODY_END, BadLine, 8, 11),
    (BODY, "store 0 1", BODY_END, BadLine, 8, 10),
    (BODY, "wait", BODY_END, BadLine, 8, 1),
    (BODY, "print 1", BODY_END, BadLine, 8, 7),
    (BODY, "print a a", BODY_END, BadLine, 8, 9),
    (BODY, "let a 1 1", BODY_END, BadLine, 8, 9),
    (BODY, "let a latest a", BODY_END, BadNumber, 8, 14),
    (BODY, "let a max 1 2", BODY_END, BadLine, 8, 11),
    (BODY, "set c 1a", BODY_END, BadNumber, 8, 7),
    (BODY, "max a 1", BODY_END, BadLine, 8, 7),
    (BODY, "agree c a x", BODY_END, BadNumber, 8, 11),
    (BODY, "shift a b x", BODY_END, BadNumber, 8, 11),
    (BODY, "group 0 1 2 3", BODY_END, BadLine, 8, 13),
    (BODY, "barrier 1", BODY_END, BadLine, 8, 9),
    (BODY, "store 0 1 half", BODY_END, BadLine, 8, 11),
    (BODY, "store 0 1 full 0", BODY_END, BadLine, 8, 16),
    (BODY, "store 0 1 strided 1 2 3", BODY_END, BadLine, 8, 24),
    (BODY, "store 0 1 ranges", BODY_END, BadLine, 8, 17),
    (BODY, "store 0 1 ranges 1 b", BODY_END, BadNumber, 8, 20),
    (BODY, "store 0 1 ranges 1 2 3", BODY_END, BadLine, 8, 23),
    (BODY, "commit", BODY_END, BadLine, 8, 7),
    (BODY, "commitbarrier x", BODY_END, BadNumber, 8, 15),
    (BODY, "restore 0 1 latest", BODY_END, BadLine, 8, 19),
    (BODY, "restore 0 1 5 0", BODY_END, BadLine, 8, 15),
    (BODY, "drop 0", BODY_END, BadLine, 8, 7),
    (BODY, "when", BODY_END, BadLine, 8, 5),
    (BODY, "when ready", BODY_END, BadLine, 8, 6),
    (BODY, "endwhen", BODY_END, BadLine, 8, 1),
    (BODY, "else", BODY_END, BadLine, 8, 1),
    (BODY, "when initial|endif", BODY_END, BadLine, 9, 1),
    (BODY, "when initial", BODY_END, BadLine, 9, 1),
    (BODY, "if lt 0", BODY_END, BadLine, 8, 8),
    (BODY, "if gt 0 1", BODY_END, BadLine, 8, 4),
    (BODY, "if le 0 1|else|else", BODY_END, BadLine, 10, 1),
    (BODY, "if le 0 1|else|endif x", BODY_END, BadLine, 10, 7),
    (BODY, "for c 0 x", BODY_END, BadNumber, 8, 9),
    (BODY, "for c 0 1|else", BODY_END, BadLine, 9, 1),
    (EVENTS, "step", "|stop|", BadLine, 8, 5),
    (EVENTS, "step x", "|stop|", BadNumber, 8, 6),
    (EVENTS, "step 0 0", "|stop|", BadLine, 8, 8),
    (EVENTS, "rest", "|stop|", BadLine, 8, 5),
    (EVENTS, "deliver 0", "|stop|", BadLine, 8, 10),
    (EVENTS, "deliver 0 x", "|stop|", BadNumber, 8, 11),
    (EVENTS, "kill", "|stop|", BadLine, 8, 5),
    (EVENTS, "notice 0 1 2", "|stop|", BadLine, 8, 12),
    (EVENTS, "run", "|stop|", BadLine, 8, 4),
    (EVENTS, "print a", "|stop|", BadLine, 8, 1),
    (EVENTS, "end", "|stop|", BadLine, 8, 1),
    (EVENTS, "stop 1", "|stop|", BadLine, 8, 6),
    (STOPPED, "stop|", "", TrailingText, 9, 1),
    (STOPPED, "  x|", "", TrailingText, 9, 3),
    (STOPPED, "# x||  fenix 1|", "", TrailingText, 11, 3),
    (STOPPED, "# x", "", BadLine, 9, 4),
];

// Lines in front, what is repeated, how often, lines behind, and the refusal, if one is due.
static REPEATED: [(&str, &str, u32, &str, Option<(JobFault, u32, u32)>); 7] = [
    ("", "#", 1024, "|", Some((MissingPart, 2, 1))),
    ("", "#", 1025, "|", Some((LineTooLong, 1, 1025))),
    (BODY, "if lt 0 1|", 64, "", Some((MissingPart, 72, 1))),
    (
        BODY,
        "if lt 0 1|",
        64,
        "when initial|",
        Some((BadLine, 72, 1)),
    ),
    (LET, "+ 1 ", 254, "1|end|schedule|stop|", None),
    (STORE, " 7 7", 16, BODY_END, None),
    (STORE, " 7 7", 17, BODY_END, Some((BadLine, 6, 82))),
];

// What is answered to the text of these lines: nothing where a job is read.
fn answer(alloc: Global, text: &Bytes) -> Result<Option<(JobFault, Spot)>, Fail>
    requires { length text.now < 4096 }
{
    match read_job(alloc, text.as_slice()) {
        Ok(_) => Ok(None),
        Err(ReadJob::Refused(fault, spot)) => Ok(Some((fault, spot))),
        Err(ReadJob::NoMemory) => Err(Fail::from("memory is ample")),
    }
}

// The text of these lines, those in the middle so many times.
fn repeated_text(
    rt: &impl Abort,
    alloc: Global,
    before: &str,
    lines: &str,
    times: u32,
    behind: &str,
) -> Result<Bytes, Fail>
    ensures { IfOk result (λ text. length text < 4096) }
{
    let mut text = bytes_of(alloc, &[before])?;
    let lines = bytes_of(alloc, &[lines])?;
    for _ in 0..times {
        text.append(lines.as_slice())?;
    }
    text.append(bytes_of(alloc, &[behind])?.as_slice())?;
    assert!(rt; text.len() < 4096);
    Ok(text)
}

// What is printed of the job in a text.
fn printed(alloc: Global, text: &Bytes) -> Result<Bytes, Fail>
    requires { length text.now < 4096 }
{
    Ok(print_job(alloc, &read_job(alloc, text.as_slice())?)?)
}

#[test]
fn a_job_of_every_kind_of_line_is_printed(rt: HostRuntime) -> Result<(), Fail> {
    for (table, canonical) in [(WHOLE, WHOLE), (LOOSE, WHOLE), (NOTED, PLAIN)] {
        let text = text_of(&rt, rt.alloc(), &[table])?;
        let wanted = text_of(&rt, rt.alloc(), &[canonical])?;
        let written = printed(rt.alloc(), &text)?;
        assert_eq!(rt; written.as_slice(), wanted.as_slice(), "at {table}");
    }
    Ok(())
}

#[test]
fn texts_are_refused(rt: HostRuntime) -> Result<(), Fail> {
    for (before, lines, behind, fault, line, column) in REFUSED.iter().copied() {
        let text = text_of(&rt, rt.alloc(), &[before, lines, behind])?;
        let answer = answer(rt.alloc(), &text)?;
        assert_eq!(rt; answer, Some((fault, Spot { line, column })), "at {lines}");
    }
    Ok(())
}

#[test]
fn limits_are_kept(rt: HostRuntime) -> Result<(), Fail> {
    for (before, lines, times, behind, told) in REPEATED.iter().copied() {
        let text = repeated_text(&rt, rt.alloc(), before, lines, times, behind)?;
        let answer = answer(rt.alloc(), &text)?;
        let expected = match told {
            Some((fault, line, column)) => Some((fault, Spot { line, column })),
            None => None,
        };
        assert_eq!(rt; answer, expected, "at {lines} {times} times");
    }
    Ok(())
}
