ghost use Rattle.std.specs.Prelude.{◌<◌, length};

use crate::written::text_of;
use fx_base::{Bytes, Spot};
use fx_check::{CheckJob, check_job};
use fx_script::read_job;
use std::alloc::Global;
use std::test::Fail;

// What is expected comes from a program written apart from this one. In a row a bar ends a line of
// the job, and a line feed says nothing.

const HEADLESS: &str = "fenix 1|";

const NO_BODY: &str = "|begin|end|schedule|stop|";

const HEADED: &str = "fenix 1|ranks 3|spares 1|separation 1|";

const SCHEDULED: &str = "fenix 1|ranks 3|spares 1|separation 1|begin|end|schedule|";

const STOPPED: &str = "|stop|";

const IN_BODY: &str = "
fenix 1|ranks 3|spares 1|separation 1|array a 4|array b 4|array d 3|counter c|counter e|
callback f|let a 0|endcallback|begin|group 0 5 2|member 0 1 a|";

const OUT_OF_BODY: &str = "|end|schedule|stop|";

const IN_WHEN: &str = "
fenix 1|ranks 3|spares 1|separation 1|array a 4|array b 4|array d 3|counter c|counter e|
callback f|let a 0|endcallback|begin|group 0 5 2|member 0 1 a|when initial|";

const OUT_OF_WHEN: &str = "|endwhen|end|schedule|stop|";

const CALLED: &str = "
fenix 1|ranks 3|spares 1|separation 1|array a 4|array b 4|array d 3|counter c|counter e|
callback f|";

const OUT_OF_CALLED: &str = "|endcallback|begin|group 0 5 2|member 0 1 a|end|schedule|stop|";

const HEADS: &str = "
ranks 0|spares 0|separation 1 = OutOfRange 2:1;
ranks 1|spares 0|separation 1 = accepted;
ranks 16|spares 0|separation 15 = accepted;
ranks 17|spares 0|separation 1 = OutOfRange 2:1;
ranks 8|spares 8|separation 1 = accepted;
ranks 8|spares 9|separation 1 = OutOfRange 3:1;
ranks 16|spares -1|separation 1 = OutOfRange 3:1;
ranks 1|spares 17|separation 1 = OutOfRange 3:1;
ranks 2|spares 0|separation 0 = OutOfRange 4:1;
ranks 2|spares 0|separation 16 = OutOfRange 4:1";

const EVENTS: &str = "
step 3 = accepted;
step 4 = OutOfRange 8:1;
rest -1 = OutOfRange 8:1;
deliver 0 3 = accepted;
deliver 4 0 = OutOfRange 8:1;
kill 4 = OutOfRange 8:1;
notice 0 4 = OutOfRange 8:1;
run 0 = OutOfRange 8:1;
run 1000 = accepted;
run 1001 = OutOfRange 8:1";

const DECLARATIONS: &str = "
array a 0 = OutOfRange 5:1;
array a 1|counter b = accepted;
array a 256 = accepted;
array a 257 = OutOfRange 5:1;
array a0 1|array a1 1|array a2 1|array a3 1|array a4 1|array a5 1|array a6 1|
array a7 1 = accepted;
array a0 1|array a1 1|array a2 1|array a3 1|array a4 1|array a5 1|array a6 1|array a7 1|
array x 1 = OutOfRange 13:1;
counter c0|counter c1|counter c2|counter c3|counter c4|counter c5|counter c6|counter c7|
counter c8|counter c9|counter c10|counter c11|counter c12|counter c13|counter c14|
counter c15 = accepted;
counter c0|counter c1|counter c2|counter c3|counter c4|counter c5|counter c6|counter c7|
counter c8|counter c9|counter c10|counter c11|counter c12|counter c13|counter c14|counter c15|
counter x = OutOfRange 21:1;
array a 1|counter a = NameTwice 6:1;
counter a|array a 999 = NameTwice 6:1;
array a 1|callback a|endcallback = NameTwice 6:1;
callback f|endcallback|callback f|endcallback = NameTwice 7:1;
callback f0|endcallback|callback f1|endcallback|callback f2|endcallback|callback f3|endcallback|
callback f4|endcallback|callback f5|endcallback|callback f6|endcallback|callback f7|
endcallback = accepted;
callback f0|endcallback|callback f1|endcallback|callback f2|endcallback|callback f3|endcallback|
callback f4|endcallback|callback f5|endcallback|callback f6|endcallback|callback f7|endcallback|
callback x|endcallback = OutOfRange 21:1;
array a0 1|array a1 1|array a2 1|array a3 1|array a4 1|array a5 1|array a6 1|array a7 1|
array a0 1 = NameTwice 13:1;
array a 1|callback f|print a|print a|print a|print a|print a|print a|print a|print a|print a|
print a|print a|print a|print a|print a|print a|print a|endcallback = accepted;
array a 1|callback f|print a|print a|print a|print a|print a|print a|print a|print a|print a|
print a|print a|print a|print a|print a|print a|print a|print a|endcallback = OutOfRange 23:1;
array a 1|callback f|print a|print a|print a|print a|print a|print a|print a|print a|print a|
print a|print a|print a|print a|print a|print a|print a|print x|endcallback = UnknownName 23:1";

const NAMES: &str = "
let a + b c = accepted;
let c 1 = UnknownName 16:1;
let x 1 = UnknownName 16:1;
let a x = UnknownName 16:1;
set c e = accepted;
set a 1 = UnknownName 16:1;
set x 1 = UnknownName 16:1;
set c latest 0 = accepted;
set c latest 1 = UnknownName 16:1;
print a = accepted;
print c = accepted;
print f = UnknownName 16:1;
register f = accepted;
register a = UnknownName 16:1;
register g = UnknownName 16:1;
if lt c e|endif = accepted;
if lt c x|endif = UnknownName 16:1;
if lt x c|endif = UnknownName 16:1;
for c 0 1|endfor = accepted;
for a 0 1|endfor = UnknownName 16:1;
for c x 1|endfor = UnknownName 16:1;
sum c a = accepted;
sum a c = UnknownName 16:1;
min c x = UnknownName 16:1;
agree c a 0 = accepted;
agree a a 0 = UnknownName 16:1;
agree c c 0 = UnknownName 16:1;
shift a b 1 = accepted;
shift a c 1 = UnknownName 16:1;
shift c a 1 = UnknownName 16:1";

const GROUPS_AND_MEMBERS: &str = "
commit 0 = accepted;
commit 1 = UnknownName 16:1;
commitbarrier 7 = UnknownName 16:1;
store 0 1 full = accepted;
store 0 2 full = UnknownName 16:1;
store 1 1 full = UnknownName 16:1;
restore 0 1 5 = accepted;
restore 0 2 5 = UnknownName 16:1;
restore 0 1 x = UnknownName 16:1;
restore 0 1 latest 0 = accepted;
drop 0 5 = accepted;
drop 1 5 = UnknownName 16:1;
drop 0 x = UnknownName 16:1;
member 1 0 a = UnknownName 16:1;
member 0 0 c = UnknownName 16:1;
member 0 0 x = UnknownName 16:1;
group 1 0 0|member 1 0 b|store 1 0 full = accepted;
when initial|member 0 3 b|endwhen|store 0 3 full = accepted;
commit 9 = UnknownName 16:1;
group 9 0 0 = OutOfRange 16:1;
commit 9|group 9 0 0 = OutOfRange 16:1;
store 0 9 full = UnknownName 16:1;
store 0 9 full|member 0 9 a = OutOfRange 16:1;
store 9 0 full|group 9 0 0|member 9 0 a = OutOfRange 16:1";

const NUMBERS: &str = "
let a d = OutOfRange 16:1;
let a + 1 - 2 * 3 d = OutOfRange 16:1;
let d d = accepted;
set c latest 8 = UnknownName 16:1;
set c + latest 0 latest 9 = UnknownName 16:1;
agree c a 3 = accepted;
agree c a 4 = OutOfRange 16:1;
agree c d 3 = OutOfRange 16:1;
agree c a -1 = OutOfRange 16:1;
shift a b 15 = accepted;
shift a b 16 = OutOfRange 16:1;
shift a b 0 = OutOfRange 16:1;
shift a d 1 = OutOfRange 16:1;
shift a a 1 = accepted;
group 7 0 0 = accepted;
group 8 0 0 = OutOfRange 16:1;
group -1 0 0 = OutOfRange 16:1;
group 1 -1 0 = OutOfRange 16:1;
group 1 1000000000 15 = accepted;
group 1 1000000001 0 = OutOfRange 16:1;
group 1 0 16 = OutOfRange 16:1;
member 0 7 b = accepted;
member 0 8 b = OutOfRange 16:1;
member 0 -1 b = OutOfRange 16:1;
for c 0 9999|endfor = accepted;
for c 0 10000|endfor = OutOfRange 16:1;
for c 0 -1|endfor = OutOfRange 16:1;
for c -5 0|endfor = accepted";

const BLOCKS_AND_LOOPS: &str = "
if lt c e|if lt c e|if lt c e|if lt c e|if lt c e|if lt c e|if lt c e|if lt c e|print a|endif|
endif|endif|endif|endif|endif|endif|endif = accepted;
if lt c e|if lt c e|if lt c e|if lt c e|if lt c e|if lt c e|if lt c e|if lt c e|if lt c e|
print a|endif|endif|endif|endif|endif|endif|endif|endif|endif = OutOfRange 24:1;
when initial|when initial|when initial|when initial|when initial|when initial|when initial|
when initial|print a|endwhen|endwhen|endwhen|endwhen|endwhen|endwhen|endwhen|endwhen = accepted;
when initial|when initial|when initial|when initial|when initial|when initial|when initial|
when initial|when initial|print a|endwhen|endwhen|endwhen|endwhen|endwhen|endwhen|endwhen|
endwhen|endwhen = OutOfRange 24:1;
for c 0 1|for c 0 1|for c 0 1|for c 0 1|print a|endfor|endfor|endfor|endfor = accepted;
for c 0 1|for c 0 1|for c 0 1|for c 0 1|for c 0 1|print a|endfor|endfor|endfor|endfor|
endfor = OutOfRange 20:1;
if lt c e|if lt c e|if lt c e|if lt c e|for c 0 0|for c 0 0|for c 0 0|for c 0 0|print a|endfor|
endfor|endfor|endfor|endif|endif|endif|endif = accepted;
if lt c e|if lt c e|if lt c e|if lt c e|if lt c e|for c 0 0|for c 0 0|for c 0 0|for c 0 0|
print a|endfor|endfor|endfor|endfor|endif|endif|endif|endif|endif = OutOfRange 24:1;
if lt c e|when initial|when initial|when initial|when initial|when initial|when initial|
when initial|print a|endwhen|endwhen|endwhen|endwhen|endwhen|endwhen|endwhen|else|when initial|
when initial|when initial|when initial|when initial|when initial|when initial|when initial|
print a|endwhen|endwhen|endwhen|endwhen|endwhen|endwhen|endwhen|endwhen|endif = OutOfRange 40:1";

const CONTROL: &str = "
set c rank = NotUniform 16:1;
set c index = NotUniform 16:1;
set c size = accepted;
set c a = NotUniform 16:1;
set c * 2 + e latest 0 = accepted;
set c - 1 a = NotUniform 16:1;
if lt rank 1|endif = NotUniform 16:1;
if lt 1 index|endif = NotUniform 16:1;
if le a 1|endif = NotUniform 16:1;
for c rank 1|endfor = NotUniform 16:1;
for c size 1|endfor = accepted;
restore 0 1 rank = NotUniform 16:1;
restore 0 1 + 5 size = accepted;
drop 0 index = NotUniform 16:1;
drop 0 a = NotUniform 16:1;
let a rank = accepted;
let a + index a = accepted;
when initial|set c 1|endwhen = NotUniform 17:1;
when survivor|for c 0 1|endfor|endwhen = NotUniform 17:1;
when recovered|if lt c 1|set c 2|endif|endwhen = NotUniform 18:1;
when initial|if lt rank 1|endif|endwhen = NotUniform 17:1";

const INSIDE_WHEN: &str = "
barrier = Misplaced 17:1;
sum c a = Misplaced 17:1;
min c a = Misplaced 17:1;
max c a = Misplaced 17:1;
agree c a 0 = Misplaced 17:1;
shift a b 1 = Misplaced 17:1;
group 0 5 2 = Misplaced 17:1;
commit 0 = Misplaced 17:1;
commitbarrier 0 = Misplaced 17:1;
drop 0 5 = Misplaced 17:1;
member 0 1 a = accepted;
store 0 1 full = accepted;
restore 0 1 5 = accepted;
let a 1 = accepted;
print a = accepted;
register f = accepted;
if lt c 1|barrier|else|endif = Misplaced 18:1;
if lt c 1|else|commit 0|endif = Misplaced 19:1";

const IN_CALLBACKS: &str = "
let a 1 = accepted;
print c = accepted;
set c 1 = Misplaced 11:1;
register f = Misplaced 11:1;
barrier = Misplaced 11:1;
when initial|endwhen = Misplaced 11:1;
if lt c 1|endif = Misplaced 11:1;
for c 0 1|endfor = Misplaced 11:1;
member 0 1 a = Misplaced 11:1;
store 0 1 full = Misplaced 11:1;
register g = UnknownName 11:1;
commit 1 = UnknownName 11:1";

const AGREEMENT: &str = "
group 0 5 2 = accepted;
group 0 6 2 = GroupDiffers 16:1;
group 0 5 3 = GroupDiffers 16:1;
group 0 6 16 = OutOfRange 16:1;
group 1 0 0|group 1 0 0 = accepted;
group 1 0 0|group 1 0 1 = GroupDiffers 17:1;
member 0 1 a = accepted;
member 0 1 b = MemberDiffers 16:1;
member 0 1 x = UnknownName 16:1;
member 0 2 b|member 0 2 a = MemberDiffers 17:1;
when initial|member 0 3 b|endwhen|member 0 3 a = MemberDiffers 19:1";

const SUBSETS: &str = "
store 0 1 full = accepted;
store 0 1 empty = accepted;
store 0 1 strided 1 0 3 0 = accepted;
store 0 1 strided 1 0 4 0 = SubsetOutside 16:1;
store 0 1 strided 2 0 1 2 = accepted;
store 0 1 strided 2 0 1 3 = SubsetOutside 16:1;
store 0 1 strided 2 0 1 0 = SubsetOutside 16:1;
store 0 1 strided 0 0 0 0 = SubsetOutside 16:1;
store 0 1 strided 1 2 1 0 = SubsetOutside 16:1;
store 0 1 strided 4294967295 0 0 1 = SubsetOutside 16:1;
store 0 1 strided 4294967296 0 0 1 = OutOfRange 16:1;
store 0 1 strided 1 -1 0 0 = OutOfRange 16:1;
store 0 1 ranges 0 3 = accepted;
store 0 1 ranges 1 4 = SubsetOutside 16:1;
store 0 1 ranges 2 1 = SubsetOutside 16:1;
store 0 1 ranges 0 0 3 3 1 2 = accepted;
store 0 1 ranges 0 0 9 9 2 1 = SubsetOutside 16:1;
store 0 1 ranges 0 4294967296 = OutOfRange 16:1;
store 0 1 ranges 0 4294967295 = SubsetOutside 16:1;
member 0 2 c|store 0 2 ranges 0 9 = UnknownName 16:1;
store 0 2 ranges 0 3|member 0 2 d|member 0 2 b = SubsetOutside 16:1;
store 0 2 ranges 0 9|member 0 2 c = UnknownName 17:1";

const WORK: &str = "
for c 0 9997|print a|endfor = accepted;
for c 0 9998|print a|endfor = TooMuchWork 13:1;
for c 0 9999|print a|endfor = TooMuchWork 13:1;
for c 0 9999|endfor = accepted;
for c 0 9999|endfor|for c 0 9997|endfor = TooMuchWork 13:1;
for c 0 9999|print a|endfor|print x = UnknownName 19:1;
for c 0 140|for e 0 139|endfor|endfor = TooMuchWork 13:1;
for c 0 141|for e 0 139|endfor|endfor = TooMuchWork 13:1;
for c 0 9999|for e 0 9999|for c 0 9999|for e 0 9999|print a|endfor|endfor|endfor|
endfor = TooMuchWork 13:1;
when initial|print a|endwhen|if lt c e|print a|else|print c|endif|for c 0 9996|print a|
endfor = TooMuchWork 13:1;
if lt c e|for c 0 4999|print a|endfor|else|for e 0 4996|print a|endfor|endif = accepted;
if lt c e|for c 0 4999|print a|endfor|else|for e 0 4997|print a|endfor|endif = TooMuchWork 13:1";

const FIRST_LINES: &str = "
let x d|let a d = UnknownName 16:1;
let a d|let x 1 = OutOfRange 16:1;
when initial|set x rank|endwhen = UnknownName 17:1;
when initial|set c rank|for c rank 10000|endfor|endwhen = NotUniform 17:1;
commit 8|commit 9 = UnknownName 16:1;
group 0 6 99|group 0 6 2 = OutOfRange 16:1;
when initial|group 0 6 2|endwhen = Misplaced 17:1;
store 0 1 ranges 9 8|member 0 1 b = SubsetOutside 16:1;
member 0 1 d|store 0 1 full = MemberDiffers 16:1;
when initial|drop 0 rank|endwhen = NotUniform 17:1;
when initial|drop 1 rank|endwhen = UnknownName 17:1";

const OTHER_JOBS: &str = "
array a 4|array b 4|array d 3|counter c|counter e|callback f|let a 0|endcallback|begin|
store 0 1 full|end|schedule|stop| = UnknownName 14:1;
array a 4|array b 4|array d 3|counter c|counter e|callback f|let a 0|endcallback|begin|commit 0|
group 0 0 0|end|schedule|stop| = accepted;
array a 999|array a 1|begin|print x|end|schedule|step 9|stop| = OutOfRange 5:1;
array a 1|begin|print a|end|schedule|step 9|run 0|stop| = OutOfRange 10:1";

#[test]
fn jobs_are_answered_as_in_the_table(rt: HostRuntime) -> Result<(), Fail> {
    for (before, rows, behind) in [
        (HEADLESS, HEADS, NO_BODY),
        (SCHEDULED, EVENTS, STOPPED),
        (HEADED, DECLARATIONS, NO_BODY),
        (IN_BODY, NAMES, OUT_OF_BODY),
        (IN_BODY, GROUPS_AND_MEMBERS, OUT_OF_BODY),
        (IN_BODY, NUMBERS, OUT_OF_BODY),
        (IN_BODY, BLOCKS_AND_LOOPS, OUT_OF_BODY),
        (IN_BODY, CONTROL, OUT_OF_BODY),
        (IN_WHEN, INSIDE_WHEN, OUT_OF_WHEN),
        (CALLED, IN_CALLBACKS, OUT_OF_CALLED),
        (IN_BODY, AGREEMENT, OUT_OF_BODY),
        (IN_BODY, SUBSETS, OUT_OF_BODY),
        (IN_BODY, WORK, OUT_OF_BODY),
        (IN_BODY, FIRST_LINES, OUT_OF_BODY),
        (HEADED, OTHER_JOBS, ""),
    ] {
        for row in rows.split(';') {
            let Some((piece, expected)) = row.split_once(" = ") else {
                return Err(Fail::from("a row has an answer"));
            };
            let text = text_of(&rt, rt.alloc(), &[before, piece, behind])?;
            let answer = answer(rt.alloc(), &text)?;
            assert_eq!(rt; answer.as_str(), expected, "at {piece}");
        }
    }
    Ok(())
}

// What is said of the job of a text.
fn answer(alloc: Global, text: &Bytes) -> Result<String, Fail>
    requires { length text.now < 4096 }
{
    match check_job(alloc, read_job(alloc, text.as_slice())?) {
        Ok(_) => Ok(format!(in alloc; "accepted")?),
        Err(CheckJob::Refused(fault, Spot { line, column })) => {
            Ok(format!(in alloc; "{fault:?} {line}:{column}")?)
        }
        Err(CheckJob::NoMemory) => Err(Fail::from("memory is ample")),
    }
}

#[test]
fn an_accepted_job_knows_its_bound(rt: HostRuntime) -> Result<(), Fail> {
    let pieces = [IN_BODY, "for c 0 9|barrier|endfor", OUT_OF_BODY];
    let text = text_of(&rt, rt.alloc(), &pieces)?;
    let accepted = check_job(rt.alloc(), read_job(rt.alloc(), text.as_slice())?)?;
    assert_eq!(rt; accepted.job().ranks, 3);
    assert_eq!(rt; accepted.procs(), 4);
    // two statements, and a loop of 1 and ten turns of 2
    assert_eq!(rt; accepted.work(), 23);
    assert_eq!(rt; accepted.bound(), 4 * 10 * 25 * 12);
    Ok(())
}
