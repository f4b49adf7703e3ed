use crate::calls::{Row, answer_to};
use crate::written::bytes_of;
use std::test::Fail;

const BARRIERS_AND_REDUCTIONS: [Row; 10] = [
    Row {
        shows: "a barrier of two ranks",
        words: "run",
        source: "fenix 1|ranks 2|spares 0|separation 1|begin|barrier|end|schedule|stop|",
        written: "join 0 1 start|join 1 1 start|repaired 1 1 2 full : 0=0 1=1|init 1 1 initial 1 1 2 full|barrier 1 1 1|repaired 0 1 2 full : 0=0 1=1|init 0 1 initial 0 0 2 full|barrier 0 1 1|passed 0 1 1|join 0 2 final|passed 1 1 1|join 1 2 final|ended 1|ended 0|",
        code: 0,
    },
    Row {
        shows: "all of it",
        words: "wire",
        source: "fenix 1|ranks 2|spares 0|separation 1|begin|barrier|end|schedule|stop|",
        written: "join 0 1 start|send 0 1 join 1 start|deliver 0 1 join 1 start|join 1 1 start|send 1 0 join 1 start|deliver 1 0 join 1 start|send 0 1 jest 1 0 start,start|deliver 0 1 jest 1 0 start,start|send 1 0 jest 1 1 start,start|repaired 1 1 2 full : 0=0 1=1|init 1 1 initial 1 1 2 full|barrier 1 1 1|send 1 0 part 1 1 :|deliver 1 0 jest 1 1 start,start|deliver 1 0 part 1 1 :|repaired 0 1 2 full : 0=0 1=1|init 0 1 initial 0 0 2 full|barrier 0 1 1|send 0 1 part 1 1 :|passed 0 1 1|join 0 2 final|send 0 1 join 2 final|deliver 0 1 part 1 1 :|deliver 0 1 join 2 final|passed 1 1 1|join 1 2 final|send 1 0 join 2 final|deliver 1 0 join 2 final|send 0 1 jest 2 0 final,final|deliver 0 1 jest 2 0 final,final|send 1 0 jest 2 1 final,final|ended 1|deliver 1 0 jest 2 1 final,final|ended 0|",
        code: 0,
    },
    Row {
        shows: "the sum, the least and the greatest of all elements",
        words: "run",
        source: "fenix 1|ranks 3|spares 0|separation 1|array a 2|counter c|begin|let a - * rank 5 index|sum c a|print c|min c a|print c|max c a|print c|end|schedule|stop|",
        written: "join 0 1 start|join 1 1 start|join 2 1 start|repaired 2 1 3 full : 0=0 1=1 2=2|init 2 1 initial 2 2 3 full|reduce 2 1 1 sum 19|repaired 0 1 3 full : 0=0 1=1 2=2|init 0 1 initial 0 0 3 full|reduce 0 1 1 sum -1|repaired 1 1 3 full : 0=0 1=1 2=2|init 1 1 initial 1 1 3 full|reduce 1 1 1 sum 9|value 1 1 1 27|print 1 1 c : 27|reduce 1 1 2 min 4|value 2 1 1 27|print 2 1 c : 27|reduce 2 1 2 min 9|value 0 1 1 27|print 0 1 c : 27|reduce 0 1 2 min -1|value 0 1 2 -1|print 0 1 c : -1|reduce 0 1 3 max 0|value 1 1 2 -1|print 1 1 c : -1|reduce 1 1 3 max 5|value 2 1 2 -1|print 2 1 c : -1|reduce 2 1 3 max 10|value 2 1 3 10|print 2 1 c : 10|join 2 2 final|value 0 1 3 10|print 0 1 c : 10|join 0 2 final|value 1 1 3 10|print 1 1 c : 10|join 1 2 final|ended 2|ended 0|ended 1|",
        code: 0,
    },
    Row {
        shows: "a sum past the greatest number of 64 bits",
        words: "run",
        source: "fenix 1|ranks 2|spares 0|separation 1|array a 1|counter c|begin|let a + 9223372036854775807 rank|sum c a|print c|end|schedule|stop|",
        written: "join 0 1 start|join 1 1 start|repaired 1 1 2 full : 0=0 1=1|init 1 1 initial 1 1 2 full|reduce 1 1 1 sum -9223372036854775808|repaired 0 1 2 full : 0=0 1=1|init 0 1 initial 0 0 2 full|reduce 0 1 1 sum 9223372036854775807|value 0 1 1 -1|print 0 1 c : -1|join 0 2 final|value 1 1 1 -1|print 1 1 c : -1|join 1 2 final|ended 1|ended 0|",
        code: 0,
    },
    Row {
        shows: "a barrier in a loop, and a sum by which it branches",
        words: "run",
        source: "fenix 1|ranks 2|spares 0|separation 1|array a 1|counter c|counter s|begin|for c 1 2|let a + rank c|sum s a|if eq s 3|barrier|endif|endfor|end|schedule|stop|",
        written: "join 0 1 start|join 1 1 start|repaired 1 1 2 full : 0=0 1=1|init 1 1 initial 1 1 2 full|reduce 1 1 1 sum 2|repaired 0 1 2 full : 0=0 1=1|init 0 1 initial 0 0 2 full|reduce 0 1 1 sum 1|value 0 1 1 3|barrier 0 1 2|value 1 1 1 3|barrier 1 1 2|passed 1 1 2|reduce 1 1 3 sum 3|passed 0 1 2|reduce 0 1 3 sum 2|value 0 1 3 5|join 0 2 final|value 1 1 3 5|join 1 2 final|ended 1|ended 0|",
        code: 0,
    },
    Row {
        shows: "a barrier that one passes and another fails, and a sum that is revoked",
        words: "run",
        source: "fenix 1|ranks 3|spares 1|separation 1|array a 1|counter c|begin|let a + rank 1|barrier|sum c a|print c|end|schedule|run 2|deliver 3 2|rest 2|deliver 1 0|deliver 2 0|deliver 2 0|deliver 3 0|rest 0|kill 2|notice 2 1|deliver 3 1|rest 1|deliver 1 0|rest 0|deliver 1 0|rest 0|stop|",
        written: "join 0 1 start|join 1 1 start|join 2 1 start|join 3 1 start|repaired 3 1 3 full : 0=0 1=1 2=2|repaired 2 1 3 full : 0=0 1=1 2=2|init 2 1 initial 2 2 3 full|barrier 2 1 1|repaired 0 1 3 full : 0=0 1=1 2=2|init 0 1 initial 0 0 3 full|barrier 0 1 1|kill 2|repaired 1 1 3 full : 0=0 1=1 2=2|init 1 1 initial 1 1 3 full|barrier 1 1 1|failed 1 1 1 2|join 1 2 error|passed 0 1 1|reduce 0 1 2 sum 1|revoked 0 1 2 1|join 0 2 error|join 3 2 spare|repaired 3 2 3 full : 0=0 1=1 2=3|init 3 2 recovered 2 2 3 full|barrier 3 2 1|repaired 0 2 3 full : 0=0 1=1 2=3|init 0 2 survivor 0 0 3 full|barrier 0 2 1|repaired 1 2 3 full : 0=0 1=1 2=3|init 1 2 survivor 1 1 3 full|barrier 1 2 1|passed 1 2 1|reduce 1 2 2 sum 2|passed 3 2 1|reduce 3 2 2 sum 3|passed 0 2 1|reduce 0 2 2 sum 1|value 0 2 2 6|print 0 2 c : 6|join 0 3 final|value 1 2 2 6|print 1 2 c : 6|join 1 3 final|value 3 2 2 6|print 3 2 c : 6|join 3 3 final|ended 3|ended 0|ended 1|",
        code: 0,
    },
    Row {
        shows: "a barrier whose last part comes though its sender is lost",
        words: "run",
        source: "fenix 1|ranks 3|spares 1|separation 1|array a 1|counter c|begin|let a + rank 1|barrier|end|schedule|run 2|deliver 3 2|rest 2|kill 2|stop|",
        written: "join 0 1 start|join 1 1 start|join 2 1 start|join 3 1 start|repaired 3 1 3 full : 0=0 1=1 2=2|repaired 2 1 3 full : 0=0 1=1 2=2|init 2 1 initial 2 2 3 full|barrier 2 1 1|kill 2|repaired 0 1 3 full : 0=0 1=1 2=2|init 0 1 initial 0 0 3 full|barrier 0 1 1|repaired 1 1 3 full : 0=0 1=1 2=2|init 1 1 initial 1 1 3 full|barrier 1 1 1|passed 1 1 1|join 1 2 final|join 3 2 spare|passed 0 1 1|join 0 2 final|repaired 3 2 3 full : 0=0 1=1 2=3|init 3 2 recovered 2 2 3 full|barrier 3 2 1|repaired 0 2 3 full : 0=0 1=1 2=3|init 0 2 survivor 0 0 3 full|barrier 0 2 1|repaired 1 2 3 full : 0=0 1=1 2=3|init 1 2 survivor 1 1 3 full|barrier 1 2 1|passed 1 2 1|join 1 3 final|passed 3 2 1|join 3 3 final|passed 0 2 1|join 0 3 final|ended 3|ended 0|ended 1|",
        code: 0,
    },
    Row {
        shows: "a rank that is lost before it enters a barrier, and no spare",
        words: "run",
        source: "fenix 1|ranks 3|spares 0|separation 1|begin|barrier|end|schedule|run 2|kill 1|stop|",
        written: "join 0 1 start|join 1 1 start|join 2 1 start|repaired 2 1 3 full : 0=0 1=1 2=2|init 2 1 initial 2 2 3 full|barrier 2 1 1|kill 1|repaired 0 1 3 full : 0=0 1=1 2=2|init 0 1 initial 0 0 3 full|barrier 0 1 1|failed 0 1 1 1|join 0 2 error|failed 2 1 1 1|join 2 2 error|repaired 2 2 2 spares-depleted : 0=0 2=2|init 2 2 survivor 2 1 2 spares-depleted|barrier 2 2 1|repaired 0 2 2 spares-depleted : 0=0 2=2|init 0 2 survivor 0 0 2 spares-depleted|barrier 0 2 1|passed 0 2 1|join 0 3 final|passed 2 2 1|join 2 3 final|ended 2|ended 0|",
        code: 0,
    },
    Row {
        shows: "two losses in two epochs inside a sum",
        words: "run",
        source: "fenix 1|ranks 3|spares 2|separation 1|array a 1|counter c|begin|let a + rank 1|sum c a|barrier|end|schedule|run 2|kill 1|run 2|kill 0|stop|",
        written: "join 0 1 start|join 1 1 start|join 2 1 start|join 3 1 start|join 4 1 start|repaired 4 1 3 full : 0=0 1=1 2=2|kill 1|repaired 0 1 3 full : 0=0 1=1 2=2|init 0 1 initial 0 0 3 full|reduce 0 1 1 sum 1|failed 0 1 1 1|join 0 2 error|repaired 2 1 3 full : 0=0 1=1 2=2|init 2 1 initial 2 2 3 full|reduce 2 1 1 sum 3|failed 2 1 1 1|join 2 2 error|repaired 3 1 3 full : 0=0 1=1 2=2|join 3 2 spare|join 4 2 spare|repaired 4 2 3 full : 0=0 1=3 2=2|kill 0|repaired 2 2 3 full : 0=0 1=3 2=2|init 2 2 survivor 2 2 3 full|reduce 2 2 1 sum 3|failed 2 2 1 0|join 2 3 error|repaired 3 2 3 full : 0=0 1=3 2=2|init 3 2 recovered 1 1 3 full|reduce 3 2 1 sum 2|failed 3 2 1 0|join 3 3 error|join 4 3 spare|repaired 4 3 3 full : 0=4 1=3 2=2|init 4 3 recovered 0 0 3 full|reduce 4 3 1 sum 1|repaired 2 3 3 full : 0=4 1=3 2=2|init 2 3 survivor 2 2 3 full|reduce 2 3 1 sum 3|repaired 3 3 3 full : 0=4 1=3 2=2|init 3 3 survivor 1 1 3 full|reduce 3 3 1 sum 2|value 3 3 1 6|barrier 3 3 2|value 4 3 1 6|barrier 4 3 2|value 2 3 1 6|barrier 2 3 2|passed 2 3 2|join 2 4 final|passed 3 3 2|join 3 4 final|passed 4 3 2|join 4 4 final|ended 4|ended 2|ended 3|",
        code: 0,
    },
    Row {
        shows: "what is left of the calls of an epoch is not read in the next",
        words: "wire",
        source: "fenix 1|ranks 2|spares 1|separation 1|array a 1|counter c|begin|let a + rank 1|sum c a|end|schedule|run 2|deliver 1 0|deliver 2 0|rest 0|kill 1|stop|",
        written: "join 0 1 start|send 0 1 join 1 start|send 0 2 join 1 start|deliver 0 1 join 1 start|join 1 1 start|send 1 0 join 1 start|send 1 2 join 1 start|deliver 0 2 join 1 start|deliver 1 2 join 1 start|join 2 1 start|send 2 0 join 1 start|send 2 1 join 1 start|deliver 1 0 join 1 start|deliver 2 0 join 1 start|send 0 1 jest 1 0 start,start,start|send 0 2 jest 1 0 start,start,start|deliver 0 1 jest 1 0 start,start,start|deliver 2 1 join 1 start|send 1 0 jest 1 1 start,start,start|send 1 2 jest 1 1 start,start,start|deliver 0 2 jest 1 0 start,start,start|deliver 1 2 jest 1 1 start,start,start|send 2 0 jest 1 2 start,start,start|send 2 1 jest 1 2 start,start,start|repaired 2 1 2 full : 0=0 1=1|deliver 1 0 jest 1 1 start,start,start|deliver 2 0 jest 1 2 start,start,start|repaired 0 1 2 full : 0=0 1=1|init 0 1 initial 0 0 2 full|reduce 0 1 1 sum 1|send 0 1 part 1 1 : 1|kill 1|told 1 0|failed 0 1 1 1|join 0 2 error|send 0 1 join 2 error|send 0 2 join 2 error|deliver 0 2 join 2 error|told 1 2|join 2 2 spare|send 2 0 join 2 spare|send 2 1 join 2 spare|deliver 2 0 join 2 spare|send 0 1 jest 2 0 error,lost,spare|send 0 2 jest 2 0 error,lost,spare|deliver 0 2 jest 2 0 error,lost,spare|send 2 0 jest 2 2 error,lost,spare|send 2 1 jest 2 2 error,lost,spare|repaired 2 2 2 full : 0=0 1=2|init 2 2 recovered 1 1 2 full|reduce 2 2 1 sum 2|send 2 0 part 2 1 : 2|deliver 2 0 jest 2 2 error,lost,spare|deliver 2 0 part 2 1 : 2|repaired 0 2 2 full : 0=0 1=2|init 0 2 survivor 0 0 2 full|reduce 0 2 1 sum 1|send 0 2 part 2 1 : 1|value 0 2 1 3|join 0 3 final|send 0 2 join 3 final|deliver 0 2 part 2 1 : 1|deliver 0 2 join 3 final|value 2 2 1 3|join 2 3 final|send 2 0 join 3 final|deliver 2 0 join 3 final|send 0 2 jest 3 0 final,final|deliver 0 2 jest 3 0 final,final|send 2 0 jest 3 1 final,final|ended 2|deliver 2 0 jest 3 1 final,final|ended 0|",
        code: 0,
    },
];

const AGREEMENTS_AND_SHIFTS: [Row; 11] = [
    Row {
        shows: "the agreement of three ranks on the bits that all their numbers have, by which they branch",
        words: "run",
        source: "fenix 1|ranks 3|spares 0|separation 1|array a 2|counter c|begin|let a - * rank 13 index|agree c a 1|print c|if eq c 8|barrier|endif|end|schedule|stop|",
        written: "join 0 1 start|join 1 1 start|join 2 1 start|repaired 2 1 3 full : 0=0 1=1 2=2|init 2 1 initial 2 2 3 full|agree 2 1 1 25|repaired 0 1 3 full : 0=0 1=1 2=2|init 0 1 initial 0 0 3 full|agree 0 1 1 -1|repaired 1 1 3 full : 0=0 1=1 2=2|init 1 1 initial 1 1 3 full|agree 1 1 1 12|value 2 1 1 8|print 2 1 c : 8|barrier 2 1 2|value 0 1 1 8|print 0 1 c : 8|barrier 0 1 2|value 1 1 1 8|print 1 1 c : 8|barrier 1 1 2|passed 1 1 2|join 1 2 final|passed 2 1 2|join 2 2 final|passed 0 1 2|join 0 2 final|ended 2|ended 0|ended 1|",
        code: 0,
    },
    Row {
        shows: "all of an agreement of two ranks",
        words: "wire",
        source: "fenix 1|ranks 2|spares 0|separation 1|array a 2|counter c|begin|let a + * rank 3 12|agree c a 1|print c|end|schedule|stop|",
        written: "join 0 1 start|send 0 1 join 1 start|deliver 0 1 join 1 start|join 1 1 start|send 1 0 join 1 start|deliver 1 0 join 1 start|send 0 1 jest 1 0 start,start|deliver 0 1 jest 1 0 start,start|send 1 0 jest 1 1 start,start|repaired 1 1 2 full : 0=0 1=1|init 1 1 initial 1 1 2 full|agree 1 1 1 15|send 1 0 vote 1 1 yes=15|deliver 1 0 jest 1 1 start,start|deliver 1 0 vote 1 1 yes=15|repaired 0 1 2 full : 0=0 1=1|init 0 1 initial 0 0 2 full|agree 0 1 1 12|send 0 1 vote 1 1 yes=12|send 0 1 est 1 1 0 yes=12,yes=15|deliver 0 1 vote 1 1 yes=12|deliver 0 1 est 1 1 0 yes=12,yes=15|send 1 0 est 1 1 1 yes=12,yes=15|value 1 1 1 12|print 1 1 c : 12|join 1 2 final|send 1 0 join 2 final|deliver 1 0 est 1 1 1 yes=12,yes=15|deliver 1 0 join 2 final|value 0 1 1 12|print 0 1 c : 12|join 0 2 final|send 0 1 join 2 final|send 0 1 jest 2 0 final,final|deliver 0 1 join 2 final|deliver 0 1 jest 2 0 final,final|send 1 0 jest 2 1 final,final|ended 1|deliver 1 0 jest 2 1 final,final|ended 0|",
        code: 0,
    },
    Row {
        shows: "an agreement in which a round's sender is killed after its estimate reached one member",
        words: "run",
        source: "fenix 1|ranks 3|spares 0|separation 1|array a 1|counter c|begin|let a - 7 rank|agree c a 0|print c|end|schedule|run 2|deliver 1 0|deliver 2 0|deliver 2 0|rest 0|deliver 2 1|deliver 2 1|deliver 0 1|rest 1|deliver 1 0|rest 0|kill 0|notice 0 2|deliver 0 1|stop|",
        written: "join 0 1 start|join 1 1 start|join 2 1 start|repaired 2 1 3 full : 0=0 1=1 2=2|init 2 1 initial 2 2 3 full|agree 2 1 1 5|repaired 0 1 3 full : 0=0 1=1 2=2|init 0 1 initial 0 0 3 full|agree 0 1 1 7|repaired 1 1 3 full : 0=0 1=1 2=2|init 1 1 initial 1 1 3 full|agree 1 1 1 6|kill 0|value 2 1 1 4|print 2 1 c : 4|join 2 2 final|value 1 1 1 4|print 1 1 c : 4|join 1 2 final|repaired 2 2 2 spares-depleted : 1=1 2=2|init 2 2 survivor 2 1 2 spares-depleted|agree 2 2 1 6|repaired 1 2 2 spares-depleted : 1=1 2=2|init 1 2 survivor 1 0 2 spares-depleted|agree 1 2 1 7|value 2 2 1 6|print 2 2 c : 6|join 2 3 final|value 1 2 1 6|print 1 2 c : 6|join 1 3 final|ended 2|ended 1|",
        code: 0,
    },
    Row {
        shows: "an agreement that fails, since a rank is lost before it votes",
        words: "run",
        source: "fenix 1|ranks 3|spares 1|separation 1|array a 1|counter c|begin|let a - 7 rank|agree c a 0|print c|end|schedule|run 2|kill 1|stop|",
        written: "join 0 1 start|join 1 1 start|join 2 1 start|join 3 1 start|repaired 3 1 3 full : 0=0 1=1 2=2|kill 1|repaired 0 1 3 full : 0=0 1=1 2=2|init 0 1 initial 0 0 3 full|agree 0 1 1 7|repaired 2 1 3 full : 0=0 1=1 2=2|init 2 1 initial 2 2 3 full|agree 2 1 1 5|join 3 2 spare|failed 2 1 1 1|join 2 2 error|failed 0 1 1 1|join 0 2 error|repaired 3 2 3 full : 0=0 1=3 2=2|init 3 2 recovered 1 1 3 full|agree 3 2 1 6|repaired 0 2 3 full : 0=0 1=3 2=2|init 0 2 survivor 0 0 3 full|agree 0 2 1 7|repaired 2 2 3 full : 0=0 1=3 2=2|init 2 2 survivor 2 2 3 full|agree 2 2 1 5|value 2 2 1 4|print 2 2 c : 4|join 2 3 final|value 3 2 1 4|print 3 2 c : 4|join 3 3 final|value 0 2 1 4|print 0 2 c : 4|join 0 3 final|ended 3|ended 0|ended 2|",
        code: 0,
    },
    Row {
        shows: "an agreement that fails, since the vote of a lost rank came to nobody",
        words: "run",
        source: "fenix 1|ranks 2|spares 1|separation 1|array a 1|counter c|begin|let a + rank 6|agree c a 0|print c|end|schedule|run 2|deliver 2 1|rest 1|kill 1|notice 1 0|stop|",
        written: "join 0 1 start|join 1 1 start|join 2 1 start|repaired 2 1 2 full : 0=0 1=1|repaired 1 1 2 full : 0=0 1=1|init 1 1 initial 1 1 2 full|agree 1 1 1 7|kill 1|repaired 0 1 2 full : 0=0 1=1|init 0 1 initial 0 0 2 full|agree 0 1 1 6|failed 0 1 1 1|join 0 2 error|join 2 2 spare|repaired 2 2 2 full : 0=0 1=2|init 2 2 recovered 1 1 2 full|agree 2 2 1 7|repaired 0 2 2 full : 0=0 1=2|init 0 2 survivor 0 0 2 full|agree 0 2 1 6|value 2 2 1 6|print 2 2 c : 6|join 2 3 final|value 0 2 1 6|print 0 2 c : 6|join 0 3 final|ended 2|ended 0|",
        code: 0,
    },
    Row {
        shows: "an agreement that is revoked, since a rank has left behind a barrier that it failed",
        words: "run",
        source: "fenix 1|ranks 3|spares 1|separation 1|array a 1|counter c|begin|let a + rank 4|barrier|agree c a 0|print c|end|schedule|run 2|deliver 3 2|rest 2|deliver 1 0|deliver 2 0|deliver 2 0|deliver 3 0|rest 0|kill 2|notice 2 1|deliver 3 1|rest 1|deliver 1 0|rest 0|deliver 1 0|rest 0|stop|",
        written: "join 0 1 start|join 1 1 start|join 2 1 start|join 3 1 start|repaired 3 1 3 full : 0=0 1=1 2=2|repaired 2 1 3 full : 0=0 1=1 2=2|init 2 1 initial 2 2 3 full|barrier 2 1 1|repaired 0 1 3 full : 0=0 1=1 2=2|init 0 1 initial 0 0 3 full|barrier 0 1 1|kill 2|repaired 1 1 3 full : 0=0 1=1 2=2|init 1 1 initial 1 1 3 full|barrier 1 1 1|failed 1 1 1 2|join 1 2 error|passed 0 1 1|agree 0 1 2 4|revoked 0 1 2 1|join 0 2 error|join 3 2 spare|repaired 3 2 3 full : 0=0 1=1 2=3|init 3 2 recovered 2 2 3 full|barrier 3 2 1|repaired 0 2 3 full : 0=0 1=1 2=3|init 0 2 survivor 0 0 3 full|barrier 0 2 1|repaired 1 2 3 full : 0=0 1=1 2=3|init 1 2 survivor 1 1 3 full|barrier 1 2 1|passed 1 2 1|agree 1 2 2 5|passed 3 2 1|agree 3 2 2 6|passed 0 2 1|agree 0 2 2 4|value 3 2 2 4|print 3 2 c : 4|join 3 3 final|value 0 2 2 4|print 0 2 c : 4|join 0 3 final|value 1 2 2 4|print 1 2 c : 4|join 1 3 final|ended 3|ended 0|ended 1|",
        code: 0,
    },
    Row {
        shows: "shifts by one place, by two, by as many as there are ranks, and by more",
        words: "run",
        source: "fenix 1|ranks 3|spares 0|separation 1|array a 2|array b 2|begin|let a + * rank 10 index|shift a b 1|print b|shift a a 2|print a|shift a b 3|print b|shift b a 5|print a|end|schedule|stop|",
        written: "join 0 1 start|join 1 1 start|join 2 1 start|repaired 2 1 3 full : 0=0 1=1 2=2|init 2 1 initial 2 2 3 full|shift 2 1 1 1 : 20 21|repaired 0 1 3 full : 0=0 1=1 2=2|init 0 1 initial 0 0 3 full|shift 0 1 1 1 : 0 1|repaired 1 1 3 full : 0=0 1=1 2=2|init 1 1 initial 1 1 3 full|shift 1 1 1 1 : 10 11|shifted 1 1 1 : 0 1|print 1 1 b : 0 1|shift 1 1 2 2 : 10 11|shifted 2 1 1 : 10 11|print 2 1 b : 10 11|shift 2 1 2 2 : 20 21|shifted 0 1 1 : 20 21|print 0 1 b : 20 21|shift 0 1 2 2 : 0 1|shifted 0 1 2 : 10 11|print 0 1 a : 10 11|shift 0 1 3 3 : 10 11|shifted 1 1 2 : 20 21|print 1 1 a : 20 21|shift 1 1 3 3 : 20 21|shifted 2 1 2 : 0 1|print 2 1 a : 0 1|shift 2 1 3 3 : 0 1|shifted 2 1 3 : 0 1|print 2 1 b : 0 1|shift 2 1 4 5 : 0 1|shifted 0 1 3 : 10 11|print 0 1 b : 10 11|shift 0 1 4 5 : 10 11|shifted 1 1 3 : 20 21|print 1 1 b : 20 21|shift 1 1 4 5 : 20 21|shifted 1 1 4 : 0 1|print 1 1 a : 0 1|join 1 2 final|shifted 2 1 4 : 10 11|print 2 1 a : 10 11|join 2 2 final|shifted 0 1 4 : 20 21|print 0 1 a : 20 21|join 0 2 final|ended 2|ended 0|ended 1|",
        code: 0,
    },
    Row {
        shows: "a shift of one rank, which gets what it gives",
        words: "run",
        source: "fenix 1|ranks 1|spares 0|separation 1|array a 2|array b 2|begin|let a + index 7|shift a b 3|print b|end|schedule|stop|",
        written: "join 0 1 start|repaired 0 1 1 full : 0=0|init 0 1 initial 0 0 1 full|shift 0 1 1 3 : 7 8|shifted 0 1 1 : 7 8|print 0 1 b : 7 8|join 0 2 final|ended 0|",
        code: 0,
    },
    Row {
        shows: "a sum and a shift of two ranks",
        words: "run",
        source: "fenix 1|ranks 2|spares 0|separation 1|array a 2|array b 2|counter c|begin|let a + rank 1|sum c a|shift a b 1|print b|end|schedule|stop|",
        written: "join 0 1 start|join 1 1 start|repaired 1 1 2 full : 0=0 1=1|init 1 1 initial 1 1 2 full|reduce 1 1 1 sum 4|repaired 0 1 2 full : 0=0 1=1|init 0 1 initial 0 0 2 full|reduce 0 1 1 sum 2|value 0 1 1 6|shift 0 1 2 1 : 1 1|value 1 1 1 6|shift 1 1 2 1 : 2 2|shifted 1 1 2 : 1 1|print 1 1 b : 1 1|join 1 2 final|shifted 0 1 2 : 2 2|print 0 1 b : 2 2|join 0 2 final|ended 1|ended 0|",
        code: 0,
    },
    Row {
        shows: "all of a shift of three ranks, whose elements go to one place and an empty part to the other",
        words: "wire",
        source: "fenix 1|ranks 3|spares 0|separation 1|array a 2|begin|let a + rank index|shift a a 1|end|schedule|stop|",
        written: "join 0 1 start|send 0 1 join 1 start|send 0 2 join 1 start|deliver 0 1 join 1 start|join 1 1 start|send 1 0 join 1 start|send 1 2 join 1 start|deliver 0 2 join 1 start|deliver 1 2 join 1 start|join 2 1 start|send 2 0 join 1 start|send 2 1 join 1 start|deliver 1 0 join 1 start|deliver 2 0 join 1 start|send 0 1 jest 1 0 start,start,start|send 0 2 jest 1 0 start,start,start|deliver 0 1 jest 1 0 start,start,start|deliver 2 1 join 1 start|send 1 0 jest 1 1 start,start,start|send 1 2 jest 1 1 start,start,start|deliver 0 2 jest 1 0 start,start,start|deliver 1 2 jest 1 1 start,start,start|send 2 0 jest 1 2 start,start,start|send 2 1 jest 1 2 start,start,start|repaired 2 1 3 full : 0=0 1=1 2=2|init 2 1 initial 2 2 3 full|shift 2 1 1 1 : 2 3|send 2 0 part 1 1 : 2 3|send 2 1 part 1 1 :|deliver 1 0 jest 1 1 start,start,start|deliver 2 0 jest 1 2 start,start,start|deliver 2 0 part 1 1 : 2 3|repaired 0 1 3 full : 0=0 1=1 2=2|init 0 1 initial 0 0 3 full|shift 0 1 1 1 : 0 1|send 0 1 part 1 1 : 0 1|send 0 2 part 1 1 :|deliver 0 1 part 1 1 : 0 1|deliver 2 1 jest 1 2 start,start,start|deliver 2 1 part 1 1 :|repaired 1 1 3 full : 0=0 1=1 2=2|init 1 1 initial 1 1 3 full|shift 1 1 1 1 : 1 2|send 1 0 part 1 1 :|send 1 2 part 1 1 : 1 2|shifted 1 1 1 : 0 1|join 1 2 final|send 1 0 join 2 final|send 1 2 join 2 final|deliver 0 2 part 1 1 :|deliver 1 2 part 1 1 : 1 2|deliver 1 2 join 2 final|shifted 2 1 1 : 1 2|join 2 2 final|send 2 0 join 2 final|send 2 1 join 2 final|deliver 1 0 part 1 1 :|deliver 1 0 join 2 final|deliver 2 0 join 2 final|shifted 0 1 1 : 2 3|join 0 2 final|send 0 1 join 2 final|send 0 2 join 2 final|send 0 1 jest 2 0 final,final,final|send 0 2 jest 2 0 final,final,final|deliver 0 1 join 2 final|deliver 0 1 jest 2 0 final,final,final|deliver 2 1 join 2 final|send 1 0 jest 2 1 final,final,final|send 1 2 jest 2 1 final,final,final|deliver 0 2 join 2 final|deliver 0 2 jest 2 0 final,final,final|deliver 1 2 jest 2 1 final,final,final|send 2 0 jest 2 2 final,final,final|send 2 1 jest 2 2 final,final,final|ended 2|deliver 1 0 jest 2 1 final,final,final|deliver 2 0 jest 2 2 final,final,final|ended 0|deliver 2 1 jest 2 2 final,final,final|ended 1|",
        code: 0,
    },
    Row {
        shows: "a shift that one passes and another fails",
        words: "run",
        source: "fenix 1|ranks 3|spares 1|separation 1|array a 2|array b 2|begin|let a + * rank 10 index|shift a b 1|print b|end|schedule|run 2|deliver 3 2|rest 2|deliver 1 0|deliver 2 0|deliver 2 0|deliver 3 0|rest 0|kill 2|notice 2 1|deliver 3 1|rest 1|deliver 1 0|rest 0|stop|",
        written: "join 0 1 start|join 1 1 start|join 2 1 start|join 3 1 start|repaired 3 1 3 full : 0=0 1=1 2=2|repaired 2 1 3 full : 0=0 1=1 2=2|init 2 1 initial 2 2 3 full|shift 2 1 1 1 : 20 21|repaired 0 1 3 full : 0=0 1=1 2=2|init 0 1 initial 0 0 3 full|shift 0 1 1 1 : 0 1|kill 2|repaired 1 1 3 full : 0=0 1=1 2=2|init 1 1 initial 1 1 3 full|shift 1 1 1 1 : 10 11|failed 1 1 1 2|join 1 2 error|shifted 0 1 1 : 20 21|print 0 1 b : 20 21|join 0 2 final|join 3 2 spare|repaired 3 2 3 full : 0=0 1=1 2=3|init 3 2 recovered 2 2 3 full|shift 3 2 1 1 : 20 21|repaired 0 2 3 full : 0=0 1=1 2=3|init 0 2 survivor 0 0 3 full|shift 0 2 1 1 : 0 1|repaired 1 2 3 full : 0=0 1=1 2=3|init 1 2 survivor 1 1 3 full|shift 1 2 1 1 : 10 11|shifted 1 2 1 : 0 1|print 1 2 b : 0 1|join 1 3 final|shifted 3 2 1 : 10 11|print 3 2 b : 10 11|join 3 3 final|shifted 0 2 1 : 20 21|print 0 2 b : 20 21|join 0 3 final|ended 3|ended 0|ended 1|",
        code: 0,
    },
];

#[test]
fn barriers_and_reductions_are_run(rt: HostRuntime) -> Result<(), Fail> {
    for row in BARRIERS_AND_REDUCTIONS.iter() {
        let (code, written) = answer_to(rt.alloc(), row)?;
        let due = bytes_of(rt.alloc(), &[row.written])?;
        assert_eq!(rt; code, row.code, "at {}", row.shows);
        assert_eq!(rt; written.as_slice(), due.as_slice(), "at {}", row.shows);
    }
    Ok(())
}

#[test]
fn agreements_and_shifts_are_run(rt: HostRuntime) -> Result<(), Fail> {
    for row in AGREEMENTS_AND_SHIFTS.iter() {
        let (code, written) = answer_to(rt.alloc(), row)?;
        let due = bytes_of(rt.alloc(), &[row.written])?;
        assert_eq!(rt; code, row.code, "at {}", row.shows);
        assert_eq!(rt; written.as_slice(), due.as_slice(), "at {}", row.shows);
    }
    Ok(())
}
