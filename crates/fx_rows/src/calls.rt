use crate::written::bytes_of;
use fx_base::Bytes;
use fx_cli::{code, fenix_in_memory};
use std::alloc::Global;
use std::test::Fail;

/// A row: what it shows, the words, the source, all that is written, and the code. A bar stands for a line end.
pub struct Row {
    pub shows: &'static str,
    pub words: &'static str,
    pub source: &'static str,
    pub written: &'static str,
    pub code: u8,
}

const RUN_ROWS: [Row; 13] = [
    Row {
        shows: "the prints of one rank",
        words: "run",
        source: "fenix 1|ranks 1|spares 0|separation 1|array a 3|begin|print a|print a|end|schedule|stop|",
        written: "join 0 1 start|repaired 0 1 1 full : 0=0|init 0 1 initial 0 0 1 full|print 0 1 a : 0 0 0|print 0 1 a : 0 0 0|join 0 2 final|ended 0|",
        code: 0,
    },
    Row {
        shows: "an empty source",
        words: "run",
        source: "",
        written: "fenix: bad job: MissingPart at 1:1|",
        code: 3,
    },
    Row {
        shows: "a word too many",
        words: "run run",
        source: "fenix 1|ranks 1|spares 0|separation 1|array a 3|begin|print a|print a|end|schedule|stop|",
        written: "fenix: bad words|",
        code: 2,
    },
    Row {
        shows: "another word",
        words: "walk",
        source: "fenix 1|ranks 1|spares 0|separation 1|array a 3|begin|print a|print a|end|schedule|stop|",
        written: "fenix: bad words|",
        code: 2,
    },
    Row {
        shows: "a line without its end",
        words: "run",
        source: "fenix 1",
        written: "fenix: bad job: BadLine at 1:8|",
        code: 3,
    },
    Row {
        shows: "a number that is too wide",
        words: "run",
        source: "fenix 1|ranks 9223372036854775808|",
        written: "fenix: bad job: BadNumber at 2:7|",
        code: 3,
    },
    Row {
        shows: "two ranks",
        words: "run",
        source: "fenix 1|ranks 2|spares 0|separation 1|array a 1|begin|print a|end|schedule|stop|",
        written: "join 0 1 start|join 1 1 start|repaired 1 1 2 full : 0=0 1=1|init 1 1 initial 1 1 2 full|print 1 1 a : 0|join 1 2 final|repaired 0 1 2 full : 0=0 1=1|init 0 1 initial 0 0 2 full|print 0 1 a : 0|join 0 2 final|ended 1|ended 0|",
        code: 0,
    },
    Row {
        shows: "what two ranks send",
        words: "wire",
        source: "fenix 1|ranks 2|spares 0|separation 1|array a 1|begin|print a|end|schedule|stop|",
        written: "join 0 1 start|send 0 1 join 1 start|deliver 0 1 join 1 start|join 1 1 start|send 1 0 join 1 start|deliver 1 0 join 1 start|send 0 1 jest 1 0 start,start|deliver 0 1 jest 1 0 start,start|send 1 0 jest 1 1 start,start|repaired 1 1 2 full : 0=0 1=1|init 1 1 initial 1 1 2 full|print 1 1 a : 0|join 1 2 final|send 1 0 join 2 final|deliver 1 0 jest 1 1 start,start|deliver 1 0 join 2 final|repaired 0 1 2 full : 0=0 1=1|init 0 1 initial 0 0 2 full|print 0 1 a : 0|join 0 2 final|send 0 1 join 2 final|send 0 1 jest 2 0 final,final|deliver 0 1 join 2 final|deliver 0 1 jest 2 0 final,final|send 1 0 jest 2 1 final,final|ended 1|deliver 1 0 jest 2 1 final,final|ended 0|",
        code: 0,
    },
    Row {
        shows: "events, and a spare that helps out",
        words: "run",
        source: "fenix 1|ranks 2|spares 1|separation 1|array a 2|begin|let a + rank index|print a|end|schedule|step 0|deliver 0 1|rest 1|run 1|stop|",
        written: "join 0 1 start|join 1 1 start|join 2 1 start|repaired 2 1 2 full : 0=0 1=1|repaired 0 1 2 full : 0=0 1=1|init 0 1 initial 0 0 2 full|print 0 1 a : 0 1|join 0 2 final|repaired 1 1 2 full : 0=0 1=1|init 1 1 initial 1 1 2 full|print 1 1 a : 1 2|join 1 2 final|join 2 2 spare|ended 2|ended 0|ended 1|",
        code: 0,
    },
    Row {
        shows: "all of it",
        words: "wire",
        source: "fenix 1|ranks 2|spares 1|separation 1|array a 2|begin|let a + rank index|print a|end|schedule|step 0|deliver 0 1|rest 1|run 1|stop|",
        written: "join 0 1 start|send 0 1 join 1 start|send 0 2 join 1 start|deliver 0 1 join 1 start|join 1 1 start|send 1 0 join 1 start|send 1 2 join 1 start|deliver 1 0 join 1 start|deliver 0 2 join 1 start|deliver 1 2 join 1 start|join 2 1 start|send 2 0 join 1 start|send 2 1 join 1 start|deliver 2 0 join 1 start|send 0 1 jest 1 0 start,start,start|send 0 2 jest 1 0 start,start,start|deliver 0 1 jest 1 0 start,start,start|deliver 2 1 join 1 start|send 1 0 jest 1 1 start,start,start|send 1 2 jest 1 1 start,start,start|deliver 0 2 jest 1 0 start,start,start|deliver 1 2 jest 1 1 start,start,start|send 2 0 jest 1 2 start,start,start|send 2 1 jest 1 2 start,start,start|repaired 2 1 2 full : 0=0 1=1|deliver 1 0 jest 1 1 start,start,start|deliver 2 0 jest 1 2 start,start,start|repaired 0 1 2 full : 0=0 1=1|init 0 1 initial 0 0 2 full|print 0 1 a : 0 1|join 0 2 final|send 0 1 join 2 final|send 0 2 join 2 final|deliver 0 1 join 2 final|deliver 2 1 jest 1 2 start,start,start|repaired 1 1 2 full : 0=0 1=1|init 1 1 initial 1 1 2 full|print 1 1 a : 1 2|join 1 2 final|send 1 0 join 2 final|send 1 2 join 2 final|deliver 0 2 join 2 final|deliver 1 2 join 2 final|join 2 2 spare|send 2 0 join 2 spare|send 2 1 join 2 spare|deliver 1 0 join 2 final|deliver 2 0 join 2 spare|send 0 1 jest 2 0 final,final,spare|send 0 2 jest 2 0 final,final,spare|deliver 0 1 jest 2 0 final,final,spare|deliver 2 1 join 2 spare|send 1 0 jest 2 1 final,final,spare|send 1 2 jest 2 1 final,final,spare|deliver 0 2 jest 2 0 final,final,spare|deliver 1 2 jest 2 1 final,final,spare|send 2 0 jest 2 2 final,final,spare|send 2 1 jest 2 2 final,final,spare|ended 2|deliver 1 0 jest 2 1 final,final,spare|deliver 2 0 jest 2 2 final,final,spare|ended 0|deliver 2 1 jest 2 2 final,final,spare|ended 1|",
        code: 0,
    },
    Row {
        shows: "an agreement of two ranks",
        words: "run",
        source: "fenix 1|ranks 2|spares 0|separation 1|array a 1|counter c|begin|barrier|agree c a 0|end|schedule|stop|",
        written: "join 0 1 start|join 1 1 start|repaired 1 1 2 full : 0=0 1=1|init 1 1 initial 1 1 2 full|barrier 1 1 1|repaired 0 1 2 full : 0=0 1=1|init 0 1 initial 0 0 2 full|barrier 0 1 1|passed 0 1 1|agree 0 1 2 0|passed 1 1 1|agree 1 1 2 0|value 1 1 2 0|join 1 2 final|value 0 1 2 0|join 0 2 final|ended 1|ended 0|",
        code: 0,
    },
    Row {
        shows: "a shift inside a loop",
        words: "run",
        source: "fenix 1|ranks 1|spares 0|separation 1|array a 1|counter c|begin|for c 0 1|print c|shift a a 1|endfor|end|schedule|stop|",
        written: "join 0 1 start|repaired 0 1 1 full : 0=0|init 0 1 initial 0 0 1 full|print 0 1 c : 0|shift 0 1 1 1 : 0|shifted 0 1 1 : 0|print 0 1 c : 1|shift 0 1 2 1 : 0|shifted 0 1 2 : 0|join 0 2 final|ended 0|",
        code: 0,
    },
    Row {
        shows: "a data group behind `else`",
        words: "run",
        source: "fenix 1|ranks 1|spares 0|separation 1|counter c|begin|if lt c 1|print c|else|group 0 0 0|endif|end|schedule|stop|",
        written: "fenix: bad job: NotBuilt at 10:1|",
        code: 3,
    },
];

const LOSS_ROWS: [Row; 13] = [
    Row {
        shows: "a rank that is lost after two rounds, and a spare that takes its place",
        words: "run",
        source: "fenix 1|ranks 2|spares 1|separation 1|array a 1|callback n|print a|endcallback|begin|register n|let a + a 5|print a|end|schedule|run 2|kill 1|stop|",
        written: "join 0 1 start|join 1 1 start|join 2 1 start|repaired 2 1 2 full : 0=0 1=1|kill 1|repaired 0 1 2 full : 0=0 1=1|init 0 1 initial 0 0 2 full|print 0 1 a : 5|join 0 2 final|join 2 2 spare|repaired 2 2 2 full : 0=0 1=2|init 2 2 recovered 1 1 2 full|print 2 2 a : 5|join 2 3 final|repaired 0 2 2 full : 0=0 1=2|callback 0 2 n|print 0 2 a : 5|init 0 2 survivor 0 0 2 full|print 0 2 a : 10|join 0 3 final|ended 2|ended 0|",
        code: 0,
    },
    Row {
        shows: "all of it",
        words: "wire",
        source: "fenix 1|ranks 2|spares 1|separation 1|array a 1|callback n|print a|endcallback|begin|register n|let a + a 5|print a|end|schedule|run 2|kill 1|stop|",
        written: "join 0 1 start|send 0 1 join 1 start|send 0 2 join 1 start|deliver 0 1 join 1 start|join 1 1 start|send 1 0 join 1 start|send 1 2 join 1 start|deliver 0 2 join 1 start|deliver 1 2 join 1 start|join 2 1 start|send 2 0 join 1 start|send 2 1 join 1 start|deliver 1 0 join 1 start|deliver 2 0 join 1 start|send 0 1 jest 1 0 start,start,start|send 0 2 jest 1 0 start,start,start|deliver 0 1 jest 1 0 start,start,start|deliver 2 1 join 1 start|send 1 0 jest 1 1 start,start,start|send 1 2 jest 1 1 start,start,start|deliver 0 2 jest 1 0 start,start,start|deliver 1 2 jest 1 1 start,start,start|send 2 0 jest 1 2 start,start,start|send 2 1 jest 1 2 start,start,start|repaired 2 1 2 full : 0=0 1=1|kill 1|deliver 1 0 jest 1 1 start,start,start|deliver 2 0 jest 1 2 start,start,start|told 1 0|repaired 0 1 2 full : 0=0 1=1|init 0 1 initial 0 0 2 full|print 0 1 a : 5|join 0 2 final|send 0 1 join 2 final|send 0 2 join 2 final|deliver 0 2 join 2 final|told 1 2|join 2 2 spare|send 2 0 join 2 spare|send 2 1 join 2 spare|deliver 2 0 join 2 spare|send 0 1 jest 2 0 final,lost,spare|send 0 2 jest 2 0 final,lost,spare|deliver 0 2 jest 2 0 final,lost,spare|send 2 0 jest 2 2 final,lost,spare|send 2 1 jest 2 2 final,lost,spare|repaired 2 2 2 full : 0=0 1=2|init 2 2 recovered 1 1 2 full|print 2 2 a : 5|join 2 3 final|send 2 0 join 3 final|deliver 2 0 jest 2 2 final,lost,spare|deliver 2 0 join 3 final|repaired 0 2 2 full : 0=0 1=2|callback 0 2 n|print 0 2 a : 5|init 0 2 survivor 0 0 2 full|print 0 2 a : 10|join 0 3 final|send 0 2 join 3 final|send 0 2 jest 3 0 final,final|deliver 0 2 join 3 final|deliver 0 2 jest 3 0 final,final|send 2 0 jest 3 1 final,final|ended 2|deliver 2 0 jest 3 1 final,final|ended 0|",
        code: 0,
    },
    Row {
        shows: "the one rank, lost before its first step",
        words: "run",
        source: "fenix 1|ranks 1|spares 1|separation 1|array a 3|begin|print a|print a|end|schedule|kill 0|stop|",
        written: "kill 0|join 1 1 start|repaired 1 1 1 full : 0=1|init 1 1 initial 0 0 1 full|print 1 1 a : 0 0 0|print 1 1 a : 0 0 0|join 1 2 final|ended 1|",
        code: 0,
    },
    Row {
        shows: "the spare, lost after two rounds",
        words: "run",
        source: "fenix 1|ranks 1|spares 1|separation 1|array a 3|begin|end|schedule|run 2|kill 1|stop|",
        written: "join 0 1 start|join 1 1 start|repaired 1 1 1 full : 0=0|kill 1|repaired 0 1 1 full : 0=0|init 0 1 initial 0 0 1 full|join 0 2 final|ended 0|",
        code: 0,
    },
    Row {
        shows: "a rank that is lost, and no spare",
        words: "run",
        source: "fenix 1|ranks 2|spares 0|separation 1|counter c|begin|print c|end|schedule|step 0|kill 1|stop|",
        written: "join 0 1 start|kill 1|repaired 0 1 1 spares-depleted : 0=0|init 0 1 initial 0 0 1 spares-depleted|print 0 1 c : 0|join 0 2 final|ended 0|",
        code: 0,
    },
    Row {
        shows: "two ranks that are lost, and two spares",
        words: "run",
        source: "fenix 1|ranks 3|spares 2|separation 1|array a 1|callback n|print a|endcallback|begin|register n|let a + a 5|print a|end|schedule|run 2|kill 1|kill 0|stop|",
        written: "join 0 1 start|join 1 1 start|join 2 1 start|join 3 1 start|join 4 1 start|repaired 4 1 3 full : 0=0 1=1 2=2|kill 1|kill 0|repaired 2 1 3 full : 0=0 1=1 2=2|init 2 1 initial 2 2 3 full|print 2 1 a : 5|join 2 2 final|repaired 3 1 3 full : 0=0 1=1 2=2|join 3 2 spare|join 4 2 spare|repaired 4 2 3 full : 0=3 1=4 2=2|init 4 2 recovered 1 1 3 full|print 4 2 a : 5|join 4 3 final|repaired 2 2 3 full : 0=3 1=4 2=2|callback 2 2 n|print 2 2 a : 5|init 2 2 survivor 2 2 3 full|print 2 2 a : 10|join 2 3 final|repaired 3 2 3 full : 0=3 1=4 2=2|init 3 2 recovered 0 0 3 full|print 3 2 a : 5|join 3 3 final|ended 4|ended 2|ended 3|",
        code: 0,
    },
    Row {
        shows: "two ranks that are lost, and one spare",
        words: "run",
        source: "fenix 1|ranks 3|spares 1|separation 1|array a 1|callback n|print a|endcallback|begin|register n|let a + a 5|print a|end|schedule|run 2|kill 1|kill 0|stop|",
        written: "join 0 1 start|join 1 1 start|join 2 1 start|join 3 1 start|repaired 3 1 3 full : 0=0 1=1 2=2|kill 1|kill 0|repaired 2 1 3 full : 0=0 1=1 2=2|init 2 1 initial 2 2 3 full|print 2 1 a : 5|join 2 2 final|join 3 2 spare|repaired 3 2 2 spares-depleted : 0=3 2=2|init 3 2 recovered 0 0 2 spares-depleted|print 3 2 a : 5|join 3 3 final|repaired 2 2 2 spares-depleted : 0=3 2=2|callback 2 2 n|print 2 2 a : 5|init 2 2 survivor 2 1 2 spares-depleted|print 2 2 a : 10|join 2 3 final|ended 3|ended 2|",
        code: 0,
    },
    Row {
        shows: "losses in two epochs",
        words: "run",
        source: "fenix 1|ranks 3|spares 1|separation 1|array a 1|callback n|print a|endcallback|begin|register n|let a + a 5|print a|end|schedule|run 2|kill 1|run 2|kill 0|stop|",
        written: "join 0 1 start|join 1 1 start|join 2 1 start|join 3 1 start|repaired 3 1 3 full : 0=0 1=1 2=2|kill 1|repaired 0 1 3 full : 0=0 1=1 2=2|init 0 1 initial 0 0 3 full|print 0 1 a : 5|join 0 2 final|repaired 2 1 3 full : 0=0 1=1 2=2|init 2 1 initial 2 2 3 full|print 2 1 a : 5|join 2 2 final|join 3 2 spare|repaired 3 2 3 full : 0=0 1=3 2=2|init 3 2 recovered 1 1 3 full|print 3 2 a : 5|join 3 3 final|kill 0|repaired 2 2 3 full : 0=0 1=3 2=2|callback 2 2 n|print 2 2 a : 5|init 2 2 survivor 2 2 3 full|print 2 2 a : 10|join 2 3 final|repaired 3 3 2 spares-depleted : 1=3 2=2|callback 3 3 n|print 3 3 a : 5|init 3 3 survivor 1 0 2 spares-depleted|print 3 3 a : 10|join 3 4 final|repaired 2 3 2 spares-depleted : 1=3 2=2|callback 2 3 n|print 2 3 a : 10|init 2 3 survivor 2 1 2 spares-depleted|print 2 3 a : 15|join 2 4 final|ended 3|ended 2|",
        code: 0,
    },
    Row {
        shows: "one that is killed twice, and nobody is left",
        words: "run",
        source: "fenix 1|ranks 2|spares 0|separation 1|array a 1|callback n|print a|endcallback|begin|register n|let a + a 5|print a|end|schedule|run 2|kill 0|kill 0|kill 1|stop|",
        written: "join 0 1 start|join 1 1 start|repaired 1 1 2 full : 0=0 1=1|init 1 1 initial 1 1 2 full|print 1 1 a : 5|join 1 2 final|kill 0|kill 1|",
        code: 0,
    },
    Row {
        shows: "a kill of one that has ended",
        words: "run",
        source: "fenix 1|ranks 2|spares 1|separation 1|array a 1|callback n|print a|endcallback|begin|register n|let a + a 5|print a|end|schedule|run 4|kill 2|kill 0|stop|",
        written: "join 0 1 start|join 1 1 start|join 2 1 start|repaired 2 1 2 full : 0=0 1=1|repaired 0 1 2 full : 0=0 1=1|init 0 1 initial 0 0 2 full|print 0 1 a : 5|join 0 2 final|repaired 1 1 2 full : 0=0 1=1|init 1 1 initial 1 1 2 full|print 1 1 a : 5|join 1 2 final|join 2 2 spare|ended 2|kill 0|ended 1|",
        code: 0,
    },
    Row {
        shows: "a notice of one that lives",
        words: "wire",
        source: "fenix 1|ranks 2|spares 0|separation 1|counter c|begin|print c|end|schedule|notice 0 1|stop|",
        written: "join 0 1 start|send 0 1 join 1 start|deliver 0 1 join 1 start|join 1 1 start|send 1 0 join 1 start|deliver 1 0 join 1 start|send 0 1 jest 1 0 start,start|deliver 0 1 jest 1 0 start,start|send 1 0 jest 1 1 start,start|repaired 1 1 2 full : 0=0 1=1|init 1 1 initial 1 1 2 full|print 1 1 c : 0|join 1 2 final|send 1 0 join 2 final|deliver 1 0 jest 1 1 start,start|deliver 1 0 join 2 final|repaired 0 1 2 full : 0=0 1=1|init 0 1 initial 0 0 2 full|print 0 1 c : 0|join 0 2 final|send 0 1 join 2 final|send 0 1 jest 2 0 final,final|deliver 0 1 join 2 final|deliver 0 1 jest 2 0 final,final|send 1 0 jest 2 1 final,final|ended 1|deliver 1 0 jest 2 1 final,final|ended 0|",
        code: 0,
    },
    Row {
        shows: "a message that comes after the loss of its sender",
        words: "wire",
        source: "fenix 1|ranks 1|spares 1|separation 1|array a 3|begin|print a|end|schedule|step 0|kill 0|deliver 0 1|notice 0 1|stop|",
        written: "join 0 1 start|send 0 1 join 1 start|kill 0|deliver 0 1 join 1 start|told 0 1|join 1 1 start|send 1 0 join 1 start|send 1 0 jest 1 1 start,start|repaired 1 1 1 full : 0=0|join 1 2 spare|send 1 0 join 2 spare|send 1 0 jest 2 1 lost,spare|repaired 1 2 1 full : 0=1|init 1 2 recovered 0 0 1 full|print 1 2 a : 0 0 0|join 1 3 final|ended 1|",
        code: 0,
    },
    Row {
        shows: "a message that is under way at the notice",
        words: "wire",
        source: "fenix 1|ranks 1|spares 1|separation 1|array a 3|begin|print a|end|schedule|step 0|kill 0|notice 0 1|deliver 0 1|stop|",
        written: "join 0 1 start|send 0 1 join 1 start|kill 0|told 0 1|join 1 1 start|send 1 0 join 1 start|send 1 0 jest 1 1 lost,start|repaired 1 1 1 full : 0=1|init 1 1 initial 0 0 1 full|print 1 1 a : 0 0 0|join 1 2 final|ended 1|",
        code: 0,
    },
];

const CHECK_ROWS: [Row; 6] = [
    Row {
        shows: "spaces and a comment",
        words: "check",
        source: "fenix 1|ranks 1|spares  0|separation 1|array a 3|# note|begin|print a|print a|end|schedule|stop|",
        written: "fenix 1|ranks 1|spares 0|separation 1|array a 3|begin|print a|print a|end|schedule|stop|",
        code: 0,
    },
    Row {
        shows: "a barrier inside `when`",
        words: "check",
        source: "fenix 1|ranks 1|spares 0|separation 1|array a 3|begin|when recovered|barrier|endwhen|print a|end|schedule|stop|",
        written: "fenix: bad job: Misplaced at 8:1|",
        code: 3,
    },
    Row {
        shows: "a counter that differs between ranks",
        words: "check",
        source: "fenix 1|ranks 1|spares 0|separation 1|array a 3|counter c|begin|set c rank|print a|end|schedule|stop|",
        written: "fenix: bad job: NotUniform at 8:1|",
        code: 3,
    },
    Row {
        shows: "a pair past the end of the array",
        words: "check",
        source: "fenix 1|ranks 3|spares 0|separation 1|array a 2|begin|group 0 5 0|member 0 0 a|when initial|let a + rank 7|endwhen|restore 0 0 5|store 0 0 ranges 1 2|commitbarrier 0|end|schedule|run 6|kill 1|stop|",
        written: "fenix: bad job: SubsetOutside at 13:1|",
        code: 3,
    },
    Row {
        shows: "a loop of 10,000 turns",
        words: "check",
        source: "fenix 1|ranks 1|spares 0|separation 1|array a 3|counter c|begin|for c 0 9999|print a|endfor|end|schedule|stop|",
        written: "fenix: bad job: TooMuchWork at 7:1|",
        code: 3,
    },
    Row {
        shows: "a loop of 9,999 turns",
        words: "check",
        source: "fenix 1|ranks 1|spares 0|separation 1|array a 3|counter c|begin|for c 0 9998|print a|endfor|end|schedule|stop|",
        written: "fenix 1|ranks 1|spares 0|separation 1|array a 3|counter c|begin|for c 0 9998|print a|endfor|end|schedule|stop|",
        code: 0,
    },
];

const NO_EVENTS_YET: &str = "fenix 1|ranks 1|spares 0|separation 1|begin|end|schedule|";

fn words_of(alloc: Global, line: &str) -> Result<Vec<String>, Fail> {
    let mut words = Vec::new(alloc);
    for word in line.split_ascii_whitespace() {
        words.push(String::from_str(alloc, word)?)?;
    }
    Ok(words)
}

/// The code and all that is written.
pub fn answer_to(alloc: Global, row: &Row) -> Result<(u8, Bytes), Fail> {
    let words = words_of(alloc, row.words)?;
    let source = bytes_of(alloc, &[row.source])?;
    let (status, sink) = fenix_in_memory(alloc, words.as_slice(), source);
    Ok((code(&status), sink.written().copy()?))
}

#[test]
fn jobs_are_run(rt: HostRuntime) -> Result<(), Fail> {
    for row in RUN_ROWS.iter() {
        let (code, written) = answer_to(rt.alloc(), row)?;
        let due = bytes_of(rt.alloc(), &[row.written])?;
        assert_eq!(rt; code, row.code, "at {}", row.shows);
        assert_eq!(rt; written.as_slice(), due.as_slice(), "at {}", row.shows);
    }
    Ok(())
}

#[test]
fn jobs_with_losses_are_run(rt: HostRuntime) -> Result<(), Fail> {
    for row in LOSS_ROWS.iter() {
        let (code, written) = answer_to(rt.alloc(), row)?;
        let due = bytes_of(rt.alloc(), &[row.written])?;
        assert_eq!(rt; code, row.code, "at {}", row.shows);
        assert_eq!(rt; written.as_slice(), due.as_slice(), "at {}", row.shows);
    }
    Ok(())
}

#[test]
fn jobs_are_checked(rt: HostRuntime) -> Result<(), Fail> {
    for row in CHECK_ROWS.iter() {
        let (code, written) = answer_to(rt.alloc(), row)?;
        let due = bytes_of(rt.alloc(), &[row.written])?;
        assert_eq!(rt; code, row.code, "at {}", row.shows);
        assert_eq!(rt; written.as_slice(), due.as_slice(), "at {}", row.shows);
    }
    Ok(())
}

#[test]
fn a_schedule_has_at_most_100_000_events(rt: HostRuntime) -> Result<(), Fail> {
    let alloc = rt.alloc();
    let words = words_of(alloc, "check")?;
    for (events, due) in [
        (100_000, None),
        (100_001, Some("fenix: bad job: OutOfRange at 100008:1|")),
    ] {
        let mut source = bytes_of(alloc, &[NO_EVENTS_YET])?;
        for _ in 0..events {
            source.append(b"step 0\n")?;
        }
        source.append(b"stop\n")?;
        let due = match due {
            Some(line) => bytes_of(alloc, &[line])?,
            None => source.copy()?,
        };
        let (_, sink) = fenix_in_memory(alloc, words.as_slice(), source);
        assert!(rt; *sink.written() == due, "at {events} events");
    }
    Ok(())
}
