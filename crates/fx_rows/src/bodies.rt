use crate::written::bytes_of;
use fx_cli::{code, fenix_in_memory};
use std::alloc::Global;
use std::test::Fail;

// A body of one rank, with its declarations, and what it prints. A bar stands for a line end.
struct Body {
    shows: &'static str,
    source: &'static str,
    prints: &'static str,
}

const HEAD: &str = "fenix 1|ranks 1|spares 0|separation 1|";

const TAIL: &str = "schedule|stop|";

const OPENING: &str = "join 0 1 start|repaired 0 1 1 full : 0=0|init 0 1 initial 0 0 1 full|";

const CLOSING: &str = "join 0 2 final|ended 0|";

const BODIES: [Body; 13] = [
    Body {
        shows: "a loop of no turn leaves its counter",
        source: "counter c|begin|set c 7|for c 5 4|set c 9|endfor|print c|end|",
        prints: "print 0 1 c : 7|",
    },
    Body {
        shows: "a loop of one turn",
        source: "array a 2|counter c|begin|for c 4 4|let a c|print a|endfor|print c|end|",
        prints: "print 0 1 a : 4 4|print 0 1 c : 4|",
    },
    Body {
        shows: "a first value below 0 counts as 0",
        source: "counter c|begin|for c -3 2|print c|endfor|end|",
        prints: "print 0 1 c : 0|print 0 1 c : 1|print 0 1 c : 2|",
    },
    Body {
        shows: "a counter that is set inside its own loop",
        source: "counter c|begin|for c 0 2|print c|set c 40|endfor|print c|end|",
        prints: "print 0 1 c : 0|print 0 1 c : 1|print 0 1 c : 2|print 0 1 c : 40|",
    },
    Body {
        shows: "a first value that is computed once",
        source: "counter c|counter d|begin|set d 1|for c d 3|set d 9|print c|endfor|print d|end|",
        prints: "print 0 1 c : 1|print 0 1 c : 2|print 0 1 c : 3|print 0 1 d : 9|",
    },
    Body {
        shows: "branches both ways, with and without `else`",
        source: "counter c|begin|for c 0 3|if lt c 2|print c|else|if eq c 3|set c + c 10|print c|endif|endif|endfor|if le 2 2|print c|endif|if lt 2 2|print c|endif|end|",
        prints: "print 0 1 c : 0|print 0 1 c : 1|print 0 1 c : 13|print 0 1 c : 13|",
    },
    Body {
        shows: "blocks of `when`, of which one runs",
        source: "array a 2|begin|when initial|let a + rank 5|print a|endwhen|when survivor|print a|endwhen|when recovered|print a|endwhen|end|",
        prints: "print 0 1 a : 5 5|",
    },
    Body {
        shows: "an array computed from itself and another",
        source: "array a 4|array b 4|counter c|begin|set c 3|let a + index c|let b * a a|let a - b + a index|print a|print b|end|",
        prints: "print 0 1 a : 6 11 18 27|print 0 1 b : 9 16 25 36|",
    },
    Body {
        shows: "sums and products that wrap",
        source: "array a 1|counter c|begin|set c 9223372036854775807|set c + c 1|print c|set c - c 1|print c|let a * c c|print a|set c * c 2|print c|end|",
        prints: "print 0 1 c : -9223372036854775808|print 0 1 c : 9223372036854775807|print 0 1 a : 1|print 0 1 c : -2|",
    },
    Body {
        shows: "what a rank sees",
        source: "array a 3|counter c|begin|let a + * 10 size - rank index|print a|set c size|print c|end|",
        prints: "print 0 1 a : 10 9 8|print 0 1 c : 1|",
    },
    Body {
        shows: "a callback that is registered twice, and has no occasion to run",
        source: "array a 1|callback note|print a|endcallback|begin|register note|register note|print a|end|",
        prints: "print 0 1 a : 0|",
    },
    Body {
        shows: "eight blocks in one another, four of them loops",
        source: "counter a|counter b|counter c|counter d|begin|for a 0 1|for b 0 1|for c 0 1|for d 0 0|if le a b|if le b c|if le d c|when initial|print c|print a|endwhen|endif|endif|endif|endfor|endfor|endfor|endfor|end|",
        prints: "print 0 1 c : 0|print 0 1 a : 0|print 0 1 c : 1|print 0 1 a : 0|print 0 1 c : 1|print 0 1 a : 0|print 0 1 c : 1|print 0 1 a : 1|",
    },
    Body {
        shows: "a loop with counters and an array",
        source: "array a 2|counter c|begin|for c 0 1|let a + a c|print a|endfor|when survivor|print a|endwhen|print c|end|",
        prints: "print 0 1 a : 0 0|print 0 1 a : 1 1|print 0 1 c : 1|",
    },
];

fn words_of(alloc: Global) -> Result<Vec<String>, Fail> {
    let mut words = Vec::new(alloc);
    words.push(String::from_str(alloc, "run")?)?;
    Ok(words)
}

#[test]
fn bodies_are_run(rt: HostRuntime) -> Result<(), Fail> {
    let alloc = rt.alloc();
    let words = words_of(alloc)?;
    for body in BODIES.iter() {
        let source = bytes_of(alloc, &[HEAD, body.source, TAIL])?;
        let due = bytes_of(alloc, &[OPENING, body.prints, CLOSING])?;
        let (status, sink) = fenix_in_memory(alloc, words.as_slice(), source);
        assert_eq!(rt; code(&status), 0, "at {}", body.shows);
        assert_eq!(rt;
            sink.written().as_slice(),
            due.as_slice(),
            "at {}",
            body.shows
        );
    }
    Ok(())
}
