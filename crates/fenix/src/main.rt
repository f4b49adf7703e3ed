//! Runs or checks a job: `fenix run` reads it from standard input and writes its journal to standard output, `fenix wire`
//! writes all that happens in its run, and `fenix check` its canonical text.
#![tactic(auto)]

use fx_cli::code;
use fx_io::{StdSink, StdSource};
use std::process::ExitCode;
use std::{env, io};

fn main(rt: HostRuntime) -> ExitCode {
    match words(&rt) {
        Ok(words) => ExitCode::from(ended(&rt, words.as_slice())),
        Err(_) => ExitCode::from(1),
    }
}

// The words behind the program's name.
fn words(rt: &HostRuntime) -> io::Result<Vec<String>> {
    let mut words = Vec::new(rt.alloc());
    for word in env::args(rt)?.skip(1) {
        words.push(word)?;
    }
    Ok(words)
}

fn ended(rt: &HostRuntime, words: &[String]) -> u8 {
    let mut source = StdSource::new(rt.reader());
    let mut sink = StdSink::new(io::writer(rt));
    code(&fx_cli::fenix(rt.alloc(), words, &mut source, &mut sink))
}

#[cfg(test)]
mod tests;
