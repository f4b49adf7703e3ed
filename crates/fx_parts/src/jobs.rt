use fx_base::Bytes;
use fx_check::{Accepted, check_job};
use fx_script::read_job;
use std::alloc::Global;
use std::process::Abort;
use std::test::Fail;

/// Two ranks, each of which prints an array.
pub const TWO_RANKS: &str =
    "fenix 1|ranks 2|spares 0|separation 1|array a 1|begin|print a|end|schedule|stop|";

/// The accepted job of a text, in which a bar stands for the end of a line.
pub fn job_of(rt: &impl Abort, alloc: Global, text: &str) -> Result<Accepted, Fail> {
    let mut bytes = Bytes::new(alloc);
    for byte in text.as_bytes() {
        bytes.push(if *byte == b'|' { b'\n' } else { *byte })?;
    }
    assert!(rt; bytes.len() < 4096);
    Ok(check_job(alloc, read_job(alloc, bytes.as_slice())?)?)
}
