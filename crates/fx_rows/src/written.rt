ghost use Rattle.std.specs.Prelude.{◌<◌, length, IfOk};

use fx_base::Bytes;
use std::alloc::Global;
use std::process::Abort;
use std::test::Fail;

/// The bytes of pieces of a table: a bar stands for the end of a line, and a line feed says nothing.
pub fn bytes_of(alloc: Global, pieces: &[&str]) -> Result<Bytes, Fail> {
    let mut bytes = Bytes::new(alloc);
    for piece in pieces {
        for byte in piece.as_bytes() {
            match *byte {
                b'\n' => (),
                b'|' => bytes.push(b'\n')?,
                byte => bytes.push(byte)?,
            }
        }
    }
    Ok(bytes)
}

/// The bytes of the text of a job, which is short.
pub fn text_of(rt: &impl Abort, alloc: Global, pieces: &[&str]) -> Result<Bytes, Fail>
    ensures { IfOk result (λ text. length text < 4096) }
{
    let text = bytes_of(alloc, pieces)?;
    assert!(rt; text.len() < 4096);
    Ok(text)
}
