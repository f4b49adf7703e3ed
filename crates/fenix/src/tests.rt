use fx_io::{Sink, StdSink, WriteStep};
use std::io::{Error, ErrorKind, Result, Write};

// Takes all that comes, and loses it when it is flushed.
#[derive(Drop)]
struct Losing;

impl Write for Losing {
    fn write(&mut self, piece: &[u8]) -> Result<usize> {
        Ok(piece.len())
    }

    fn flush(&mut self) -> Result<()> {
        Err(Error::from(ErrorKind::WriteZero))
    }
}

#[test]
fn a_piece_is_written_only_once_it_is_flushed(rt: HostRuntime) {
    let mut sink = StdSink::new(Losing);
    assert_eq!(rt; sink.write_some(b"ended 0\n"), WriteStep::Failed);
}
