ghost use Rattle.fx_io.specs.Writing.{Puts};

use fx_io::{PutEnd, Sink, write_whole};
use fx_text::next_line;

/// Writes a text, each line with its line end as one piece.
pub fn put_lines<K: Sink>(text: &[u8], sink: &mut K) -> Result<(), PutEnd>
    ensures { Puts (K.state sink.old) (K.state sink.new) text.now result }
{
    let mut rest = text;
    while let Some(line) = next_line(rest, 0) {
        if !line.ended {
            return write_whole(sink, rest);
        }
        let (first, later) = rest.split_at(line.to + 1);
        write_whole(sink, first)?;
        rest = later;
    }
    Ok(())
}
