ghost use Rattle.std.specs.Prelude.{◌≡◌, ◌<◌, ◌-◌, ◌^◌, not, length};
ghost use Rattle.std.specs.List.{position};
ghost use Rattle.fx_text.specs.Checks.{is_printable, checked};

/// The most bytes that a line may have, without its line end.
pub const LONGEST_LINE: usize = 1024;

/// Why a line can't be read, whatever its words are.
#[derive(Clone, Copy, Debug, PartialEq, Eq)]
pub enum LineFault {
    /// A byte isn't 32 to 126: the column of the first such byte, from 1.
    NotAscii(u32),
    /// It has over 1,024 bytes, and no byte is bad.
    TooLong,
}

/// Whether a line, without its line end, has printable bytes alone and at most 1,024 of them. `bad` is where its
/// first byte stands that isn't printable, as `next_line` tells it.
pub fn check_line(line: &[u8], bad: Option<usize>) -> Result<(), LineFault>
    requires short { length line.now < 2 ^ 32 - 1 }
    requires bad { bad ≡ position (λ b. not (is_printable b)) line.now }
    ensures { result ≡ checked line.now }
{
    if let Some(place) = bad {
        return Err(LineFault::NotAscii(place as u32 + 1));
    }
    if line.len() > LONGEST_LINE {
        return Err(LineFault::TooLong);
    }
    Ok(())
}
