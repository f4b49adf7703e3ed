ghost use Rattle.std.specs.Prelude.{◌≡◌, ◌≤◌, ◌==◌, not, length, take, MatchOption};
ghost use Rattle.std.specs.List.{position, position_or_len};
ghost use Rattle.fx_text.specs.Checks.{is_printable};
ghost use Rattle.fx_text.specs.Lines.{IsFirstLine};

/// A line of a text: its bytes stand from `from` up to and without `to`.
#[derive(Clone, Copy, Debug, PartialEq, Eq)]
pub struct LineSpan {
    pub from: usize,
    pub to: usize,
    /// Whether a line end, byte 10, stands at `to`. Only the last line of a text may lack it.
    pub ended: bool,
    /// Where its first byte stands that isn't 32 to 126, counted from the line's own begin; `None` where each is.
    pub bad: Option<usize>,
}

/// The line that begins at `from`, which is at most the text's length; `None` exactly at the end.
///
/// The next line begins one past the line's end.
pub fn next_line(text: &[u8], from: usize) -> Option<LineSpan>
    requires { from ≤ length text.now }
    ensures { MatchOption result (from ≡ length text.now) (λ line. IsFirstLine text.now from line) }
{
    if from == text.len() {
        return None;
    }
    let (_, rest) = text.split_at(from);
    let (len, bad) = first_line(rest);
    Some(LineSpan {
        from,
        to: from + len,
        ended: len < rest.len(),
        bad,
    })
}

// The length of the first line, and where its first byte stands that isn't printable. A line end is none of the
// printable bytes, so one pass finds both where the line has no other.
fn first_line(text: &[u8]) -> (usize, Option<usize>)
    ensures len { result.0 ≡ position_or_len (λ b. b == 10) text.now }
    ensures bad { result.1 ≡ position (λ b. not (is_printable b)) (take result.0 text.now) }
{
    match bad_byte(text) {
        None => (text.len(), None),
        Some(place) if text[place] == b'\n' => (place, None),
        bad => (line_end(text).unwrap_or(text.len()), bad),
    }
}

// Where the first byte stands that isn't printable.
fn bad_byte(text: &[u8]) -> Option<usize>
    ensures { result ≡ position (λ b. not (is_printable b)) text.now }
{
    text.iter().position(|byte| !is_printable(*byte))
}

fn is_printable(byte: u8) -> bool
    ensures { result ≡ is_printable byte }
{
    byte >= 32 && byte <= 126
}

// Where the first line end stands.
fn line_end(text: &[u8]) -> Option<usize>
    ensures { result ≡ position (λ b. b == 10) text.now }
{
    text.iter().position(|byte| *byte == b'\n')
}
