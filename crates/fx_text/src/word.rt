ghost use Rattle.std.specs.Prelude.{◌≡◌, ◌≤◌, ◌+◌, ◌==◌, not, [], length, drop, MatchOption};
ghost use Rattle.std.specs.List.{position};
ghost use Rattle.fx_text.specs.Words.{words_from, IsFirstWord};

/// A word of a line: its bytes stand from `from` up to and without `to`.
#[derive(Clone, Copy, Debug, PartialEq, Eq)]
pub struct Span {
    pub from: usize,
    pub to: usize,
}

/// The first word that begins at `from` or behind it; `from` is at most the line's length.
///
/// Words are parted by one space or more. `None` comes exactly where only spaces are left.
pub fn next_word(line: &[u8], from: usize) -> Option<Span>
    requires { from ≤ length line.now }
    ensures { MatchOption result
        (words_from (from + 1) (drop from line.now) ≡ []) (λ word. IsFirstWord line.now from word) }
{
    let (_, rest) = line.split_at(from);
    let start = from + first_letter(rest)?;
    let (_, rest) = line.split_at(start);
    let len = first_space(rest).unwrap_or(rest.len());
    Some(Span {
        from: start,
        to: start + len,
    })
}

// Where the first byte stands that is no space.
fn first_letter(line: &[u8]) -> Option<usize>
    ensures { result ≡ position (λ b. not (b == 32)) line.now }
{
    line.iter().position(|byte| *byte != b' ')
}

// Where the first space stands.
fn first_space(line: &[u8]) -> Option<usize>
    ensures { result ≡ position (λ b. b == 32) line.now }
{
    line.iter().position(|byte| *byte == b' ')
}
