ghost use Rattle.std.specs.Prelude.{◌≡◌, ◌==◌, [], ◌∷◌, MatchOption};
ghost use Rattle.std.specs.List.{position};
ghost use Rattle.fx_lines.specs.Forms.{pieces};

use std::marker::Model;

/// The pieces of a line, or of a word, that stand between the bytes of one value. It is seen as the pieces that are left.
///
/// There is one piece more than there are such bytes; two of them in a row have an empty piece between them.
#[derive(Drop)]
pub struct Pieces<'a> {
    separator: u8,
    rest: Option<&'a [u8]>,
}

impl<'a> Model for Pieces<'a> {
    ghost use Rattle.std.specs.Prelude.{ℕ, List};
    ghost use Rattle.fx_trace.specs.Pieces.{pieces_left};

    ghost Value = { List (List ℕ) };

    ghost view = { λ p. pieces_left p.separator p.rest };
}

impl<'a> Pieces<'a> {
    /// All pieces.
    pub fn new(separator: u8, bytes: &'a [u8]) -> Pieces<'a>
        ensures { result ≡ pieces separator bytes.now }
    {
        Pieces {
            separator,
            rest: Some(bytes),
        }
    }

    /// The next piece, if one is left.
    pub fn next(&mut self) -> Option<&'a [u8]>
        ensures { MatchOption result ((self.old ≡ []) × (self.new ≡ [])) (λ piece. self.old ≡ piece.now ∷ self.new) }
    {
        let bytes = self.rest?;
        match place_of(self.separator, bytes) {
            Some(place) => {
                let (piece, rest) = bytes.split_at(place);
                let (_, rest) = rest.split_at(1);
                self.rest = Some(rest);
                Some(piece)
            }
            None => {
                self.rest = None;
                Some(bytes)
            }
        }
    }
}

// Where the first such byte stands.
fn place_of(separator: u8, bytes: &[u8]) -> Option<usize>
    ensures { result ≡ position (λ b. b == separator) bytes.now }
{
    bytes.iter().position(|byte| *byte == separator)
}
