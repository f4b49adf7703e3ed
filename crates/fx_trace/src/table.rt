ghost use Rattle.std.specs.Prelude.{◌≡◌, map};
ghost use Rattle.std.specs.List.{position};
ghost use Rattle.std.specs.Str.{bytes_eq};

/// The words that lines of each kind begin with, by the number of the kind, of which there are `N`.
#[derive(Clone, Copy)]
pub struct LineTable<const N: usize> {
    pub words: &'static [&'static [u8]],
}

impl<const N: usize> LineTable<N> {
    /// The number of the kind of line that begins with the word, if there is one.
    pub fn number_of(&self, word: &[u8]) -> Option<usize>
        ensures { result ≡ position (λ first. bytes_eq first word.now) (map (λ first. first.now) self.now.words.now) }
    {
        place_of(self.words, word)
    }
}

// Where the word stands among these.
fn place_of(words: &[&'static [u8]], word: &[u8]) -> Option<usize>
    ensures { result ≡ position (λ first. bytes_eq first.now word.now) words.now }
{
    words.iter().position(|first| *first == word)
}
