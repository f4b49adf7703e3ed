ghost use Rattle.std.specs.Prelude.{◌≡◌, map, string_bytes};
ghost use Rattle.fx_cli.specs.Dues.{mode_named, mode_of};

/// What the program is asked to do with a job.
#[derive(Clone, Copy, Debug, PartialEq, Eq)]
pub(crate) enum Mode {
    /// To run it, and to print its journal.
    Run,
    /// To run it, and to print all that happens: what is sent, delivered and told lost, too.
    Wire,
    /// To check it, and to print its canonical text.
    Check,
}

/// The mode that the words ask for: one word alone, the name of the mode.
pub(crate) fn mode_of(words: &[String]) -> Option<Mode>
    ensures { result ≡ mode_of (map string_bytes words.now) }
{
    match words {
        [word] => mode_named(word.as_str()),
        _ => None,
    }
}

// The mode of this name.
fn mode_named(word: &str) -> Option<Mode>
    ensures { result ≡ mode_named word.now }
{
    if word == "run" {
        Some(Mode::Run)
    } else if word == "wire" {
        Some(Mode::Wire)
    } else if word == "check" {
        Some(Mode::Check)
    } else {
        None
    }
}
