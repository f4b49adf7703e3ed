use fx_base::{NoMemory, Spot};

/// Why a text is no job.
#[derive(Clone, Copy, Debug, PartialEq, Eq)]
pub enum JobFault {
    /// A byte that isn't printable stands in a line.
    NotAscii,
    /// A line has over 1,024 bytes.
    LineTooLong,
    /// A word can't stand here, is missing, or is one too many.
    BadLine,
    /// A number is due, and the word is none.
    BadNumber,
    /// The text ends before `stop`.
    MissingPart,
    /// A line with words stands behind `stop`.
    TrailingText,
}

/// Why a job wasn't read.
#[derive(Clone, Copy, Debug, PartialEq, Eq)]
pub enum ReadJob {
    /// The text spells no job: the first fault and its place.
    Refused(JobFault, Spot),
    /// Memory ran out.
    NoMemory,
}

/// What is wrong in a line, and at which column.
#[derive(Clone, Copy, Debug, PartialEq, Eq)]
pub struct Wrong {
    pub fault: JobFault,
    pub column: u32,
}

/// Why a line wasn't read.
#[derive(Clone, Copy, Debug, PartialEq, Eq)]
pub enum Stop {
    Wrong(Wrong),
    NoMemory,
}

impl From<NoMemory> for Stop {
    ghost use Rattle.std.specs.Prelude.{◌≡◌};
    ghost use Rattle.fx_script.specs.declared.refusal.Stop.TheVariants as stop;

    ghost from_gives = { λ _ e. e ≡ stop.NoMemory };

    fn from(_error: NoMemory) -> Stop {
        Stop::NoMemory
    }
}

impl From<Wrong> for Stop {
    ghost use Rattle.std.specs.Prelude.{◌≡◌};
    ghost use Rattle.fx_script.specs.declared.refusal.Stop.TheVariants as stop;

    ghost from_gives = { λ w e. e ≡ stop.Wrong w };

    fn from(wrong: Wrong) -> Stop {
        Stop::Wrong(wrong)
    }
}
