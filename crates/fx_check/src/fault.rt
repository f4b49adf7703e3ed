use fx_base::{NoMemory, Spot};

/// Why a job isn't accepted. Where a line gives several reasons, the first of this order is
/// answered.
#[derive(Clone, Copy, Debug, PartialEq, Eq)]
pub enum StaticFault {
    /// A name isn't declared as the kind that is needed, or no statement of the body creates the
    /// group or attaches the member.
    UnknownName,
    /// A declaration repeats a name.
    NameTwice,
    /// A number is past its limit, there is one thing too many, or arrays that are put together
    /// differ in length.
    OutOfRange,
    /// Control or a stamp may differ between ranks.
    NotUniform,
    /// The statement can't stand inside `when` or in a callback.
    Misplaced,
    /// The group has another start stamp or depth than where it is created first.
    GroupDiffers,
    /// The member has another array than where it is attached first.
    MemberDiffers,
    /// What is stored isn't a subset of the member's array.
    SubsetOutside,
    /// One pass over the body may take more than 20,000 statements.
    TooMuchWork,
}

/// Why no job was accepted.
#[derive(Clone, Copy, Debug, PartialEq, Eq)]
pub enum CheckJob {
    /// The job breaks a rule: the first line that does, and the first reason.
    Refused(StaticFault, Spot),
    /// Memory ran out.
    NoMemory,
}

impl From<NoMemory> for CheckJob {
    ghost use Rattle.std.specs.Prelude.{◌≡◌};
    ghost use Rattle.fx_check.specs.declared.fault.CheckJob.TheVariants as check;

    ghost from_gives = { λ _ e. e ≡ check.NoMemory };

    fn from(_error: NoMemory) -> CheckJob {
        CheckJob::NoMemory
    }
}
