use fx_base::{Copied, NoMemory, Proc, Seq};

/// What happens at one moment of a schedule.
#[derive(Clone, Copy, Debug, PartialEq, Eq)]
pub enum Moment {
    /// The process takes one step.
    Step(Proc),
    /// The process takes steps until it is quiet.
    Rest(Proc),
    /// The front of the link from the first process to the second is received.
    Deliver(Proc, Proc),
    /// The process is killed.
    Kill(Proc),
    /// The first process's loss is told to the second.
    Notice(Proc, Proc),
    /// So many fair rounds.
    Run(u32),
}

/// What happens in a schedule, in order.
pub type Moments = Seq<Moment>;

impl Copied for Moment {
    fn copied(&self) -> Result<Self, NoMemory> {
        Ok(*self)
    }
}
