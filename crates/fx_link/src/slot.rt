use crate::shared::Shared;
use fx_base::{Copied, NoMemory, Proc};
use std::alloc::Global;

/// What one member says in a ballot: its vote, or what the others put in its place.
#[derive(Clone, Copy, Debug, PartialEq, Eq)]
pub enum Slot {
    /// It begins the job.
    Start,
    /// It has no place, and joins since another process did, or since it learned that a process with a
    /// place was lost.
    Spare,
    /// Its call failed or was revoked.
    Error,
    /// Its program came to the end.
    Final,
    /// It agrees.
    Yes,
    /// It agrees, with a flag.
    Flag(i64),
    /// Each member said that it holds nothing under this group: the group is new, or all that held it are
    /// lost.
    Fresh,
    /// It has all that it is to hold: its own snapshots, held all along or made again, and those of the
    /// members that it keeps some for.
    Kept,
    /// Its own snapshots couldn't be made again.
    Gone,
    /// It can't agree, for want of what a process that was lost was to send.
    NoLost(Proc),
    /// It can't agree, for want of what a process that left was to send.
    NoLeft(Proc),
    /// The member was lost before its vote was heard.
    Lost,
    /// The member left before its vote was heard.
    Left,
}

impl Copied for Slot {
    fn copied(&self) -> Result<Self, NoMemory> {
        Ok(*self)
    }

    fn copied_all(alloc: Global, items: &[Slot]) -> Result<Vec<Slot>, NoMemory> {
        let mut copies = Vec::new(alloc);
        copies.extend_from_slice(items)?;
        Ok(copies)
    }
}

/// One slot for each member, shared by all that say them.
pub type Slots = Shared<Slot>;

/// The values of a part, shared by all that it is sent to.
pub type Values = Shared<i64>;
