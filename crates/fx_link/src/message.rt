ghost use Rattle.std.specs.Prelude.{◌≡◌, IfOk};

use crate::held::Held;
use crate::slot::{Slot, Slots, Values};
use fx_base::{CallNo, Copied, Epoch, NoMemory, Seats, Stamp, StampShares, Stamps};

/// What a process holds under a data group.
#[derive(Debug, Drop)]
pub struct Known {
    /// The epoch in which the group was created.
    pub created: Epoch,
    /// The stamp that comes next.
    pub next: Stamp,
    /// The communicator of the creation.
    pub comm: Seats,
    /// The stamps that are retained.
    pub stamps: Stamps,
}

impl Known {
    /// An equal value.
    pub fn copy(&self) -> Result<Known, NoMemory>
        ensures { IfOk result (λ copy. copy ≡ self.now) }
    {
        Ok(Known {
            created: self.created,
            next: self.next,
            comm: self.comm.copy()?,
            stamps: self.stamps.copy()?,
        })
    }
}

/// What one process sends to another in epoch `e`, where it speaks of one call in call `k`.
#[derive(Debug, Drop)]
pub enum Message {
    /// A vote in the ballot of the epoch.
    Join {
        e: Epoch,
        kind: Slot,
    },
    /// The estimate of round `r` in that ballot.
    Jest {
        e: Epoch,
        r: u8,
        slots: Slots,
    },
    /// What a member brings to a collective call: nothing, a number or elements.
    Part {
        e: Epoch,
        k: CallNo,
        elems: Values,
    },
    /// A vote in a call's ballot.
    Vote {
        e: Epoch,
        k: CallNo,
        slot: Slot,
    },
    /// The estimate of round `r` in a call's ballot.
    Est {
        e: Epoch,
        k: CallNo,
        r: u8,
        slots: Slots,
    },
    /// The sender's snapshots since its last commit barrier, packed, by stamp, for a member that is to
    /// keep them.
    Share {
        e: Epoch,
        k: CallNo,
        shares: StampShares,
    },
    /// What the sender holds under a group, if it holds anything.
    Tell {
        e: Epoch,
        k: CallNo,
        known: Option<Held>,
    },
    /// What the sender can add to make the receiver's snapshots again, by stamp; no bytes where it can't
    /// add anything.
    Help {
        e: Epoch,
        k: CallNo,
        shares: StampShares,
    },
    /// The sender's own snapshots, held all along or made again, by stamp, for a member that is to keep
    /// them; no stamp where they couldn't be made again.
    Give {
        e: Epoch,
        k: CallNo,
        shares: StampShares,
    },
}

impl Message {
    /// An equal message.
    pub fn copy(&self) -> Result<Message, NoMemory>
        ensures { IfOk result (λ copy. copy ≡ self.now) }
    {
        Ok(match self {
            Message::Join { e, kind } => Message::Join { e: *e, kind: *kind },
            Message::Jest { e, r, slots } => Message::Jest {
                e: *e,
                r: *r,
                slots: slots.copy()?,
            },
            Message::Part { e, k, elems } => Message::Part {
                e: *e,
                k: *k,
                elems: elems.copy()?,
            },
            Message::Vote { e, k, slot } => Message::Vote {
                e: *e,
                k: *k,
                slot: *slot,
            },
            Message::Est { e, k, r, slots } => Message::Est {
                e: *e,
                k: *k,
                r: *r,
                slots: slots.copy()?,
            },
            Message::Share { e, k, shares } => Message::Share {
                e: *e,
                k: *k,
                shares: shares.copy()?,
            },
            Message::Tell { e, k, known } => Message::Tell {
                e: *e,
                k: *k,
                known: known.copied()?,
            },
            Message::Help { e, k, shares } => Message::Help {
                e: *e,
                k: *k,
                shares: shares.copy()?,
            },
            Message::Give { e, k, shares } => Message::Give {
                e: *e,
                k: *k,
                shares: shares.copy()?,
            },
        })
    }
}

impl Copied for Message {
    fn copied(&self) -> Result<Self, NoMemory> {
        self.copy()
    }
}
