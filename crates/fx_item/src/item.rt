ghost use Rattle.std.specs.Prelude.{◌≡◌, IfOk};

use crate::answer::{Answer, Refusable};
use fx_base::{
    Bytes, CallNo, Copied, Elems, Epoch, GroupId, How, Ident, MemberId, NoMemory, Op, Proc, Role,
    Seats, Seq, Sparse, Stamp, Stamps,
};
use fx_link::{Message, Slot};

/// The items of a journal, in order.
pub type Items = Seq<Item>;

/// One thing that happens, a line of the journal.
///
/// `p` is the process that it happens to, `e` the epoch, `k` the number of a call in its epoch, `g` a group, `m` a
/// member of it, and `t` a time stamp.
#[derive(Debug, Drop)]
pub enum Item {
    /// The process was killed.
    Kill {
        p: Proc,
    },
    /// The process votes in the ballot that begins epoch `e`: `start`, `spare`, `error` or `final`.
    Join {
        p: Proc,
        e: Epoch,
        kind: Slot,
    },
    /// For the process epoch `e` begins, with a communicator of so many places. `warn` says that it has fewer places than
    /// the job asks for, because no spare is left. The list has each identity with its process.
    Repaired {
        p: Proc,
        e: Epoch,
        size: u8,
        warn: bool,
        list: Seats,
    },
    /// A callback of this name runs.
    Callback {
        p: Proc,
        e: Epoch,
        name: Bytes,
    },
    /// `Init` returns to the process: its role, its identity, its place, the number of places, and whether there are fewer
    /// than the job asks for.
    Init {
        p: Proc,
        e: Epoch,
        role: Role,
        id: Ident,
        rank: u8,
        size: u8,
        warn: bool,
    },
    /// The body, or a callback, prints what this array or counter holds.
    Print {
        p: Proc,
        e: Epoch,
        name: Bytes,
        list: Elems,
    },
    /// The member is attached to the group.
    Attach {
        p: Proc,
        e: Epoch,
        g: GroupId,
        m: MemberId,
    },
    /// So much of the member was stored: indices with their elements, in rising index.
    Store {
        p: Proc,
        e: Epoch,
        g: GroupId,
        m: MemberId,
        list: Sparse,
    },
    /// What is pending in the group became a snapshot of this stamp, tentative until it is closed.
    Commit {
        p: Proc,
        e: Epoch,
        g: GroupId,
        t: Stamp,
    },
    /// So much of the member was restored from the snapshot of this stamp, in rising index.
    Restore {
        p: Proc,
        e: Epoch,
        g: GroupId,
        m: MemberId,
        t: Stamp,
        list: Sparse,
    },
    /// A statement of the process alone was refused. `m` and `t` are 0 where the statement names no member or no stamp.
    Refused {
        p: Proc,
        e: Epoch,
        statement: Refusable,
        g: GroupId,
        m: MemberId,
        t: Stamp,
        answer: Answer,
    },
    /// The process enters call `k`, a barrier.
    Barrier {
        p: Proc,
        e: Epoch,
        k: CallNo,
    },
    /// The process enters call `k`, a reduction, with this number.
    Reduce {
        p: Proc,
        e: Epoch,
        k: CallNo,
        op: Op,
        n: i64,
    },
    /// The process enters call `k`, an agreement, with this flag.
    Agree {
        p: Proc,
        e: Epoch,
        k: CallNo,
        n: i64,
    },
    /// The process enters call `k`, a shift by `d` places, with these elements.
    Shift {
        p: Proc,
        e: Epoch,
        k: CallNo,
        d: u8,
        list: Elems,
    },
    /// The process enters call `k`, the creation of a group.
    Group {
        p: Proc,
        e: Epoch,
        k: CallNo,
        g: GroupId,
    },
    /// The process enters call `k`, a commit barrier of the group.
    Close {
        p: Proc,
        e: Epoch,
        k: CallNo,
        g: GroupId,
    },
    /// The process enters call `k`, which deletes the snapshot of this stamp.
    Drop {
        p: Proc,
        e: Epoch,
        k: CallNo,
        g: GroupId,
        t: Stamp,
    },
    /// Call `k` returns, and gives nothing.
    Passed {
        p: Proc,
        e: Epoch,
        k: CallNo,
    },
    /// Call `k` returns this number.
    Value {
        p: Proc,
        e: Epoch,
        k: CallNo,
        n: i64,
    },
    /// Call `k` returns these elements.
    Shifted {
        p: Proc,
        e: Epoch,
        k: CallNo,
        list: Elems,
    },
    /// Call `k` has created the group, with the stamps that are retained.
    Created {
        p: Proc,
        e: Epoch,
        k: CallNo,
        g: GroupId,
        how: How,
        list: Stamps,
    },
    /// Call `k` has closed all tentative snapshots of the group; this is the last stamp of them.
    Closed {
        p: Proc,
        e: Epoch,
        k: CallNo,
        g: GroupId,
        t: Stamp,
    },
    /// Call `k` fails, since process `x` was lost.
    Failed {
        p: Proc,
        e: Epoch,
        k: CallNo,
        x: Proc,
    },
    /// Call `k` is revoked, since process `x` has left for the next epoch.
    Revoked {
        p: Proc,
        e: Epoch,
        k: CallNo,
        x: Proc,
    },
    /// The process has ended.
    Ended {
        p: Proc,
    },
    /// Process `p` sends this message to `q`. Shown in mode `wire` alone.
    Send {
        p: Proc,
        q: Proc,
        message: Message,
    },
    /// This message of process `p` is delivered to `q`. Shown in mode `wire` alone.
    Deliver {
        p: Proc,
        q: Proc,
        message: Message,
    },
    /// Process `q` is told that `p` is lost. Shown in mode `wire` alone.
    Told {
        p: Proc,
        q: Proc,
    },
}

impl Item {
    /// An equal item.
    pub fn copy(&self) -> Result<Item, NoMemory>
        ensures { IfOk result (λ copy. copy ≡ self.now) }
    {
        match self {
            Item::Kill { p } => Ok(Item::Kill { p: *p }),
            Item::Join { p, e, kind } => Ok(Item::Join {
                p: *p,
                e: *e,
                kind: *kind,
            }),
            Item::Repaired {
                p,
                e,
                size,
                warn,
                list,
            } => Ok(Item::Repaired {
                p: *p,
                e: *e,
                size: *size,
                warn: *warn,
                list: list.copy()?,
            }),
            Item::Callback { p, e, name } => Ok(Item::Callback {
                p: *p,
                e: *e,
                name: name.copy()?,
            }),
            Item::Init {
                p,
                e,
                role,
                id,
                rank,
                size,
                warn,
            } => Ok(Item::Init {
                p: *p,
                e: *e,
                role: *role,
                id: *id,
                rank: *rank,
                size: *size,
                warn: *warn,
            }),
            Item::Print { p, e, name, list } => Ok(Item::Print {
                p: *p,
                e: *e,
                name: name.copy()?,
                list: list.copy()?,
            }),
            Item::Attach { p, e, g, m } => Ok(Item::Attach {
                p: *p,
                e: *e,
                g: *g,
                m: *m,
            }),
            Item::Store { p, e, g, m, list } => Ok(Item::Store {
                p: *p,
                e: *e,
                g: *g,
                m: *m,
                list: list.copy()?,
            }),
            Item::Commit { p, e, g, t } => Ok(Item::Commit {
                p: *p,
                e: *e,
                g: *g,
                t: *t,
            }),
            Item::Restore {
                p,
                e,
                g,
                m,
                t,
                list,
            } => Ok(Item::Restore {
                p: *p,
                e: *e,
                g: *g,
                m: *m,
                t: *t,
                list: list.copy()?,
            }),
            Item::Refused {
                p,
                e,
                statement,
                g,
                m,
                t,
                answer,
            } => Ok(Item::Refused {
                p: *p,
                e: *e,
                statement: *statement,
                g: *g,
                m: *m,
                t: *t,
                answer: *answer,
            }),
            Item::Barrier { p, e, k } => Ok(Item::Barrier {
                p: *p,
                e: *e,
                k: *k,
            }),
            Item::Reduce { p, e, k, op, n } => Ok(Item::Reduce {
                p: *p,
                e: *e,
                k: *k,
                op: *op,
                n: *n,
            }),
            Item::Agree { p, e, k, n } => Ok(Item::Agree {
                p: *p,
                e: *e,
                k: *k,
                n: *n,
            }),
            Item::Shift { p, e, k, d, list } => Ok(Item::Shift {
                p: *p,
                e: *e,
                k: *k,
                d: *d,
                list: list.copy()?,
            }),
            Item::Group { p, e, k, g } => Ok(Item::Group {
                p: *p,
                e: *e,
                k: *k,
                g: *g,
            }),
            Item::Close { p, e, k, g } => Ok(Item::Close {
                p: *p,
                e: *e,
                k: *k,
                g: *g,
            }),
            Item::Drop { p, e, k, g, t } => Ok(Item::Drop {
                p: *p,
                e: *e,
                k: *k,
                g: *g,
                t: *t,
            }),
            Item::Passed { p, e, k } => Ok(Item::Passed {
                p: *p,
                e: *e,
                k: *k,
            }),
            Item::Value { p, e, k, n } => Ok(Item::Value {
                p: *p,
                e: *e,
                k: *k,
                n: *n,
            }),
            Item::Shifted { p, e, k, list } => Ok(Item::Shifted {
                p: *p,
                e: *e,
                k: *k,
                list: list.copy()?,
            }),
            Item::Created {
                p,
                e,
                k,
                g,
                how,
                list,
            } => Ok(Item::Created {
                p: *p,
                e: *e,
                k: *k,
                g: *g,
                how: *how,
                list: list.copy()?,
            }),
            Item::Closed { p, e, k, g, t } => Ok(Item::Closed {
                p: *p,
                e: *e,
                k: *k,
                g: *g,
                t: *t,
            }),
            Item::Failed { p, e, k, x } => Ok(Item::Failed {
                p: *p,
                e: *e,
                k: *k,
                x: *x,
            }),
            Item::Revoked { p, e, k, x } => Ok(Item::Revoked {
                p: *p,
                e: *e,
                k: *k,
                x: *x,
            }),
            Item::Ended { p } => Ok(Item::Ended { p: *p }),
            Item::Send { p, q, message } => Ok(Item::Send {
                p: *p,
                q: *q,
                message: message.copy()?,
            }),
            Item::Deliver { p, q, message } => Ok(Item::Deliver {
                p: *p,
                q: *q,
                message: message.copy()?,
            }),
            Item::Told { p, q } => Ok(Item::Told { p: *p, q: *q }),
        }
    }
}

impl Copied for Item {
    fn copied(&self) -> Result<Self, NoMemory> {
        self.copy()
    }
}
