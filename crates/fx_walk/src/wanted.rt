use fx_base::{Elems, GroupId, MemberId, Op, Sparse, Stamp};

/// An outward statement with the values of its operands.
#[derive(Debug, Drop)]
pub enum Wanted {
    /// All wait for each other.
    Barrier,
    /// The numbers of all ranks are reduced to one. This rank's is its own array reduced.
    Reduce(Op, i64),
    /// The bitwise and of the flags of all ranks. This one is the rank's own.
    Agree(i64),
    /// The elements go to the place so many further on, 1 to 15; behind the last place comes the
    /// first.
    Shift(u8, Elems),
    /// A group is created with this start stamp and this depth, 0 to 15.
    Group(GroupId, Stamp, u8),
    /// A member of a group gets its array.
    Attach(GroupId, MemberId),
    /// These elements of a member are stored.
    Store(GroupId, MemberId, Sparse),
    /// What was stored of a group becomes a tentative snapshot with a stamp.
    Commit(GroupId),
    /// A group is committed once more, and all its tentative snapshots are closed, on all ranks.
    Close(GroupId),
    /// A member is read back from the snapshot of this stamp.
    Restore(GroupId, MemberId, Stamp),
    /// The snapshot of this stamp is deleted, on all ranks.
    Delete(GroupId, Stamp),
}
