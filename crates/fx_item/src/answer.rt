/// The statements that a process can refuse by itself.
#[derive(Clone, Copy, Debug, PartialEq, Eq)]
pub enum Refusable {
    /// The creation of a group.
    Group,
    /// The attachment of a member.
    Member,
    Store,
    Commit,
    /// A commit barrier.
    CommitBarrier,
    Restore,
    /// The deletion of a snapshot.
    Drop,
}

/// Why a process refuses a statement.
#[derive(Clone, Copy, Debug, PartialEq, Eq)]
pub enum Answer {
    /// The group wasn't created in this epoch.
    NotCreated,
    /// The member wasn't attached in this epoch.
    NotAttached,
    /// No snapshot of this stamp is retained.
    NoStamp,
    /// The snapshot has nothing of the member.
    NotStored,
    /// The group was created in this epoch already.
    AlreadyCreated,
    /// As many snapshots as there may be wait for a commit barrier.
    Full,
}
