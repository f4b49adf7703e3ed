use fx_base::{Seq, Snapshot, Stamp};

/// Closed snapshots with their time stamps.
pub type KeptList = Seq<(Stamp, Snapshot)>;

/// The closed snapshots that a store is given in place of its own.
#[derive(Debug, Drop)]
pub struct Kept {
    /// In rising stamp, at most the depth and one more.
    pub list: KeptList,
    /// The stamp of the next snapshot, above all stamps of the list.
    pub next: Stamp,
}
