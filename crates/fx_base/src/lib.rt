//! The names, the lists and the sets that every other crate speaks of.
#![tactic(auto)]

mod copied;
mod keyed;
mod lists;
mod memory;
mod names;
mod place_shares;
mod procset;
mod seq;
mod shares;
mod snapshot;
mod sparse;
mod spot;

pub use copied::Copied;
pub use lists::{Bytes, Elems, Pairs, Seats, Stamps};
pub use memory::NoMemory;
pub use names::{CallNo, Epoch, GroupId, How, Ident, MemberId, Op, Place, Proc, Role, Stamp};
pub use place_shares::Shares;
pub use procset::ProcSet;
pub use seq::Seq;
pub use shares::StampShares;
pub use snapshot::Snapshot;
pub use sparse::Sparse;
pub use spot::Spot;

#[cfg(test)]
mod tests;
