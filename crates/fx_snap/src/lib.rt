//! What a process keeps of a data group: what is pending, tentative and closed, and the calls that store, commit and find.
#![tactic(auto)]

mod entries;
mod kept;
mod overlay;
mod store;

pub use fx_base::Snapshot;
pub use fx_store::{CommitEnd, DeleteEnd, FindEnd, StoreEnd};
pub use kept::{Kept, KeptList};
pub use store::GroupStore;

#[cfg(test)]
mod tests;
