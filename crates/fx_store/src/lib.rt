//! What a process keeps of a data group, how a snapshot is spelled in bytes, and what redundancy is. Definitions and laws, no
//! code.
#![tactic(auto)]

mod answers;
pub mod laws;

pub use answers::{CommitEnd, DeleteEnd, FindEnd, StoreEnd};
