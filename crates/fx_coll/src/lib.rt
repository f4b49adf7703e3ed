//! Calls whose answer is made of a part of each member, as a barrier, a reduction and a shift: what one member keeps of such a call.
#![tactic(auto)]

mod gather;
mod known;
pub mod laws;
mod part;
mod poll;

pub use gather::{Gather, combined};
pub use part::Part;
pub use poll::CollPoll;

#[cfg(test)]
mod tests;
