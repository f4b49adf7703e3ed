//! Ballots: votes and rounds by which members come to one list of slots.
#![tactic(auto)]

mod ballot;
pub mod laws;
mod stage;

pub use ballot::Ballot;
pub use fx_ballot::Poll;
