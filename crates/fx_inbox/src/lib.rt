//! What a process keeps of all that it was sent and told, and what it reads of that in the ballots of epochs and calls.
#![tactic(auto)]

mod ballot;
mod estimate;
mod inbox;
mod part;
mod phase;
mod row;
mod vote;

pub use ballot::{About, Ballot, Votes, is_join, seat_of};
pub use fx_ballot::Poll;
pub use inbox::Inbox;
pub use phase::Phase;

#[cfg(test)]
mod tests;
