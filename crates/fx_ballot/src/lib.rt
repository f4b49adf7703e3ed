//! What a ballot is: its members, what they say to one another, and their moves. Definitions and laws, no code.
#![tactic(auto)]

mod heard;
mod poll;

pub use heard::Heard;
pub use poll::Poll;
