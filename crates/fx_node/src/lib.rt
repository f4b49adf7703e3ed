//! A process as it runs: it moves by its own state, by what others send to it, and by what it is told of losses, alone.
#![tactic(auto)]

mod agree;
mod call;
mod glance;
mod node;
mod stage;

pub use node::{Moved, Node, Outbox};
