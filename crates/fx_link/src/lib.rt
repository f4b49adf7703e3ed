//! What the processes send to one another, and the links that carry it.
#![tactic(auto)]

mod held;
pub mod laws;
mod links;
mod message;
mod queue;
mod row;
mod shared;
mod slot;

pub use held::Held;
pub use links::Links;
pub use message::{Known, Message};
pub use shared::Shared;
pub use slot::{Slot, Slots, Values};

#[cfg(test)]
mod tests;
