//! Communicators: which process has which place, and what a repair makes of it.
#![tactic(auto)]

mod comm;
pub mod laws;

pub use comm::{Comm, first, repair};

#[cfg(test)]
mod tests;
