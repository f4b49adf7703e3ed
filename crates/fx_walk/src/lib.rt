//! What the statements of a job mean: the walk of a body from a state, along what it is answered.
//! Definitions, laws, and the types that they speak of.
#![tactic(auto)]

mod action;
pub mod laws;
mod printed;
mod wanted;

pub use action::{At, View};
pub use printed::{CallbackRun, Called, Printed, Prints};
pub use wanted::Wanted;

#[cfg(test)]
mod tests;
