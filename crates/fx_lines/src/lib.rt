//! Which line each item of a journal has, and which item a line tells. Definitions and laws, no code.
#![tactic(auto)]

mod fault;
pub mod laws;

pub use fault::ItemFault;
