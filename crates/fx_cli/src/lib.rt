//! The program as one call: from the words and the bytes that come in to the bytes that go out.
#![tactic(auto)]

mod built;
mod canon;
pub mod laws;
mod lines;
mod memory;
mod mode;
mod program;
mod run;
mod status;

pub use memory::fenix_in_memory;
pub use program::fenix;
pub use status::{Refusal, Status, code};

#[cfg(test)]
mod tests;
