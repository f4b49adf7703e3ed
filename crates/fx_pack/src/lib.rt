//! Snapshots as bytes, each in its one spelling.
#![tactic(auto)]

mod fields;
mod reading;
mod writing;

pub use reading::{Unpacked, unpack};
pub use writing::pack;

#[cfg(test)]
mod tests;
