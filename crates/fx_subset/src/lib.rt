//! Sets of indices of an array, given by whole intervals.
#![tactic(auto)]

mod elements;
mod fault;
mod make;
mod runs;
mod subset;

pub use elements::scatter;
pub use fault::{MakeSubset, SubsetFault};
pub use make::{empty, full, ranges, strided};
pub use subset::Subset;
