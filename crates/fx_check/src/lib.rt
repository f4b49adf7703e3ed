//! Acceptance: which jobs of the job language can be run.
#![tactic(auto)]

mod accepted;
mod callbacks;
mod check;
mod exprs;
mod fault;
mod head;
pub mod laws;
mod limits;
mod lookup;
mod range;
mod rules;
mod subsets;
mod surroundings;
mod tables;
mod walk;
mod work;

pub use accepted::Accepted;
pub use check::check_job;
pub use fault::{CheckJob, StaticFault};
pub use lookup::array_in;
pub use tables::IndexedJob;
