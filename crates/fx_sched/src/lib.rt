//! The schedule of a job: what happens in it, one thing after another.
#![tactic(auto)]

mod moment;
mod schedule;

pub use moment::{Moment, Moments};
pub use schedule::moments;
