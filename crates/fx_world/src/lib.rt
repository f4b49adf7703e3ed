//! The world of a job: all its processes as they run, the links between them, and the lines that tell what happens.
#![tactic(auto)]

mod counts;
mod end;
mod post;
mod shown;
mod teller;
mod world;

pub use counts::Counts;
pub use end::RunEnd;
pub use shown::Shown;
pub use world::World;
