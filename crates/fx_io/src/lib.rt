//! Where bytes come from and where they go, with what is left, what is written and how often it failed.
#![tactic(auto)]

mod memory;
mod sink;
mod source;
mod standard;
mod sure;
mod whole;

pub use memory::{MemSink, MemSource};
pub use sink::{Sink, WriteStep};
pub use source::{ReadStep, Source};
pub use standard::{StdSink, StdSource};
pub use sure::{SureSink, SureSource};
pub use whole::{PutEnd, WholeEnd, read_whole, write_whole};

#[cfg(test)]
mod tests;
