//! What a rank keeps and computes: its counters, arrays and registered callbacks by slot, and the
//! expressions of its job, each made ready once.
#![tactic(auto)]

mod column;
mod formula;
pub mod laws;
mod slots;
mod values;

pub use column::Columns;
pub use formula::Formula;
pub use slots::{array_slot, counter_slot, is_array};
pub use values::Values;
