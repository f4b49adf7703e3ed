//! A job's body as flat code, and the cursor of a rank in it.
#![tactic(auto)]

mod asking;
mod cursor;
mod emit;
mod flow;
mod instr;
pub mod laws;
mod loops;
mod operands;
mod room;
mod selection;

pub use flow::Flow;
pub use fx_walk::{At, CallbackRun, Called, Printed, Prints, View, Wanted};
