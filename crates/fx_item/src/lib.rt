//! What a journal tells: the items of a run, one for each thing that happens.
#![tactic(auto)]

mod answer;
mod item;

pub use answer::{Answer, Refusable};
pub use item::{Item, Items};

#[cfg(test)]
mod tests;
