//! All that a node can do in a step, and what holds whatever happens in a world: definitions, and the laws on which all others
//! stand. No code.
#![tactic(auto)]

pub mod laws;
