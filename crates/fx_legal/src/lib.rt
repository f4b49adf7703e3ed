//! Which journals a run of a job may have: what each item says, and where it may come.
//! Definitions and laws.
#![tactic(auto)]

pub mod laws;
