//! Runs of jobs whose body makes calls: definitions, and the laws that their journals are legal and that their epochs have losses.
//! No code.
#![tactic(auto)]

pub mod laws;
