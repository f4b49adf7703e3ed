//! Runs in which nobody is lost, of jobs whose body asks nothing: definitions, and the law that their journals are legal.
//! No code.
#![tactic(auto)]

pub mod laws;
