//! Runs in which processes are lost, of jobs whose body asks nothing: definitions, and the law that their journals are legal.
//! No code.
#![tactic(auto)]

pub mod laws;
