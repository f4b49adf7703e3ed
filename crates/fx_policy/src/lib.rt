//! Who keeps a share of whose bytes, and how the bytes of lost places are made again.
#![tactic(auto)]

mod mirror;
mod policy;

pub use mirror::Mirror;
pub use policy::Policy;

#[cfg(test)]
mod tests;
