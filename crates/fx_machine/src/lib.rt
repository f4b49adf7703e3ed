//! The machine of one rank: what a node keeps, and what it does in one step. Definitions, no code.
#![tactic(auto)]
