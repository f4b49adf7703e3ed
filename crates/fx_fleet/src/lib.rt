//! The world of a job: the machines of all processes under a schedule of deliveries and losses. Definitions, no code.
#![tactic(auto)]
