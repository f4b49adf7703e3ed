//! Worked rows, as tests, of the parts that a run is made of.
#![tactic(auto)]

#[cfg(test)]
mod ballots;
#[cfg(test)]
mod flows;
#[cfg(test)]
mod jobs;
#[cfg(test)]
mod nodes;
#[cfg(test)]
mod subsets;
#[cfg(test)]
mod values;
#[cfg(test)]
mod worlds;
