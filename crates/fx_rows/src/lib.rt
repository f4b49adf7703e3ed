//! Worked rows, as tests: of the whole program, of the texts of jobs, of the jobs that are accepted, and of the lines of
//! journals.
#![tactic(auto)]

#[cfg(test)]
mod acceptance;
#[cfg(test)]
mod bodies;
#[cfg(test)]
mod calls;
#[cfg(test)]
mod collectives;
#[cfg(test)]
mod lines;
#[cfg(test)]
mod schedules;
#[cfg(test)]
mod texts;
#[cfg(test)]
mod written;
