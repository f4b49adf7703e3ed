//! The lines of a text, the words of a line, and the numbers that words spell.
#![tactic(auto)]

mod check;
pub mod laws;
mod line;
mod name;
mod number;
mod word;
mod write;

pub use check::{LONGEST_LINE, LineFault, check_line};
pub use line::{LineSpan, next_line};
pub use name::is_name;
pub use number::{NumberFault, push_number, read_number};
pub use word::{Span, next_word};
pub use write::{end_line, put_number, put_numbers, put_word};

#[cfg(test)]
mod tests;
