//! The job language: a text is read as the job that it spells, and a job is printed as its canonical text.
#![tactic(auto)]

mod cursor;
mod draft;
mod expr;
mod expr_word;
mod head;
mod job;
mod keyword;
pub mod laws;
mod order;
mod print;
mod print_line;
mod print_stmt;
mod print_word;
mod read;
mod reader;
mod refusal;
mod stack;
mod statement;

pub use expr::Expr;
pub use job::{
    Callback, Callbacks, Decl, Event, EventKind, Events, Job, Names, NumPairs, Picked, Stmt, Stmts,
    Test,
};
pub use print::print_job;
pub use read::read_job;
pub use refusal::{JobFault, ReadJob};
