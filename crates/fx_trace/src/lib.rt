//! The lines of a journal: what is printed of an item, and which item a line tells.
#![tactic(auto)]

mod choice;
mod field;
mod list;
mod pieces;
mod print;
mod read;
mod read_list;
mod read_word;
mod reader;
mod rows;
mod shape;
mod table;

pub use fx_item::{Answer, Item, Refusable};
pub use fx_lines::ItemFault;
pub use print::{print_delivery, print_item, print_send};
pub use read::ReadItem;
pub use reader::read_item;
