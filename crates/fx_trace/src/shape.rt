//! The shapes that the tables of lines name, as types.

pub use crate::read_word::JoinKind;
pub use fx_base::{
    Bytes as Name, CallNo as Call, Elems as Numbers, Epoch, GroupId as Group, How,
    Ident as Identity, MemberId as Member, Op, Proc as Process, Role, Seats, Sparse as Elements,
    Stamp, StampShares as Shares, Stamps,
};
pub use fx_item::{Answer, Refusable as Statement};
pub use fx_link::{Message, Slot, Slots, Values};

pub type Count = u8;

pub type Number = i64;

pub type Warning = bool;

pub type Known = Option<fx_link::Held>;
