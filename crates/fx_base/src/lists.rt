use crate::names::{Ident, Proc, Stamp};
use crate::seq::Seq;

/// Bytes, as of a text or a packed snapshot.
pub type Bytes = Seq<u8>;

/// The elements of an array.
pub type Elems = Seq<i64>;

/// Time stamps.
pub type Stamps = Seq<Stamp>;

/// Pairs of a first and a last index.
pub type Pairs = Seq<(u32, u32)>;

/// Identities, each with the process that has it.
pub type Seats = Seq<(Ident, Proc)>;
