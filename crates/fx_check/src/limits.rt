//! The limits of the language.

/// The most processes, ranks and spares together.
pub const MOST_PROCS: u32 = 16;

/// The greatest separation.
pub const LAST_SEPARATION: u32 = 15;

/// The most arrays.
pub const MOST_ARRAYS: usize = 8;

/// The most elements of an array.
pub const MOST_ELEMENTS: u32 = 256;

/// The most counters.
pub const MOST_COUNTERS: usize = 16;

/// The most callbacks.
pub const MOST_CALLBACKS: usize = 8;

/// The most statements of a callback.
pub const MOST_CALLED: u64 = 16;

/// The greatest number of a group, and of a member.
pub const LAST_OF_EIGHT: i64 = 7;

/// The greatest start stamp of a group.
pub const LAST_START: u32 = 1_000_000_000;

/// The greatest depth of a group.
pub const LAST_DEPTH: u32 = 15;

/// The greatest distance of a shift.
pub const LAST_SHIFT: u32 = 15;

/// The greatest last value of a loop.
pub const LAST_TURN: u32 = 9_999;

/// How many blocks may stand in one another.
pub const MOST_BLOCKS: u32 = 8;

/// How many loops may stand in one another.
pub const MOST_LOOPS: u32 = 4;

/// The most statements that one pass may take.
pub const MOST_WORK: u32 = 20_000;

/// The most events.
pub const MOST_EVENTS: usize = 100_000;

/// The most rounds of one `run`.
pub const MOST_ROUNDS: u32 = 1_000;
