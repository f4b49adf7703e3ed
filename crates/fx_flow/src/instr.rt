use fx_base::{Bytes, GroupId, MemberId, Op, Role, Stamp};
use fx_script::Test;
use fx_subset::Subset;
use fx_value::Formula;

/// An array or a counter, by how many of its kind are declared before it.
#[derive(Clone, Copy, Debug, PartialEq, Eq)]
pub enum Variable {
    Array(usize),
    Counter(usize),
}

/// Which elements of an array are stored.
#[derive(Debug, Drop)]
pub enum Selection {
    All,
    Nothing,
    Within(Subset),
}

/// An outward statement. Arrays and counters are given by how many of their kind are declared
/// before them.
#[derive(Debug, Drop)]
pub enum Outward {
    Barrier,
    Reduce {
        op: Op,
        counter: usize,
        array: usize,
    },
    Agree {
        counter: usize,
        array: usize,
        index: usize,
    },
    Shift {
        by: u8,
        source: usize,
        target: usize,
    },
    Group {
        group: GroupId,
        start: Stamp,
        depth: u8,
    },
    Attach {
        group: GroupId,
        member: MemberId,
    },
    Store {
        group: GroupId,
        member: MemberId,
        array: usize,
        selection: Selection,
    },
    Commit {
        group: GroupId,
    },
    Close {
        group: GroupId,
    },
    Restore {
        group: GroupId,
        member: MemberId,
        array: usize,
        stamp: Formula,
    },
    Delete {
        group: GroupId,
        stamp: Formula,
    },
}

/// An instruction of flat code. It names the place of the one that comes then.
#[derive(Debug, Drop)]
pub enum Instr {
    /// The end of a turn of the innermost open loop, and of the body where no loop is open.
    End,
    Let {
        array: usize,
        value: Formula,
        next: usize,
    },
    Set {
        counter: usize,
        value: Formula,
        next: usize,
    },
    Print {
        name: Bytes,
        variable: Variable,
        next: usize,
    },
    Register {
        name: Bytes,
        next: usize,
    },
    When {
        role: Role,
        inside: usize,
        next: usize,
    },
    If {
        test: Test,
        left: Formula,
        right: Formula,
        chosen: usize,
        other: usize,
    },
    For {
        counter: usize,
        first: Formula,
        /// The greatest value.
        last: u32,
        inside: usize,
        next: usize,
    },
    Outward {
        what: Outward,
        next: usize,
    },
}

/// A loop that is open.
#[derive(Clone, Copy, Debug)]
pub struct Loop {
    pub counter: usize,
    /// The greatest value.
    pub last: u32,
    pub inside: usize,
    pub next: usize,
    /// How many turns are left behind the one that it is in.
    pub turns: u64,
}

/// The code of a callback: its name, where it begins, and how many statements it has.
#[derive(Debug, Drop)]
pub struct Routine {
    pub name: Bytes,
    pub begin: usize,
    pub count: usize,
}
