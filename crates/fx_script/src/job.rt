ghost use Rattle.std.specs.Prelude.{◌≡◌};
ghost use Rattle.fx_script.specs.Spots.{stmt_spot};

use crate::expr::Expr;
use fx_base::{Bytes, Op, Role, Seq, Spot};

/// A job, as its text spells it. Each spot is that of the first word of its line.
#[derive(Debug, Drop)]
pub struct Job {
    /// How many places the first communicator has.
    pub ranks: i64,
    /// How many processes wait beside the ranks.
    pub spares: i64,
    /// How far the buddy of a place is.
    pub separation: i64,
    pub ranks_spot: Spot,
    pub spares_spot: Spot,
    pub separation_spot: Spot,
    pub begin_spot: Spot,
    pub names: Names,
    pub callbacks: Callbacks,
    pub body: Stmts,
    pub events: Events,
}

/// A name that a job declares.
#[derive(Debug, Drop)]
pub enum Decl {
    /// An array of so many elements.
    Array { spot: Spot, name: Bytes, len: i64 },
    /// A counter.
    Counter { spot: Spot, name: Bytes },
}

/// What a job declares, in the order of its lines.
pub type Names = Seq<Decl>;

/// Statements that survivors run after a repair, before `Init` returns.
#[derive(Debug, Drop)]
pub struct Callback {
    pub spot: Spot,
    pub name: Bytes,
    pub body: Stmts,
}

/// The callbacks of a job, in the order of its lines.
pub type Callbacks = Seq<Callback>;

/// How the two sides of a branch are compared.
#[derive(Clone, Copy, Debug, PartialEq, Eq)]
pub enum Test {
    /// The left is below the right.
    Lt,
    /// The left is at most the right.
    Le,
    /// They are equal.
    Eq,
}

/// Pairs of a first and a last index.
pub type NumPairs = Seq<(i64, i64)>;

/// Which elements of an array are stored.
#[derive(Debug, Drop)]
pub enum Picked {
    /// All.
    Full,
    /// None.
    Empty,
    /// So many blocks, the first from a start to an end, each as far from the one before as the stride.
    Strided(i64, i64, i64, i64),
    /// Those of 1 to 16 pairs.
    Ranges(NumPairs),
}

/// A statement.
#[derive(Debug, Drop)]
pub enum Stmt {
    /// Computes each element of an array.
    Let {
        spot: Spot,
        array: Bytes,
        value: Expr,
    },
    /// Computes a counter.
    Set {
        spot: Spot,
        counter: Bytes,
        value: Expr,
    },
    /// Prints an array or a counter.
    Print {
        spot: Spot,
        name: Bytes,
    },
    /// Registers a callback.
    Register {
        spot: Spot,
        name: Bytes,
    },
    /// Runs its body on ranks of one role.
    RoleOnly {
        spot: Spot,
        role: Role,
        body: Stmts,
    },
    /// Runs one of two bodies. `no` is `None` exactly where there is no `else` line.
    Branch {
        spot: Spot,
        test: Test,
        left: Expr,
        right: Expr,
        yes: Stmts,
        no: Option<Stmts>,
    },
    /// Runs its body for each value of a counter from a first to a last.
    Loop {
        spot: Spot,
        counter: Bytes,
        first: Expr,
        last: i64,
        body: Stmts,
    },
    /// Waits for all.
    Barrier {
        spot: Spot,
    },
    /// Sets a counter to the sum, the least or the greatest of all elements of all ranks.
    Reduce {
        spot: Spot,
        op: Op,
        counter: Bytes,
        array: Bytes,
    },
    /// Agrees on the bitwise and of one element of all ranks.
    Agree {
        spot: Spot,
        counter: Bytes,
        array: Bytes,
        index: i64,
    },
    /// Sends an array so many places on.
    Shift {
        spot: Spot,
        source: Bytes,
        target: Bytes,
        by: i64,
    },
    /// Creates a data group.
    Group {
        spot: Spot,
        group: i64,
        start: i64,
        depth: i64,
    },
    /// Attaches an array to a group.
    Member {
        spot: Spot,
        group: i64,
        member: i64,
        array: Bytes,
    },
    /// Stores elements of a member.
    Store {
        spot: Spot,
        group: i64,
        member: i64,
        subset: Picked,
    },
    /// Gives what was stored a time stamp.
    Commit {
        spot: Spot,
        group: i64,
    },
    /// Commits and closes all snapshots, on all ranks.
    CommitBarrier {
        spot: Spot,
        group: i64,
    },
    /// Restores a member from a snapshot.
    Restore {
        spot: Spot,
        group: i64,
        member: i64,
        stamp: Expr,
    },
    /// Deletes a snapshot, on all ranks.
    Drop {
        spot: Spot,
        group: i64,
        stamp: Expr,
    },
}

impl Stmt {
    /// The spot of its line; of a block, that of its first line.
    pub fn spot(&self) -> Spot
        ensures { result ≡ stmt_spot self.now }
    {
        match self {
            Stmt::Let { spot, .. }
            | Stmt::Set { spot, .. }
            | Stmt::Print { spot, .. }
            | Stmt::Register { spot, .. }
            | Stmt::RoleOnly { spot, .. }
            | Stmt::Branch { spot, .. }
            | Stmt::Loop { spot, .. }
            | Stmt::Barrier { spot, .. }
            | Stmt::Reduce { spot, .. }
            | Stmt::Agree { spot, .. }
            | Stmt::Shift { spot, .. }
            | Stmt::Group { spot, .. }
            | Stmt::Member { spot, .. }
            | Stmt::Store { spot, .. }
            | Stmt::Commit { spot, .. }
            | Stmt::CommitBarrier { spot, .. }
            | Stmt::Restore { spot, .. }
            | Stmt::Drop { spot, .. } => *spot,
        }
    }
}

/// Statements, in the order in which they run.
pub type Stmts = Seq<Stmt>;

/// What happens to the processes, one event after another.
#[derive(Clone, Copy, Debug, PartialEq, Eq)]
pub enum EventKind {
    /// A process takes one step.
    Step(i64),
    /// A process takes steps until it is quiet.
    Rest(i64),
    /// The front of the link from one process to another is received.
    Deliver(i64, i64),
    /// A process is killed.
    Kill(i64),
    /// One process's loss is told to another.
    Notice(i64, i64),
    /// So many fair rounds.
    Run(i64),
}

/// An event of the schedule.
#[derive(Clone, Copy, Debug, PartialEq, Eq)]
pub struct Event {
    pub spot: Spot,
    pub kind: EventKind,
}

/// The schedule, in the order of its lines.
pub type Events = Seq<Event>;
