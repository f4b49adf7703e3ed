ghost use Rattle.std.specs.Prelude.{◌≡◌, OnOk};
ghost use Rattle.fx_script.specs.Moves.{closed_block, no_callback};

use crate::expr::Expr;
use crate::head::{EdgeHead, Head, PartHead};
use crate::job::{Callback, Callbacks, Decl, Event, Events, Job, Names, Stmt, Stmts, Test};
use crate::stack::Stack;
use fx_base::{Bytes, NoMemory, Role, Spot};
use std::alloc::Global;
use std::mem;

/// The part of the text whose line is due next.
#[derive(Clone, Copy, Debug, PartialEq, Eq)]
pub enum DuePart {
    Fenix,
    Ranks,
    Spares,
    Separation,
    Names,
    Callbacks,
    Callback,
    Body,
    Schedule,
    Events,
    Stopped,
}

/// A block that is open, and the statements before it in the list where it stands.
#[derive(Debug, Drop)]
pub enum Block {
    RoleOnly {
        spot: Spot,
        role: Role,
        before: Stmts,
    },
    Yes {
        spot: Spot,
        test: Test,
        left: Expr,
        right: Expr,
        before: Stmts,
    },
    No {
        spot: Spot,
        test: Test,
        left: Expr,
        right: Expr,
        yes: Stmts,
        before: Stmts,
    },
    Loop {
        spot: Spot,
        counter: Bytes,
        first: Expr,
        last: i64,
        before: Stmts,
    },
}

/// A job as far as its lines were read.
#[derive(Debug, Drop)]
pub struct Draft {
    pub due_part: DuePart,
    pub job: Job,
    /// The callback whose lines are read.
    pub callback: Callback,
    /// The blocks that are open, the innermost first.
    pub blocks: Stack<Block>,
    /// The statements so far of the innermost list that is open.
    pub now: Stmts,
}

// The spot of a line that wasn't read yet.
const NOWHERE: Spot = Spot { line: 0, column: 0 };

impl Draft {
    ghost use Rattle.fx_script.specs.Moves.{empty_draft, moved, part_moved, edge_moved, divided, closed};

    /// The draft before the first line.
    pub fn new(alloc: Global) -> Draft
        ensures { result ≡ empty_draft }
    {
        Draft {
            due_part: DuePart::Fenix,
            job: Job {
                ranks: 0,
                spares: 0,
                separation: 0,
                ranks_spot: NOWHERE,
                spares_spot: NOWHERE,
                separation_spot: NOWHERE,
                begin_spot: NOWHERE,
                names: Names::new(alloc),
                callbacks: Callbacks::new(alloc),
                body: Stmts::new(alloc),
                events: Events::new(alloc),
            },
            callback: no_callback(alloc),
            blocks: Stack::new(alloc),
            now: Stmts::new(alloc),
        }
    }

    /// Adds what a line says. Without memory the draft is of no more use.
    pub fn take(&mut self, alloc: Global, spot: Spot, head: Head) -> Result<(), NoMemory>
        ensures { OnOk result (self.new ≡ moved self.old spot head) }
    {
        match head {
            Head::Part(part) => self.take_part(alloc, spot, part),
            Head::Edge(edge) => self.take_edge(alloc, spot, edge),
            Head::Simple(stmt) => self.now.push(stmt),
            Head::Event(kind) => self.job.events.push(Event { spot, kind }),
        }
    }

    fn take_part(&mut self, alloc: Global, spot: Spot, part: PartHead) -> Result<(), NoMemory>
        ensures { OnOk result (self.new ≡ part_moved self.old spot part) }
    {
        match part {
            PartHead::Fenix => self.due_part = DuePart::Ranks,
            PartHead::Ranks(number) => {
                self.job.ranks = number;
                self.job.ranks_spot = spot;
                self.due_part = DuePart::Spares;
            }
            PartHead::Spares(number) => {
                self.job.spares = number;
                self.job.spares_spot = spot;
                self.due_part = DuePart::Separation;
            }
            PartHead::Separation(number) => {
                self.job.separation = number;
                self.job.separation_spot = spot;
                self.due_part = DuePart::Names;
            }
            PartHead::Array(name, len) => self.job.names.push(Decl::Array { spot, name, len })?,
            PartHead::Counter(name) => self.job.names.push(Decl::Counter { spot, name })?,
            PartHead::Callback(name) => {
                self.callback.spot = spot;
                self.callback.name = name;
                self.due_part = DuePart::Callback;
            }
            PartHead::EndCallback => {
                let mut callback = mem::replace(&mut self.callback, no_callback(alloc));
                callback.body = mem::replace(&mut self.now, Stmts::new(alloc));
                self.job.callbacks.push(callback)?;
                self.due_part = DuePart::Callbacks;
            }
            PartHead::Begin => {
                self.job.begin_spot = spot;
                self.due_part = DuePart::Body;
            }
            PartHead::End => {
                self.job.body = mem::replace(&mut self.now, Stmts::new(alloc));
                self.due_part = DuePart::Schedule;
            }
            PartHead::Schedule => self.due_part = DuePart::Events,
            PartHead::Stop => self.due_part = DuePart::Stopped,
        }
        Ok(())
    }

    fn take_edge(&mut self, alloc: Global, spot: Spot, edge: EdgeHead) -> Result<(), NoMemory>
        ensures { OnOk result (self.new ≡ edge_moved self.old spot edge) }
    {
        match edge {
            EdgeHead::When(role) => {
                let before = mem::replace(&mut self.now, Stmts::new(alloc));
                self.blocks.push(Block::RoleOnly { spot, role, before })
            }
            EdgeHead::If(test, left, right) => {
                let before = mem::replace(&mut self.now, Stmts::new(alloc));
                self.blocks.push(Block::Yes {
                    spot,
                    test,
                    left,
                    right,
                    before,
                })
            }
            EdgeHead::For(counter, first, last) => {
                let before = mem::replace(&mut self.now, Stmts::new(alloc));
                self.blocks.push(Block::Loop {
                    spot,
                    counter,
                    first,
                    last,
                    before,
                })
            }
            EdgeHead::Else => self.divide(alloc),
            EdgeHead::EndWhen | EdgeHead::EndIf | EdgeHead::EndFor => self.close(alloc),
        }
    }

    // Goes over to the other list of the branch that is open.
    fn divide(&mut self, alloc: Global) -> Result<(), NoMemory>
        ensures { OnOk result (self.new ≡ divided self.old) }
    {
        match self.blocks.pop() {
            Some(
                Block::Yes {
                    spot,
                    test,
                    left,
                    right,
                    before,
                },
            ) => {
                let yes = mem::replace(&mut self.now, Stmts::new(alloc));
                self.blocks.push(Block::No {
                    spot,
                    test,
                    left,
                    right,
                    yes,
                    before,
                })
            }
            Some(block) => self.blocks.push(block),
            None => Ok(()),
        }
    }

    // Closes the innermost block, which becomes a statement of the list around it.
    fn close(&mut self, alloc: Global) -> Result<(), NoMemory>
        ensures { OnOk result (self.new ≡ closed self.old) }
    {
        let Some(block) = self.blocks.pop() else {
            return Ok(());
        };
        let body = mem::replace(&mut self.now, Stmts::new(alloc));
        let (before, stmt) = close_block(block, body);
        self.now = before;
        self.now.push(stmt)
    }
}

// A block whose last list is this one, as a statement, and the statements before it.
fn close_block(block: Block, body: Stmts) -> (Stmts, Stmt)
    ensures { result ≡ closed_block block body }
{
    match block {
        Block::RoleOnly { spot, role, before } => (before, Stmt::RoleOnly { spot, role, body }),
        Block::Yes {
            spot,
            test,
            left,
            right,
            before,
        } => (
            before,
            Stmt::Branch {
                spot,
                test,
                left,
                right,
                yes: body,
                no: None,
            },
        ),
        Block::No {
            spot,
            test,
            left,
            right,
            yes,
            before,
        } => (
            before,
            Stmt::Branch {
                spot,
                test,
                left,
                right,
                yes,
                no: Some(body),
            },
        ),
        Block::Loop {
            spot,
            counter,
            first,
            last,
            before,
        } => (
            before,
            Stmt::Loop {
                spot,
                counter,
                first,
                last,
                body,
            },
        ),
    }
}

// The callback where none is read.
fn no_callback(alloc: Global) -> Callback
    ensures { result ≡ no_callback }
{
    Callback {
        spot: NOWHERE,
        name: Bytes::new(alloc),
        body: Stmts::new(alloc),
    }
}
