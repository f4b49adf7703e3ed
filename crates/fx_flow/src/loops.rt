ghost use Rattle.std.specs.Prelude.{◌≡◌, [], ◌∷◌, OnOk, OnErr};
ghost use Rattle.fx_flow.specs.Loops.{innermost, outer, with_innermost};

use crate::instr::Loop;
use fx_base::NoMemory;
use std::alloc::Global;
use std::marker::Model;

/// The open loops. They are seen as a list, the innermost first.
#[derive(Debug, Drop)]
pub struct Loops {
    items: Vec<Loop>,
}

impl Model for Loops {
    ghost use Rattle.std.specs.Prelude.{List, reverse};
    ghost use Rattle.std.specs.Coded.{coded_list};
    ghost use Rattle.fx_flow.specs.declared.instr.Loop.{Loop};
    ghost use Rattle.fx_flow.specs.contracts.instr.Loop as the_loop;

    ghost Value = { List Loop };

    ghost coded = { coded_list the_loop.the_row.coded };

    ghost view = { λ s. reverse s.items.items };
}

impl Loops {
    /// None is open.
    pub fn new(alloc: Global) -> Loops
        ensures { result ≡ [] }
    {
        Loops {
            items: Vec::new(alloc),
        }
    }

    /// The innermost loop.
    pub fn innermost(&self) -> Option<Loop>
        ensures { result ≡ innermost self.now }
    {
        self.items.last().copied()
    }

    /// Opens a loop. Without memory nothing changes.
    pub fn open(&mut self, turn: Loop) -> Result<(), NoMemory>
        ensures ok { OnOk result (self.new ≡ turn ∷ self.old) }
        ensures no_memory { OnErr result (self.new ≡ self.old) }
    {
        self.items.push(turn)?;
        Ok(())
    }

    /// Closes the innermost loop, if one is open.
    pub fn close(&mut self)
        ensures { self.new ≡ outer self.old }
    {
        let _ = self.items.pop();
    }

    /// Puts another turn in the place of the innermost loop's, if one is open.
    pub fn turn(&mut self, turn: Loop)
        ensures { self.new ≡ with_innermost turn self.old }
    {
        let count = self.items.len();
        if count > 0 {
            self.items[count - 1] = turn;
        }
    }

    /// Closes all loops.
    pub fn clear(&mut self)
        ensures { self.new ≡ [] }
    {
        self.items.clear();
    }
}
