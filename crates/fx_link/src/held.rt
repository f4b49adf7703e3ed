ghost use Rattle.std.specs.Prelude.{◌≡◌, IfOk};

use crate::message::Known;
use fx_base::{Copied, NoMemory};
use std::alloc::Global;
use std::marker::Model;

/// What a process holds under a data group, in room of its own: few messages tell it, and the others are small. It is seen as
/// what is held.
#[derive(Debug, Drop)]
pub struct Held {
    room: Box<Known>,
}

impl Model for Held {
    ghost use Rattle.fx_link.specs.declared.message.Known.{Known};
    ghost use Rattle.fx_link.specs.contracts.message.Known as known;

    ghost Value = { Known };

    ghost coded = { known.the_row.coded };

    ghost view = { λ h. h.room.value };
}

impl Held {
    /// This, in room of its own.
    pub fn new(alloc: Global, known: Known) -> Result<Held, NoMemory>
        ensures { IfOk result (λ held. held ≡ known) }
    {
        Ok(Held {
            room: Box::new(alloc, known)?,
        })
    }

    /// What is held.
    pub fn get(&self) -> &Known
        ensures { result.now ≡ self.now }
    {
        &self.room
    }

    /// An equal value.
    pub fn copy(&self) -> Result<Held, NoMemory>
        ensures { IfOk result (λ copy. copy ≡ self.now) }
    {
        Held::new(*Box::allocator(&self.room), self.room.copy()?)
    }
}

impl Copied for Held {
    fn copied(&self) -> Result<Self, NoMemory> {
        self.copy()
    }
}
