ghost use Rattle.std.specs.Prelude.{◌≡◌};
ghost use Rattle.fx_agree.specs.Stages.{IsEarly, passed, closed};

use fx_link::Slots;
use std::mem;

/// Where a member stands that has entered its ballot.
#[derive(Debug, Drop)]
pub enum Stage {
    /// It gathers votes.
    Voting,
    /// It holds an estimate; the round of this seat is the next to be passed.
    Round(u8, Slots),
    /// It has decided.
    Decided(Slots),
}

impl Stage {
    /// The round is passed, with the estimate that was held.
    pub fn pass(&mut self)
        requires { IsEarly self.old }
        ensures { self.new ≡ passed self.old }
    {
        if let Stage::Round(number, _) = self {
            *number += 1;
        }
    }

    /// What is held is decided.
    pub fn close(&mut self)
        ensures { self.new ≡ closed self.old }
    {
        *self = match mem::replace(self, Stage::Voting) {
            Stage::Round(_, held) => Stage::Decided(held),
            stage => stage,
        };
    }
}
