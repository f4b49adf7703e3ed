ghost use Rattle.std.specs.Prelude.{◌≡◌, ◌≤◌, ◌<◌};
ghost use Rattle.fx_check.specs.Rules.{body_place, callback_place, inside_for, inside_if, inside_when};

/// Where a statement stands.
#[derive(Clone, Copy, Debug, PartialEq, Eq)]
pub struct Surroundings {
    /// In a callback, else in the body.
    pub in_callback: bool,
    /// How many statements of the callback stand before it.
    pub before: u64,
    /// Inside `when`.
    pub in_when: bool,
    /// How many blocks are open.
    pub blocks: u32,
    /// How many of them are loops.
    pub loops: u32,
}

impl Surroundings {
    /// The body.
    pub(crate) fn body() -> Surroundings
        ensures { result ≡ body_place }
    {
        Surroundings {
            in_callback: false,
            before: 0,
            in_when: false,
            blocks: 0,
            loops: 0,
        }
    }

    /// A callback, behind so many of its statements.
    pub(crate) fn callback(before: u64) -> Surroundings
        ensures { result ≡ callback_place before }
    {
        Surroundings {
            in_callback: true,
            before,
            ..Surroundings::body()
        }
    }

    /// Inside a `when` that stands here.
    pub(crate) fn inside_when(self) -> Surroundings
        requires blocks { self.blocks < 8 }
        requires loops { self.loops ≤ 4 }
        ensures same { result ≡ inside_when self }
        ensures blocks { result.blocks ≤ 8 }
        ensures loops { result.loops ≤ 4 }
    {
        Surroundings {
            in_when: true,
            blocks: self.blocks + 1,
            ..self
        }
    }

    /// Inside an `if` that stands here.
    pub(crate) fn inside_if(self) -> Surroundings
        requires blocks { self.blocks < 8 }
        requires loops { self.loops ≤ 4 }
        ensures same { result ≡ inside_if self }
        ensures blocks { result.blocks ≤ 8 }
        ensures loops { result.loops ≤ 4 }
    {
        Surroundings {
            blocks: self.blocks + 1,
            ..self
        }
    }

    /// Inside a `for` that stands here.
    pub(crate) fn inside_for(self) -> Surroundings
        requires blocks { self.blocks < 8 }
        requires loops { self.loops < 4 }
        ensures same { result ≡ inside_for self }
        ensures blocks { result.blocks ≤ 8 }
        ensures loops { result.loops ≤ 4 }
    {
        Surroundings {
            blocks: self.blocks + 1,
            loops: self.loops + 1,
            ..self
        }
    }
}
