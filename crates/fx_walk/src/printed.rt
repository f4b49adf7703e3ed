use fx_base::{Bytes, Copied, Elems, NoMemory, Seq};

/// What a `print` prints.
#[derive(Debug, PartialEq, Drop)]
pub struct Printed {
    /// The name of an array or a counter.
    pub name: Bytes,
    /// The elements of the array, or the one value of the counter.
    pub values: Elems,
}

/// What was printed, in order.
pub type Prints = Seq<Printed>;

impl Copied for Printed {
    fn copied(&self) -> Result<Self, NoMemory> {
        Ok(Printed {
            name: self.name.copy()?,
            values: self.values.copy()?,
        })
    }
}

/// A callback that ran.
#[derive(Debug, PartialEq, Drop)]
pub struct Called {
    pub name: Bytes,
    pub prints: Prints,
}

/// The callbacks that ran, in order.
pub type CallbackRun = Seq<Called>;

impl Copied for Called {
    fn copied(&self) -> Result<Self, NoMemory> {
        Ok(Called {
            name: self.name.copy()?,
            prints: self.prints.copy()?,
        })
    }
}
