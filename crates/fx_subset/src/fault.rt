ghost use Rattle.std.specs.Prelude.{◌≡◌};

use fx_base::NoMemory;

/// Why no subset is made of some numbers. Where several hold, the first of this order is answered.
#[derive(Clone, Copy, Debug, PartialEq, Eq)]
pub enum SubsetFault {
    /// There is no block or no pair, or the array is empty.
    NoBlocks,
    /// A block or a pair ends before it starts.
    EndBeforeStart,
    /// Several blocks stand in one place.
    ZeroStride,
    /// An index isn't below the array's length.
    Outside,
}

/// Why no subset is made.
#[derive(Clone, Copy, Debug, PartialEq, Eq)]
pub enum MakeSubset {
    /// The numbers give none.
    Refused(SubsetFault),
    /// Memory ran out.
    NoMemory,
}

impl From<NoMemory> for MakeSubset {
    ghost use Rattle.fx_subset.specs.declared.fault.MakeSubset.TheVariants as made;

    ghost from_gives = { λ _ e. e ≡ made.NoMemory };

    fn from(_error: NoMemory) -> MakeSubset {
        MakeSubset::NoMemory
    }
}
