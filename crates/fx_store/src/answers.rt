ghost use Rattle.std.specs.Prelude.{◌≡◌};
ghost use Rattle.fx_store.specs.declared.answers.CommitEnd.TheVariants.{NoMemory as CommitOutOfMemory};
ghost use Rattle.fx_store.specs.declared.answers.StoreEnd.TheVariants.{NoMemory as StoreOutOfMemory};

use fx_base::NoMemory;

/// Why nothing is stored.
#[derive(Clone, Copy, Debug, PartialEq, Eq)]
pub enum StoreEnd {
    /// The member isn't attached.
    NotAttached,
    /// Memory ran out.
    NoMemory,
}

impl From<NoMemory> for StoreEnd {
    ghost from_gives = { λ _ e. e ≡ StoreOutOfMemory };

    fn from(_error: NoMemory) -> StoreEnd {
        StoreEnd::NoMemory
    }
}

/// Why nothing is committed.
#[derive(Clone, Copy, Debug, PartialEq, Eq)]
pub enum CommitEnd {
    /// As many tentative snapshots wait as a commit allows: 16 or more.
    Full,
    /// Memory ran out.
    NoMemory,
}

impl From<NoMemory> for CommitEnd {
    ghost from_gives = { λ _ e. e ≡ CommitOutOfMemory };

    fn from(_error: NoMemory) -> CommitEnd {
        CommitEnd::NoMemory
    }
}

/// Why no snapshot is deleted.
#[derive(Clone, Copy, Debug, PartialEq, Eq)]
pub enum DeleteEnd {
    /// No kept snapshot has the stamp.
    NoStamp,
}

/// Why no elements are found.
#[derive(Clone, Copy, Debug, PartialEq, Eq)]
pub enum FindEnd {
    /// The member isn't attached.
    NotAttached,
    /// The member is attached, and no kept snapshot has the stamp.
    NoStamp,
    /// The snapshot is there, and has no entry of the member.
    NotStored,
}
