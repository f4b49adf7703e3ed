use fx_base::NoMemory;
use fx_io::PutEnd;

/// Why a run was cut short.
#[derive(Clone, Copy, Debug, PartialEq, Eq)]
pub enum RunEnd {
    /// The sink failed, and its count of faults rose, or stands at its last value.
    WriteFault,
    /// The rounds of the tail were over, and a living process hadn't ended.
    Unfinished,
    /// Memory ran out.
    NoMemory,
}

impl From<NoMemory> for RunEnd {
    ghost use Rattle.std.specs.Prelude.{◌≡◌};
    ghost use Rattle.fx_world.specs.declared.end.RunEnd.TheVariants as end;

    ghost from_gives = { λ _ e. e ≡ end.NoMemory };

    fn from(_error: NoMemory) -> RunEnd {
        RunEnd::NoMemory
    }
}

impl From<PutEnd> for RunEnd {
    ghost use Rattle.std.specs.Prelude.{◌≡◌};
    ghost use Rattle.fx_world.specs.Goes.{cut_by};

    ghost from_gives = { λ put e. e ≡ cut_by put };

    fn from(put: PutEnd) -> RunEnd {
        match put {
            PutEnd::Failed => RunEnd::WriteFault,
            PutEnd::NoMemory => RunEnd::NoMemory,
        }
    }
}
