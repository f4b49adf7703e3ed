ghost use Rattle.std.specs.Prelude.{◌<◌, length};
ghost use Rattle.fx_io.specs.Reading.{Reads};
ghost use Rattle.fx_io.specs.States.{SourceState};

/// What one call of a source gave.
#[derive(Clone, Copy, Debug, PartialEq, Eq)]
pub enum ReadStep {
    /// So many bytes, at least one, stand at the front of the buffer.
    Got(usize),
    /// The source has come to its end.
    End,
    /// Nothing was read, and the count of faults rose.
    Failed,
}

/// Where bytes come from.
///
/// Its state is what it still holds, where it tells, and the count of its failures. The count never falls, and stands
/// still at its last value, 18,446,744,073,709,551,615.
pub trait Source {
    ghost state: { Self → SourceState };

    /// Reads at least one byte into the front of `into`, which isn't empty, or says why it can't.
    fn read_some(&mut self, into: &mut [u8]) -> ReadStep
        requires { 0 < length into.old }
        ensures { Reads (state self.old) (state self.new) into.new result };
}
