ghost use Rattle.std.specs.Prelude.{◌<◌, length};
ghost use Rattle.fx_io.specs.States.{SinkState};
ghost use Rattle.fx_io.specs.Writing.{Writes};

/// What one call of a sink did.
#[derive(Clone, Copy, Debug, PartialEq, Eq)]
pub enum WriteStep {
    /// So many bytes, at least one, of the front of the piece were appended.
    Took(usize),
    /// Nothing was appended, and the count of faults rose.
    Failed,
    /// Nothing was appended, because memory ran out.
    NoMemory,
}

/// Where bytes go.
///
/// Its state is what it got so far, where it tells, and the count of its failures. The count never falls, and stands
/// still at its last value, 18,446,744,073,709,551,615.
pub trait Sink {
    ghost state: { Self → SinkState };

    /// Appends at least one byte of the front of `piece`, which isn't empty, or says why it can't.
    fn write_some(&mut self, piece: &[u8]) -> WriteStep
        requires { 0 < length piece.now }
        ensures { Writes (state self.old) (state self.new) piece.now result };
}
