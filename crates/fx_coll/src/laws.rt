//! What is kept of a call, held against the definition of a node that gathers parts. `StandsFor` says that of each place the
//! same is kept as the node reads.
ghost use Rattle.fx_coll.specs.Machine.{AnswersAsTheMachine, FoldsAsTheMachine, GivesAsTheMachine};

/// A node that gathers returns from its call, returns an error with the process of that place, or does nothing, as the poll
/// answers `Done`, `Failed` or `Revoked`, or `NotYet`.
pub fn answers_as_the_machine()
    ensures { AnswersAsTheMachine }
{}

/// What a reduction returns is the fold of the numbers.
pub fn folds_as_the_machine()
    ensures { FoldsAsTheMachine }
{}

/// What a node has of a place is the part of that place.
pub fn gives_as_the_machine()
    ensures { GivesAsTheMachine }
{}
