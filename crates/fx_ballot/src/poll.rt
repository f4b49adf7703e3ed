use fx_link::Slots;

/// What one turn of a member does.
#[derive(Debug, PartialEq, Drop)]
pub enum Poll {
    /// Nothing: a member is awaited that was neither heard nor lost, and hasn't left.
    NotYet,
    /// The member came one phase further, and says nothing.
    Moved,
    /// The member's own round: it says its estimate to all others, and goes on.
    SendEstimate(Slots),
    /// The slots are decided.
    Decided(Slots),
}
