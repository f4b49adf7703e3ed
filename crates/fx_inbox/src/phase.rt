use fx_link::Slots;

/// Where a member stands that has entered a ballot and hasn't decided.
#[derive(Debug, Drop)]
pub enum Phase {
    /// It gathers votes.
    Voting,
    /// It holds an estimate; the round of this seat is the next to be passed.
    Round(u8, Slots),
}
