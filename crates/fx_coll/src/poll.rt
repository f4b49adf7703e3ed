/// How a call stands. A member is named by its place in the call, from 0.
#[derive(Clone, Copy, Debug, PartialEq, Eq)]
pub enum CollPoll {
    /// The part of each member is there.
    Done,
    /// Of the lost members whose part is absent this one has the least place.
    Failed(u8),
    /// No lost member's part is absent; of those that left and whose part is absent this one has the least place.
    Revoked(u8),
    /// A part is absent, and each member whose part is absent is neither lost nor has left.
    NotYet,
}
