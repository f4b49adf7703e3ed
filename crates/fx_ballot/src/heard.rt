use fx_link::{Slot, Slots};

/// What a member knows of one member of its ballot, itself included.
#[derive(Debug, Drop)]
pub struct Heard {
    /// The first vote that was heard.
    pub vote: Option<Slot>,
    /// The first estimate that was heard.
    pub estimate: Option<Slots>,
    /// It was told that the other is lost.
    pub lost: bool,
    /// It has seen that the other left.
    pub left: bool,
}
