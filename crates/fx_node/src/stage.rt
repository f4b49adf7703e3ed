use fx_inbox::Phase;

/// Where a process stands.
#[derive(Debug, Drop)]
pub enum Stage {
    /// It hasn't joined yet.
    Begins,
    /// It is in the ballot of the next epoch.
    Joining(Phase),
    /// The epoch has begun. A spare stays here.
    Arrived,
    /// `Init` has returned, and it is in the body.
    Walking,
    /// It is in the call at which the body stands, and gathers the parts of all.
    Gathering,
    /// It is in the ballot of the call at which the body stands.
    Balloting(Phase),
    /// Its call failed or was revoked.
    Failed,
    /// It has ended.
    Over,
}
