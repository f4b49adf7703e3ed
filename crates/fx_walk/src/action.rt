use fx_base::Role;

/// What comes next in a body.
#[derive(Clone, Copy, Debug, PartialEq, Eq)]
pub enum At {
    /// An action of the rank alone.
    Plain,
    /// A statement that the rank's surroundings answer.
    Outward,
    /// The end of the body.
    Finish,
}

/// What a rank sees of itself and of the data groups.
#[derive(Clone, Copy, Debug)]
pub struct View {
    pub role: Role,
    /// Its place, from 0, below the size.
    pub rank: u8,
    /// How many places the communicator has, at least 1.
    pub size: u8,
    /// The newest retained stamp of each of the groups 0 to 7, -1 where the group isn't created in
    /// this epoch or retains none.
    pub latest: [i64; 8],
}
