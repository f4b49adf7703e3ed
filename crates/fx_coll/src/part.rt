use fx_base::Elems;

/// What a member gives to a call.
#[derive(Debug, PartialEq, Drop)]
pub enum Part {
    /// Nothing, as in a barrier.
    Empty,
    /// A number that is reduced with those of the others.
    Number(i64),
    /// Elements that are shifted.
    Elems(Elems),
}
