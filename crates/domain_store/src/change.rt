//! What a narrowing did.

/// What a narrowing did to a set of possibilities.
#[derive(Clone, Copy, Debug, PartialEq, Eq)]
pub enum Change {
    /// All were wanted already, and nothing changed.
    Same,
    /// Some went, and exactly the wanted ones are left.
    Smaller,
    /// None would be left, and nothing changed.
    Empty,
}
