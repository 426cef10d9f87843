//! What becomes of a nogood that is handed to a store.

/// What became of a nogood that a store was to take.
#[derive(Clone, Copy, Debug, PartialEq, Eq)]
pub enum Added {
    /// The store took it, as its last.
    Added,
    /// The store holds as many as it may, and is as it was.
    Full,
    /// The nogood has more literals than a store takes, and the store is as it was.
    TooLong,
}
