//! What a search has come to.

/// What a search has come to after some turns.
#[derive(Clone, Copy, Debug, PartialEq, Eq)]
pub enum Advance {
    /// A node was expanded in each turn, and a branch is open.
    More,
    /// No branch is open.
    Done,
}
