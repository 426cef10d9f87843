//! What an expression is at an instance.

/// What an expression is at an instance: a whole number, or whether it is true.
#[derive(Clone, Copy, Debug, PartialEq, Eq)]
pub enum Found {
    Number(i64),
    Truth(bool),
}
