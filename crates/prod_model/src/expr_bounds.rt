//! What an expression is at a type.

/// What an expression is at a type: a truth, or a whole number from `low` to `high`. Both ends lie
/// within -10^15 to 10^15.
#[derive(Clone, Copy, Debug, PartialEq, Eq)]
pub enum Bounds {
    Number { low: i64, high: i64 },
    Truth,
}
