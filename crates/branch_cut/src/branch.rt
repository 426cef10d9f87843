//! A choice between two literals.
use config_value::Literal;

/// A choice between two literals, of which the first is to be tried first.
#[derive(Clone, Copy, Debug, PartialEq, Eq)]
pub struct Branch {
    pub first: Literal,
    pub second: Literal,
}
