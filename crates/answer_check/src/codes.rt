//! The numbers of the tests that a configuration may break. They are told in the order of their
//! numbers, but that of links back just before that of the numbering.

/// There are more instances than the model allows.
pub const TOO_MANY: u32 = 1;

/// Instance 0 is not under the root type.
pub const OTHER_ROOT: u32 = 2;

/// A value is not in its domain.
pub const BAD_VALUE: u32 = 3;

/// A link leads to no instance.
pub const NO_INSTANCE: u32 = 4;

/// A link leads to an instance that is not under the port's target.
pub const OFF_TARGET: u32 = 5;

/// The number of a port's links is outside its pair.
pub const BAD_NUMBER: u32 = 6;

/// Two or more part links lead to an instance, or one to instance 0.
pub const SHARED_PART: u32 = 7;

/// An instance is out of turn.
pub const MISNUMBERED: u32 = 8;

/// A count of instances is outside its entry of `bounds`.
pub const BAD_COUNT: u32 = 9;

/// A rule is false.
pub const FALSE_RULE: u32 = 10;

/// A linked instance doesn't link back by the port's inverse.
pub const NOT_LINKED_BACK: u32 = 12;
