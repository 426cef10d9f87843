//! The limits of a model and an order, for every test of a length or a number.

/// How many bytes the file of a model or an order has at most.
pub const MOST_FILE_BYTES: usize = 4_194_304;

/// How many bytes the file of an answer has at most.
pub const MOST_ANSWER_BYTES: usize = 8_388_608;

/// How many types a model has at most.
pub const MOST_TYPES: usize = 128;

/// How many attributes a type has at most, inherited ones included.
pub const MOST_ATTRIBUTES_OF_TYPE: usize = 32;

/// How many ports a type has at most, inherited ones included.
pub const MOST_PORTS_OF_TYPE: usize = 16;

/// How many declarations of attributes a model has at most, narrowings included.
pub const MOST_ATTRIBUTE_DECLARATIONS: usize = 256;

/// How many declarations of ports a model has at most, narrowings included.
pub const MOST_PORT_DECLARATIONS: usize = 256;

/// How many words an attribute lists at most.
pub const MOST_WORDS: usize = 64;

/// How many bytes a name or a word has at most.
pub const MOST_NAME_BYTES: usize = 32;

/// How many instances a model allows a configuration at most.
pub const MOST_INSTANCES: usize = 256;

/// The greatest number of links of a port, and of instances in an entry of `bounds`.
pub const MOST_LINKS: usize = 256;

/// How many rules a model has at most.
pub const MOST_RULES: usize = 1000;

/// How many entries of `bounds` a model has at most.
pub const MOST_BOUNDS: usize = 128;

/// How many requests an order has at most.
pub const MOST_REQUESTS: usize = 64;

/// How many criteria an order has at most.
pub const MOST_CRITERIA: usize = 8;

/// How deep an expression nests at most.
pub const MOST_NESTING: usize = 16;

/// How many arguments a sum, an `and` or an `or` has at most.
pub const MOST_ARGUMENTS: usize = 64;

/// How far an end of a range may be from 0.
pub const FARTHEST_END: i64 = 1_000_000;

/// How far a bound of an expression may be from 0.
pub const FARTHEST_BOUND: i64 = 1_000_000_000_000_000;
