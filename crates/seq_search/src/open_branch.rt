//! Open branches: lengths of the one trail.

use config_value::Literal;

/// Where a branch was left: a length of the trail, and the literal by which the state there is
/// still to be narrowed, if any.
#[derive(Clone, Copy)]
pub(crate) struct OpenBranch {
    pub(crate) len: u32,
    pub(crate) literal: Option<Literal>,
}
