//! What is searched for in the values of a file.
use crate::test::Test;

/// What is searched for in each value of a file.
#[derive(Clone, Copy)]
pub(crate) enum Search<'t> {
    /// The value itself, where it fails the test.
    Failing(Test<'t>),
    /// The later of two texts that are the same and have to differ.
    Twice,
}
