//! What a check answers.

/// Whether a configuration satisfies a model, and else the first test that it breaks: the number of
/// the test, which is one of `codes`, the instance, and the item there.
#[derive(Clone, Copy, Debug, PartialEq, Eq)]
pub enum Verdict {
    Satisfied,
    Broken { code: u32, instance: u32, item: u32 },
}
