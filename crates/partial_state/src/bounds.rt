//! What a narrowing asks of values and of links.

/// Values up to a number, or from one on.
#[derive(Clone, Copy)]
pub(crate) enum ValueBound {
    AtMost(i64),
    AtLeast(i64),
}

/// Links with a made instance, or without it, or with so many later ones.
#[derive(Clone, Copy)]
pub(crate) enum LinkBound {
    Requires(u32),
    Excludes(u32),
    FreshAtMost(u32),
    FreshAtLeast(u32),
}

/// Values up to a number, from one on, or other than one.
#[derive(Clone, Copy)]
pub(crate) enum ValueCut {
    UpTo(i64),
    From(i64),
    Without(i64),
}
