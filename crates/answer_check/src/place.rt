//! Where a test is broken.

/// The instance at which a test is broken, and the item there.
#[derive(Clone, Copy)]
pub(crate) struct Place {
    pub instance: u32,
    pub item: u32,
}
