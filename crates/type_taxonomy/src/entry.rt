//! What a type has of attributes or ports, while the tables are built.

/// An attribute or a port of a type: its id, and the declaration that says what it is there.
#[derive(Drop)]
pub(crate) struct Entry<'a, D> {
    pub id: u32,
    pub declared: &'a D,
}
