//! Why the inverses of a model's ports are not right.

/// The first fault of the inverses that a model's ports name. Types and ports are counted from 0,
/// in file order.
#[derive(Clone, Copy, Debug, PartialEq, Eq)]
pub enum InverseFault {
    /// The port that the type declares at this place names an inverse that is not right: it narrows
    /// an inherited port, its target has no port of that name, the port of that name does not name
    /// it back, or both are parts.
    Bad { kind: u32, place: u32 },
}
