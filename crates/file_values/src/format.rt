//! The formats of a model file.

/// The format of a model file. Order files have one format: with them either does.
#[derive(Clone, Copy, Debug, PartialEq, Eq)]
pub enum Format {
    /// `product-model 1`.
    First,
    /// `product-model 2`, in which a port may name its inverse.
    Second,
}
