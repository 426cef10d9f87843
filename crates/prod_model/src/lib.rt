//! The data of a product model and of an order, and what a valid model says of its types.
#![tactic(auto)]

mod copies;
mod declaration;
mod expr;
mod expr_bounds;
pub mod laws;
pub mod limits;
mod model;
mod name;
mod port_rows;
mod problem;
mod same;
mod tables;
#[cfg(test)]
mod tests;
mod type_masks;

pub use declaration::Declaration;
pub use expr::{Expr, Relation};
pub use expr_bounds::Bounds;
pub use model::{
    AttrAt, AttrDecl, CountBound, Criterion, Domain, Model, Order, PortAt, PortDecl, PortKind,
    Request, Rule, Tables, TypeDecl,
};
pub use name::Name;
pub use port_rows::PortRows;
pub use problem::Problem;
pub use sqlite_items::{Boxed, Items};
