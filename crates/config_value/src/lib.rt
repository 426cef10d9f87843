//! Finished configurations: their order, which satisfy a model, and which are preferred.
#![tactic(auto)]

mod configuration;
mod found;
mod key;
pub mod laws;
mod literal;
mod relation;
mod same;
mod turn;

pub use configuration::{Configuration, Instance};
pub use found::Found;
pub use literal::Literal;
pub use relation::holds;
