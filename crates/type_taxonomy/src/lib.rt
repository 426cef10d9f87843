//! Builds the tables of a model's taxonomy, or tells its first fault.
#![tactic(auto)]

mod above;
mod by_name;
mod circle;
mod entry;
mod fault;
mod forest;
mod inverse_fault;
mod known;
mod laws;
mod line;
mod named_inverses;
mod narrowing;
mod new_entries;
mod port_search;
mod room;
mod rows;
mod tables;
mod taxonomy;
#[cfg(test)]
mod tests;
mod widening;

pub use fault::TaxFault;
pub use inverse_fault::InverseFault;
pub use laws::{has_no_fault, has_no_inverse_fault};
pub use named_inverses::inverses;
pub use taxonomy::build;
