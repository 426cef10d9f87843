//! Tells what an expression is at a type, with its bounds, or its first fault.
#![tactic(auto)]

mod bounds;
mod fault;
mod fault_kind;
mod form;
mod formed;
mod interval;
mod judge;
pub mod laws;
mod names;
mod own;
#[cfg(test)]
mod sample;
mod search;
mod standing;
#[cfg(test)]
mod tests;
mod wrong_attributes;

pub use fault::ExprFault;
pub use form::is_truth;
pub use formed::is_formed;
pub use judge::bounds_of;
pub use prod_model::Bounds;
