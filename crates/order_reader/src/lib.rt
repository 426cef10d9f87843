//! Reads orders.
#![tactic(auto)]

mod criteria;
mod order;
mod requests;

pub use order::read_order;
