//! What numbers and truths can be in a partial state: between which ends a number lies, which
//! truths are decided, and which ranks and keys are the least that a covered configuration can
//! have.
#![tactic(auto)]

pub mod covered_laws;
mod interval;
mod key_cursor;
mod key_start;
mod key_start_cursor;
pub mod key_start_laws;
mod kleene;
pub mod laws;
mod leaves;
mod links;
mod numbers;
mod ranged;
mod shares;
mod sums;
mod truth_sets;
mod truths;
pub mod whole_domain_laws;

pub use interval::Interval;
pub use key_start::key_start_cmp;
pub use kleene::Kleene;
pub use numbers::number_at;
pub use truths::truth_at;
