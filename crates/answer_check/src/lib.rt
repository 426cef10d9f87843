//! Checks a configuration against a model, and tells values of expressions. Nothing here takes
//! memory.
#![tactic(auto)]

pub mod codes;
mod evaluate;
mod in_order;
mod instances;
mod linked;
mod links;
mod numbers;
mod parts;
mod place;
mod rules;
mod sizes;
mod sums;
mod truths;
mod turns;
mod types;
mod values;
mod verdict;

pub use config_value::Found;
pub use evaluate::value_at;
pub use in_order::check;
pub use rules::meets;
pub use verdict::Verdict;
