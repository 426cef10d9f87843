//! Predicates on finished configurations, and what no configuration that satisfies a model does
//! together. Only copies take memory.
#![tactic(auto)]

mod added;
mod excluding;
mod holding;
mod instances;
mod literals;
mod nogood;

pub use added::Added;
pub use config_value::Literal;
pub use excluding::{are_kept, excludes, within};
pub use holding::holds_in;
pub use literals::Literals;
pub use nogood::{Nogood, Piece};
