//! What a model or order file stands for, and its faults.
#![tactic(auto)]

mod built;
mod declared;
mod expression;
mod first_declared;
mod judge;
pub mod laws;
mod look_ups;
mod named_tables;
mod reading;
mod refusal;

pub use declared::declared_in;
pub use expression::{judge_expr, read_expr, read_named};
pub use named_tables::NamedTables;
pub use refusal::Refusal;
