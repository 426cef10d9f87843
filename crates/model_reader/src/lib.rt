//! Reads product models.
#![tactic(auto)]

mod declared;
mod file;
mod inverses;
mod known;
mod model;
mod names;
mod plain;
mod rules;
mod stated;
mod types;

pub use declared::{check_values, member_of, null};
pub use file::{too_long, value_of};
pub use file_meaning::{NamedTables, Refusal, read_expr};
pub use file_values::{Fault, FaultCode, Part, write_place};
pub use inverses::link_inverses;
pub use known::check_known;
pub use model::read_model;
pub use names::name_in;
pub use plain::check_plain;
pub use rules::read_rules;
pub use stated::{earlier_fault, place_in, placed, read_stated};
pub use types::declared_tables;
