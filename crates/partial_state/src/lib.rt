//! Partial states of a product: what is known of the instances made so far, and changes of it.
#![tactic(auto)]

mod bounds;
mod change_log;
mod changes;
mod copies;
mod entailment;
mod first_open;
mod fitting;
mod generation;
mod generation_log;
mod kind_changes;
mod kinds;
mod left;
mod links;
mod new_row;
mod openings;
mod partial;
mod ports;
mod root;
mod row;
mod shared;
mod value_changes;
mod values;
mod whole;
mod words;

pub use change_log::ChangeLog;
pub use partial::Partial;
