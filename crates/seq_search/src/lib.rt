//! The search for the best configuration within a piece, on one thread and over one trail.
#![tactic(auto)]

mod advance;
mod alone;
mod commit;
mod expand;
mod found;
mod node;
mod open_branch;
mod searcher;
mod seeking;
mod starting;

pub use advance::Advance;
pub use alone::{Alone, MakeProps};
pub use searcher::Searcher;
