//! Choices between two literals, where a partial state leaves something open, and cuts by the best
//! answer so far.
#![tactic(auto)]

mod branch;
mod choosing;
mod cut;
pub mod cut_laws;
pub mod laws;
mod openings;
mod stuck;

pub use branch::Branch;
pub use choosing::choose;
pub use cut::cut_dead;
pub use stuck::is_stuck;
