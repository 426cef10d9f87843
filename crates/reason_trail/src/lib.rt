//! Jobs, reasons, and the trail of a search: the state that it has come to, and why.
#![tactic(auto)]

mod appended;
mod description;
mod entry;
mod goal;
mod job;
pub mod laws;
mod propagate;
mod reason;
mod trail;

pub use domain_store::Change;
pub use entry::Entry;
pub use goal::Goal;
pub use job::Job;
pub use propagate::{Propagate, Step};
pub use reason::{Reason, Why};
pub use trail::Trail;
