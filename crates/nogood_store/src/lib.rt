//! Nogoods that a search holds, and the first of them that applies to a state.
#![tactic(auto)]

mod shelf;
mod store;
mod watched;
mod watchers;

pub use literal_book::Added;
pub use store::Store;
