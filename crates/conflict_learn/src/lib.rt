//! What a search learns from a failure: a nogood that keeps it from the same failure elsewhere
//! (Schiex and Verfaillie 1994; Marques-Silva and Sakallah 1999).
#![tactic(auto)]

mod assumptions;
mod implying;
pub mod laws;
mod learning;
mod shortening;

pub use implying::implies;
pub use learning::{Learned, learn};
