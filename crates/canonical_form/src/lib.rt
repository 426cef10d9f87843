//! Answer texts and conflict texts, written and read.
#![tactic(auto)]

mod answer_text;
mod conflict_text;
mod fault;
mod names;
mod numbers;
mod pieces;
mod reading;

pub use answer_text::write_answer;
pub use conflict_text::write_conflict;
pub use fault::{AnswerRefusal, LineFault, PartCode};
pub use reading::read_answer;
