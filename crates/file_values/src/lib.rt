//! The values of a model or order file, each with its kind and its place, and the first that fails
//! a test.
#![tactic(auto)]

mod fault;
mod format;
mod forms;
mod group;
mod key;
mod kind;
mod kinds;
mod lengths;
mod misformed;
mod names;
mod operator;
mod operators;
mod part;
mod place;
mod place_text;
mod repeats;
mod search;
mod table;
mod test;
mod walk;
mod within;

pub use fault::{Fault, FaultCode};
pub use format::Format;
pub use forms::{is_name, is_word, text_in};
pub use kind::{Key, Kind, Member, Need};
pub use kinds::items_in;
pub use lengths::items_at;
pub use misformed::first_misformed;
pub use names::Names;
pub use operator::{Argument, Operator};
pub use operators::operator_of;
pub use part::Part;
pub use place::is_place_before;
pub use place_text::write_place;
pub use test::Test;
pub use walk::{first_failing, first_twice};
pub use within::{is_number_of_links, whole_at, whole_in};

#[cfg(test)]
mod tests;
