//! The literals of models that the tests of several crates share.
#![tactic(auto)]

mod declared;
mod lists;
mod literal;

pub use declared::{attribute_of, domain_of, model_of, name_of, port_of, type_of, types_of};
pub use lists::{one, two};
pub use literal::{
    AttributeLiteral, PortLiteral, TypeLiteral, Values, port, range, type_literal, with_inverse,
    words,
};
