//! What is wrong with an expression.
use prod_model::Items;

/// The first fault of an expression, with the path to it from the whole expression: at each step
/// the place of an argument in the array form, where the operator stands at 0.
#[derive(Debug, Drop)]
pub enum ExprFault {
    /// The part at this path nests too deep: the whole has depth 1, and this one 17.
    Deep(Items<u32>),
    /// The name or word at this path is not one that is allowed there.
    UnknownName(Items<u32>),
    /// The argument at this path is a number where a truth is needed, or the reverse; or it is the
    /// name of an attribute with words where one with a range is needed, or the reverse.
    WrongKind(Items<u32>),
    /// The low or the high of the part at this path is beyond -10^15 to 10^15, and no argument's
    /// are.
    Wide(Items<u32>),
    /// Memory ran out.
    Memory,
}
