//! What is wrong with a file, and where.
ghost use Rattle.std.specs.Prelude.{◌≡◌, ◌<◌};
ghost use Rattle.std.specs.Ordering.{is_lt};
ghost use Rattle.file_values.specs.Codes.{number_of};
ghost use Rattle.file_values.specs.FaultOrder.{fault_cmp};

use crate::part::Part;
use crate::place::is_place_before;
use prod_model::Items;
use std::cmp::Ordering;

/// What is wrong with a file.
#[derive(Clone, Copy, Debug, PartialEq, Eq)]
pub enum FaultCode {
    /// It has too many bytes.
    TooLong,
    /// It is no JSON text.
    NoJson,
    /// A value is not of its kind, a member lacks or is not listed, or of two members that exclude
    /// each other not exactly one stands.
    OtherKind,
    /// A list is longer than its limit, one of words is empty, or the types declare too much.
    WrongLength,
    /// A name or a word is not of its form.
    WrongForm,
    /// A name stands twice.
    Twice,
    /// A number is outside its limits, or a pair has its low above its high.
    PastLimit,
    /// No type has the name.
    UnknownType,
    /// A type is its own ancestor.
    Cycle,
    /// A declaration of an inherited name is no narrowing.
    Widening,
    /// A type has too many attributes or ports.
    Crowded,
    /// An expression is of none of the forms, or an argument isn't what it has to be.
    Misformed,
    /// An expression nests too deep.
    Deep,
    /// A name or a word in an expression is none that may stand there.
    UnknownName,
    /// A number stands where a truth is needed, or the reverse, or an attribute of the wrong kind.
    WrongKind,
    /// The bounds of an expression leave the limits.
    Wide,
    /// A port's inverse is not right.
    WrongInverse,
}

impl FaultCode {
    /// The number that is printed behind `F`, in two digits.
    pub fn number(self) -> u32
        ensures number { result ≡ number_of self }
        ensures digits { result < 100 }
    {
        match self {
            FaultCode::TooLong => 1,
            FaultCode::NoJson => 2,
            FaultCode::OtherKind => 3,
            FaultCode::WrongLength => 4,
            FaultCode::WrongForm => 5,
            FaultCode::Twice => 6,
            FaultCode::PastLimit => 7,
            FaultCode::UnknownType => 8,
            FaultCode::Cycle => 9,
            FaultCode::Widening => 10,
            FaultCode::Crowded => 11,
            FaultCode::Misformed => 12,
            FaultCode::Deep => 13,
            FaultCode::UnknownName => 14,
            FaultCode::WrongKind => 15,
            FaultCode::Wide => 16,
            FaultCode::WrongInverse => 17,
        }
    }
}

/// A fault of a file. The place is empty for the whole document.
#[derive(Debug, Drop)]
pub struct Fault {
    pub code: FaultCode,
    pub place: Items<Part>,
}

impl Fault {
    /// Whether the fault comes before another one: it has a lesser number, or the same and an
    /// earlier place.
    pub fn is_before(&self, other: &Fault) -> bool
        ensures { result ≡ is_lt (fault_cmp self.now other.now) }
    {
        match self.code.number().cmp(&other.code.number()) {
            Ordering::Less => true,
            Ordering::Equal => is_place_before(self.place.as_slice(), other.place.as_slice()),
            Ordering::Greater => false,
        }
    }
}
