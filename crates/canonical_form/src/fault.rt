//! Why a text is refused as an answer.
ghost use Rattle.std.specs.Prelude.{◌≡◌};
ghost use Rattle.canonical_form.specs.declared.fault.AnswerRefusal.TheVariants.{Memory};
ghost use Rattle.canonical_form.specs.PartCodes.{number_of};

use std::alloc::AllocError;

/// What a part of an answer text is.
#[derive(Clone, Copy, Debug, PartialEq, Eq)]
pub enum PartCode {
    Header,
    /// The number of an instance.
    Number,
    /// The name of an instance's type.
    TypeName,
    /// An attribute with its value.
    Attribute,
    /// A port with its links.
    Port,
    LineEnd,
}

impl PartCode {
    /// The number of the code: 1 to 6, in the order of the parts.
    pub fn number(self) -> u32
        ensures { result ≡ number_of self }
    {
        match self {
            PartCode::Header => 1,
            PartCode::Number => 2,
            PartCode::TypeName => 3,
            PartCode::Attribute => 4,
            PartCode::Port => 5,
            PartCode::LineEnd => 6,
        }
    }
}

/// The first line at which a text leaves the spelling of an answer, and which part of it does.
#[derive(Clone, Copy, Debug, PartialEq, Eq)]
pub struct LineFault {
    /// Lines count from 1.
    pub line: u32,
    pub code: PartCode,
}

/// Why a text was not read as an answer.
#[derive(Debug, Drop)]
pub enum AnswerRefusal {
    /// It is the text of no configuration.
    Line(LineFault),
    /// Memory ran out.
    Memory(AllocError),
}

impl AnswerRefusal {
    /// The refusal of a line for the part of that code.
    pub(crate) fn at(line: u32, code: PartCode) -> AnswerRefusal
        ensures { result ≡ AnswerRefusal.Line (record { line = line; code = code }) }
    {
        AnswerRefusal::Line(LineFault { line, code })
    }
}

impl From<AllocError> for AnswerRefusal {
    ghost from_gives = { λ e refusal. refusal ≡ Memory e };

    fn from(e: AllocError) -> AnswerRefusal {
        AnswerRefusal::Memory(e)
    }
}
