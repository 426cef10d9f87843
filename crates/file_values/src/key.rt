//! The text and the number of a key.
ghost use Rattle.std.specs.Prelude.{◌≡◌, ◌<◌, [], length, slice_index_or};
ghost use Rattle.file_values.specs.Places.{keys, number_of, text_of};

use crate::kind::Key;

impl Key {
    /// The number of the key in the list of keys.
    pub fn number(self) -> u32
        ensures { result ≡ number_of self }
    {
        match self {
            Key::Format => 0,
            Key::Root => 1,
            Key::Instances => 2,
            Key::Types => 3,
            Key::Bounds => 4,
            Key::Rules => 5,
            Key::Requests => 6,
            Key::Criteria => 7,
            Key::Name => 8,
            Key::Parent => 9,
            Key::Attributes => 10,
            Key::Ports => 11,
            Key::Range => 12,
            Key::Words => 13,
            Key::Kind => 14,
            Key::Target => 15,
            Key::Links => 16,
            Key::OfType => 17,
            Key::Count => 18,
            Key::Holds => 19,
            Key::Minimise => 20,
            Key::Maximise => 21,
            Key::Inverse => 22,
        }
    }

    /// The text of the key.
    pub fn text(self) -> &'static str
        ensures { result.now ≡ text_of self }
    {
        key_text(self.number())
    }
}

/// The texts of the keys, by their numbers.
static TEXTS: [&str; 23] = [
    "format",
    "root",
    "instances",
    "types",
    "bounds",
    "rules",
    "requests",
    "criteria",
    "name",
    "parent",
    "attributes",
    "ports",
    "range",
    "words",
    "kind",
    "target",
    "links",
    "type",
    "count",
    "holds",
    "minimise",
    "maximise",
    "inverse",
];

/// The text of the key of this number.
pub(crate) fn key_text(number: u32) -> &'static str
    requires { number < length keys }
    ensures { result.now ≡ slice_index_or keys number [] }
{
    TEXTS[number as usize]
}
