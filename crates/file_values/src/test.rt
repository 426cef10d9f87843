//! What is tested of each value of a file.
ghost use Rattle.std.specs.Prelude.{◌≡◌};
ghost use Rattle.std.specs.List.{list_any};
ghost use Rattle.serde_json.specs.View.{view};
ghost use Rattle.file_values.specs.Tests.{passes, is_known};

use crate::format::Format;
use crate::forms::{is_formed, text_in};
use crate::kind::Kind;
use crate::kinds::is_right;
use crate::lengths::is_short;
use crate::names::Names;
use crate::within::is_in_limits;
use serde_json::Value;

/// A test of each value of a file by itself.
#[derive(Clone, Copy)]
pub enum Test<'t> {
    /// It is of its kind.
    Kinds,
    /// It is no longer than its limit.
    Lengths,
    /// It has the form of a name or a word.
    Forms,
    /// It is within its limits.
    Limits,
    /// Where it names a type, the name is one of these.
    Known(&'t Names<'t>),
}

/// Whether the value passes the test.
pub(crate) fn passes(test: &Test<'_>, format: Format, kind: Kind, value: &Value) -> bool
    ensures { result ≡ passes test.now format kind (view value.now) }
{
    match test {
        Test::Kinds => is_right(format, kind, value),
        Test::Lengths => is_short(kind, value),
        Test::Forms => is_formed(kind, value),
        Test::Limits => is_in_limits(kind, value),
        Test::Known(names) => is_known(names, kind, value),
    }
}

/// Whether one of these names stands where the value names a type.
#[tactic(auto, unfolding(crate::specs::Tests::is_known))]
fn is_known(names: &Names<'_>, kind: Kind, value: &Value) -> bool
    ensures { result ≡ is_known names.now kind (view value.now) }
{
    match kind {
        Kind::TypeName => names.contains(text_in(value).as_bytes()),
        _ => true,
    }
}
