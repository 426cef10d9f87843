//! Whether a name or a word has its form.
ghost use Rattle.std.specs.Prelude.{◌≡◌};
ghost use Rattle.std.specs.List.{list_all};
ghost use Rattle.prod_model.specs.Names.{is_name, is_word, is_letter, is_digit, is_name_byte, is_word_byte, begins_with_letter};
ghost use Rattle.serde_json.specs.View.{view};
ghost use Rattle.file_values.specs.Read.{text_in};
ghost use Rattle.file_values.specs.Tests.{is_formed};

use crate::kind::Kind;
use prod_model::limits::MOST_NAME_BYTES;
use serde_json::Value;

/// The text that the value is, and the empty text where it is none.
pub fn text_in(value: &Value) -> &str
    ensures { result.now ≡ text_in (view value.now) }
{
    value.as_str().unwrap_or("")
}

/// Whether it is a letter, and then letters, digits, `_` and `-`, at most 32 bytes in all.
#[tactic(auto, unfolding(prod_model::specs::Names::is_name))]
pub fn is_name(bytes: &[u8]) -> bool
    ensures { result ≡ is_name bytes.now }
{
    bytes.len() <= MOST_NAME_BYTES && begins_with_letter(bytes) && are_name_bytes(bytes)
}

fn begins_with_letter(bytes: &[u8]) -> bool
    ensures { result ≡ begins_with_letter bytes.now }
{
    match bytes.split_first() {
        None => false,
        Some((first, _)) => is_letter(*first),
    }
}

fn are_name_bytes(bytes: &[u8]) -> bool
    ensures { result ≡ list_all is_name_byte bytes.now }
{
    bytes.iter().all(|b| is_name_byte(*b))
}

/// Whether it is 1 to 32 letters, digits, `_`, `-` and `.`.
#[tactic(auto, unfolding(prod_model::specs::Names::is_word))]
pub fn is_word(bytes: &[u8]) -> bool
    ensures { result ≡ is_word bytes.now }
{
    1 <= bytes.len() && bytes.len() <= MOST_NAME_BYTES && are_word_bytes(bytes)
}

fn are_word_bytes(bytes: &[u8]) -> bool
    ensures { result ≡ list_all is_word_byte bytes.now }
{
    bytes.iter().all(|b| is_word_byte(*b))
}

fn is_word_byte(b: u8) -> bool
    ensures { result ≡ is_word_byte b }
{
    is_name_byte(b) || b == b'.'
}

fn is_name_byte(b: u8) -> bool
    ensures { result ≡ is_name_byte b }
{
    is_letter(b) || is_digit(b) || b == b'_' || b == b'-'
}

fn is_letter(b: u8) -> bool
    ensures { result ≡ is_letter b }
{
    b.is_ascii_alphabetic()
}

fn is_digit(b: u8) -> bool
    ensures { result ≡ is_digit b }
{
    b.is_ascii_digit()
}

/// Whether the value has its form, where it is a name or a word.
#[tactic(auto, unfolding(crate::specs::Tests::is_formed))]
pub(crate) fn is_formed(kind: Kind, value: &Value) -> bool
    ensures { result ≡ is_formed kind (view value.now) }
{
    match kind {
        Kind::Name | Kind::TypeName | Kind::InverseName => is_name(text_in(value).as_bytes()),
        Kind::Word => is_word(text_in(value).as_bytes()),
        _ => true,
    }
}
