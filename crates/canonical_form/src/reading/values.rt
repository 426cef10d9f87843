//! Reads the attributes of an instance.
ghost use Rattle.std.specs.Prelude.{◌≡◌, ℕ, ℤ, ◌+◌, ◌^◌, ◌<◌, ◌++◌, List, [], ◌∷◌, length, codes, IsTrue, IfOk, IfErr, IfSome, None};
ghost use Rattle.std.specs.List.{list_all, position};
ghost use Rattle.std.specs.Fmt.{signed_decimal};
ghost use Rattle.prod_model.specs.Limits.{is_within, farthest_end, most_instances};
ghost use Rattle.prod_model.specs.Names.{is_word, same_text};
ghost use Rattle.prod_model.specs.Valid.{IsValid};
ghost use Rattle.prod_model.specs.Taxonomy.{words_of, attributes_of, ports_of};
ghost use Rattle.config_value.specs.Spelled.{is_word_place};
ghost use Rattle.canonical_form.specs.steps.Pieces.{word_piece, value_piece, is_written_value, is_written, attribute_piece};
ghost use Rattle.canonical_form.specs.AnswerParts.{behind_number, behind_word, value_end};
ghost use Rattle.canonical_form.specs.steps.FirstRows.{AreFirsts};
ghost use Rattle.canonical_form.specs.steps.Grammar.{at_members};
ghost use Rattle.canonical_form.specs.steps.Reading.{Takes, TakesNone, AreValues, Refuses, end_of_domain, without_sign};

use super::tokens::{Reach, behind_sign, number_of, split_token};
use crate::fault::{AnswerRefusal, PartCode};
use crate::names::KnownTypes;
use prod_model::limits::FARTHEST_END;
use prod_model::{AttrAt, AttrDecl, Domain, Items, Name};
use std::alloc::Global;

/// The longest front of bytes that is a number with its sign, and the rest.
fn split_signed(bytes: &[u8]) -> (&[u8], &[u8])
    ensures takes { Takes result.0.now behind_number bytes.now result.1.now }
    ensures only { (v : ℤ) (rest : List ℕ) → IsTrue (is_within farthest_end v)
        → Takes (signed_decimal v) behind_number bytes.now rest → signed_decimal v ≡ result.0.now }
{
    let (_, rest) = split_token(Reach::Number, without_sign(bytes));
    bytes.split_at(bytes.len() - rest.len())
}

/// The bytes behind a `-`, or all of them where none is the first.
fn without_sign(bytes: &[u8]) -> &[u8]
    ensures { result.now ≡ without_sign bytes.now }
{
    match bytes.split_first() {
        Some((first, rest)) if *first == b'-' => rest,
        _ => bytes,
    }
}

/// A whole number within a million, and what stands behind it.
fn read_number(bytes: &[u8]) -> Option<(i64, &[u8])>
    ensures found { IfSome result (λ r. IsTrue (is_within farthest_end r.0)
        × Takes (signed_decimal r.0) behind_number bytes.now r.1.now) }
    ensures none { result ≡ None
        → TakesNone signed_decimal (λ v. behind_number) (is_within farthest_end) bytes.now }
{
    let (text, rest) = split_signed(bytes);
    let number = number_of(text)?;
    if !is_within(number) {
        return None;
    }
    Some((number, rest))
}

fn is_within(number: i64) -> bool
    ensures { result ≡ is_within farthest_end number }
{
    -FARTHEST_END <= number && number <= FARTHEST_END
}

/// The place of a word among these, and what stands behind it.
fn read_word<'a>(words: &[Name], bytes: &'a [u8]) -> Option<(i64, &'a [u8])>
    requires formed { IsTrue (list_all is_word words.now) }
    requires few { length words.now < 2 ^ 63 }
    ensures found { IfSome result (λ r. IsTrue (is_word_place (length words.now) r.0)
        × Takes (word_piece words.now r.0) behind_word bytes.now r.1.now) }
    ensures none { result ≡ None → TakesNone (word_piece words.now) (λ v. behind_word)
        (is_word_place (length words.now)) bytes.now }
{
    let (text, rest) = split_token(Reach::Word, bytes);
    let place = place_of(words, text)?;
    Some((place as i64, rest))
}

/// The place of the first word of that text.
fn place_of(words: &[Name], text: &[u8]) -> Option<usize>
    ensures { result ≡ position (λ word. same_text word text.now) words.now }
{
    words.iter().position(|word| word.bytes() == text)
}

/// A value of a domain, and what stands behind it.
fn read_value<'a>(words: &[Name], domain: &Domain, bytes: &'a [u8]) -> Option<(i64, &'a [u8])>
    requires formed { IsTrue (list_all is_word words.now) }
    requires few { length words.now < 2 ^ 63 }
    ensures found { IfSome result (λ r. IsTrue (is_written_value (length words.now) domain.now r.0)
        × Takes (value_piece words.now domain.now r.0) (end_of_domain domain.now)
        bytes.now r.1.now) }
    ensures none { result ≡ None → TakesNone (value_piece words.now domain.now)
        (λ v. end_of_domain domain.now) (is_written_value (length words.now) domain.now) bytes.now }
{
    match domain {
        Domain::Range { .. } => read_number(bytes),
        Domain::Words(_) => read_word(words, bytes),
    }
}

/// The value of an attribute, and what stands behind it.
#[tactic(auto, unfolding(crate::specs::steps::Pieces::attribute_piece))]
fn read_attribute<'a>(first: &AttrDecl, at: &AttrAt, bytes: &'a [u8]) -> Option<(i64, &'a [u8])>
    requires formed { IsTrue (list_all is_word (words_of first.now.domain)) }
    requires few { length (words_of first.now.domain) < 2 ^ 63 }
    ensures found { IfSome result (λ r. IsTrue (is_written (first.now, (at.now, r.0)))
        × Takes (attribute_piece (first.now, (at.now, r.0))) (value_end at.now)
        bytes.now r.1.now) }
    ensures none { result ≡ None → TakesNone (λ v. attribute_piece (first.now, (at.now, v)))
        (λ v. value_end at.now) (λ v. is_written (first.now, (at.now, v))) bytes.now }
{
    let rest = behind_sign(first.name.bytes(), b'=', bytes)?;
    read_value(first.domain.words(), &at.domain, rest)
}

/// Values of all attributes of a type, in the line of an instance, and what stands behind them. It
/// goes once over the attributes. Refused at `Attribute` where one is not there with a value that
/// can be written.
pub fn read_attributes<'a>(
    alloc: Global,
    known: &KnownTypes,
    number: u32,
    kind: u32,
    bytes: &'a [u8],
) -> Result<(Items<i64>, &'a [u8]), AnswerRefusal>
    requires valid { IsValid known.now.problem.now }
    requires typed { kind < length known.now.problem.now.types }
    requires firsts { AreFirsts known.now.problem.now known.now.rows.items }
    requires few { number < most_instances }
    ensures read { IfOk result
        (λ r. AreValues known.now.problem.now number kind bytes.now r.0 r.1.now) }
    ensures refused { IfErr result (Refuses known.now.problem.now
        (at_members number (attributes_of known.now.problem.now.types kind)
        (ports_of known.now.problem.now.types kind)) bytes.now) }
{
    let firsts = &known.rows[kind as usize].attributes;
    let attrs = known.problem.attrs_of(kind);
    let mut values = Items::new(alloc);
    let mut rest = bytes;
    for k in 0..attrs.len() {
        let Some((value, after)) = read_attribute(firsts[k], &attrs[k], rest) else {
            return Err(AnswerRefusal::at(number + 2, PartCode::Attribute));
        };
        values.push(value)?;
        rest = after;
    }
    Ok((values, rest))
}
