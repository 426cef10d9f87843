//! Values that are not in their domains.
ghost use Rattle.std.specs.Prelude.{◌≡◌, ◌<◌, IsTrue, IsSome, length};
ghost use Rattle.std.specs.List.{list_any};
ghost use Rattle.std.specs.Option.{option_map_or, option_copied};
ghost use Rattle.prod_model.specs.declared.model.Domain.TheVariants.{Words};
ghost use Rattle.prod_model.specs.Names.{same_text};
ghost use Rattle.prod_model.specs.Taxonomy.{attribute_of, first_words};
ghost use Rattle.prod_model.specs.Valid.{IsValid};
ghost use Rattle.config_value.specs.Shaped.{is_in, has_value};
ghost use Rattle.config_value.specs.Spelled.{is_spelled};
ghost use Rattle.answer_check.specs.Codes.{bad_value_code};
ghost use Rattle.answer_check.specs.steps.Finds.{BreaksAt, FindsItem, FindsPlace};

use crate::place::Place;
use crate::types::attributes_of;
use config_value::Configuration;
use prod_model::{AttrAt, Domain, Name, Problem};

/// The first value that is not in its attribute's domain. One pass over all values; at each one
/// that stands for a word, a walk along the line of its instance's type finds the words of the
/// first declaration.
pub(crate) fn bad_value(problem: &Problem, c: &Configuration) -> Option<Place>
    requires valid { IsValid problem.now }
    requires spelled { IsTrue (is_spelled problem.now c.now) }
    ensures { FindsPlace (BreaksAt problem.now c.now bad_value_code) result }
{
    for i in 0..c.len() as u32 {
        if let Some(item) = bad_value_of(problem, c, i) {
            return Some(Place { instance: i, item });
        }
    }
    None
}

fn bad_value_of(problem: &Problem, c: &Configuration, i: u32) -> Option<u32>
    requires valid { IsValid problem.now }
    requires spelled { IsTrue (is_spelled problem.now c.now) }
    requires instance { i < length c.now }
    ensures { FindsItem (BreaksAt problem.now c.now bad_value_code i) result }
{
    let instance = c.get(i);
    let attributes = attributes_of(problem, instance.kind);
    let values = instance.values.as_slice();
    for k in 0..attributes.len() {
        if !has_value(problem, instance.kind, &attributes[k], values[k]) {
            return Some(k as u32);
        }
    }
    None
}

/// Whether a value is in the domain of an attribute that the type has.
fn has_value(problem: &Problem, kind: u32, attribute: &AttrAt, value: i64) -> bool
    requires valid { IsValid problem.now }
    requires known { IsSome (attribute_of problem.now kind attribute.now.id) }
    ensures { result ≡ has_value problem.now attribute.now value }
{
    match &attribute.domain {
        Domain::Range { low, high } => *low <= value && value <= *high,
        Domain::Words(words) => has_word(
            words.as_slice(),
            problem.first_words(kind, attribute.id),
            value,
        ),
    }
}

/// Whether the value is the place of one of the words in the first declaration.
fn has_word(words: &[Name], first: &[Name], value: i64) -> bool
    ensures { result ≡ is_in (Words words.now) first.now value }
{
    let Ok(place) = usize::try_from(value) else {
        return false;
    };
    match sqlite_items::at(first, place) {
        Some(word) => has_text(words, word),
        None => false,
    }
}

fn has_text(words: &[Name], word: &Name) -> bool
    ensures { result ≡ list_any (same_text word.now) words.now }
{
    words.iter().any(|other| word.bytes() == other.bytes())
}
