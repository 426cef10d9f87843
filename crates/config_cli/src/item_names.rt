//! The names of the items at which a configuration breaks a test.
ghost use Rattle.std.specs.Prelude.{◌≡◌, map, slice_get, unwrap_or};
ghost use Rattle.std.specs.Option.{option_map};
ghost use Rattle.canonical_form.specs.AnswerText.{type_name};
ghost use Rattle.config_cli.specs.CheckTexts.{is_of_port, item_name, kind_at, no_name};

use crate::names::{attribute_name, port_name};
use answer_check::codes;
use config_value::Configuration;
use prod_model::{Model, Problem};

/// The name of the item of a broken test, by the number of the test: of an attribute or of a port
/// of the instance, of a type whose instances are counted, or of a rule. It is `-` where the test
/// has none.
#[tactic(auto, unfolding(crate::specs::CheckTexts::item_name))]
pub fn item_name<'a>(
    problem: &'a Problem,
    c: &Configuration,
    code: u32,
    instance: u32,
    item: u32,
) -> &'a [u8]
    ensures { result.now ≡ item_name problem.now c.now
        (record { code = code; instance = instance; item = item }) }
{
    let place = item as usize;
    if code == codes::BAD_VALUE {
        or_none(attribute_name(problem, kind_at(c, instance), place))
    } else if is_of_port(code) {
        or_none(port_name(problem, kind_at(c, instance), place))
    } else if code == codes::BAD_COUNT {
        or_none(counted_name(problem.model(), place))
    } else if code == codes::FALSE_RULE {
        or_none(rule_name(problem.model(), place))
    } else {
        b"-"
    }
}

/// The name, and `-` where there is none.
fn or_none(name: Option<&[u8]>) -> &[u8]
    ensures { result.now ≡ unwrap_or (option_map (λ name. name.now) name.entry) no_name }
{
    match name {
        Some(name) => name,
        None => b"-",
    }
}

/// Whether the item of the test is a port of the instance.
fn is_of_port(code: u32) -> bool
    ensures { result ≡ is_of_port code }
{
    code == codes::NO_INSTANCE
        || code == codes::OFF_TARGET
        || code == codes::BAD_NUMBER
        || code == codes::NOT_LINKED_BACK
}

/// The type of an instance. It is meant for instances that are there, and is 0 for any other.
fn kind_at(c: &Configuration, i: u32) -> u32
    ensures { result ≡ kind_at c.now i }
{
    if (i as usize) < c.len() {
        c.get(i).kind
    } else {
        0
    }
}

/// The name of the type that an entry of `bounds` counts.
fn counted_name(model: &Model, place: usize) -> Option<&[u8]>
    ensures { option_map (λ name. name.now) result
        ≡ slice_get (map (λ n. type_name model.now n.kind) model.now.bounds) place }
{
    let bound = model.bounds.get(place)?;
    Some(type_name(model, bound.kind))
}

fn type_name(model: &Model, t: u32) -> &[u8]
    ensures { result.now ≡ type_name model.now t }
{
    match model.types.get(t as usize) {
        Some(kind) => kind.name.bytes(),
        None => b"",
    }
}

fn rule_name(model: &Model, place: usize) -> Option<&[u8]>
    ensures { option_map (λ name. name.now) result
        ≡ slice_get (map (λ r. r.name) model.now.rules) place }
{
    let rule = model.rules.get(place)?;
    Some(rule.name.bytes())
}
