//! Whether a declaration narrows the nearest one of its name.
ghost use Rattle.std.specs.Prelude.{◌≡◌, nat_lt, false};
ghost use Rattle.std.specs.Option.{option_map_or};
ghost use Rattle.std.specs.List.{list_any, list_all};
ghost use Rattle.prod_model.specs.Forest.{is_a};
ghost use Rattle.prod_model.specs.Names.{same_text};
ghost use Rattle.prod_model.specs.Valid.{narrows_domain};
ghost use Rattle.type_taxonomy.specs.steps.Above.{attribute_passes, port_passes};
ghost use Rattle.type_taxonomy.specs.steps.Built.{IsBuilt};
ghost use Rattle.type_taxonomy.specs.steps.ByName.{found};
ghost use Rattle.type_taxonomy.specs.steps.NearestTests.{lies_within};

use crate::above::Above;
use crate::by_name::{Found, is_free, look_up};
use crate::forest::Forest;
use crate::line::is_in;
use indexmap::IndexMap;
use prod_model::{AttrDecl, Domain, Name, PortDecl};

fn has_word(words: &[Name], word: &Name) -> bool
    ensures { result ≡ list_any (same_text word.now) words.now }
{
    words.iter().any(|w| word.bytes() == w.bytes())
}

/// Whether all of some words are among the words. Each is compared with one after another, which in
/// a formed model takes 64 times 64 comparisons at most.
fn has_words(words: &[Name], some: &[Name]) -> bool
    ensures { result ≡ list_all (λ w. list_any (same_text w) words.now) some.now }
{
    some.iter().all(|w| has_word(words, w))
}

fn narrows_domain(domain: &Domain, wide: &Domain) -> bool
    ensures { result ≡ narrows_domain domain.now wide.now }
{
    match (domain, wide) {
        (
            Domain::Range { low, high },
            Domain::Range {
                low: wide_low,
                high: wide_high,
            },
        ) => wide_low <= low && high <= wide_high,
        (Domain::Words(words), Domain::Words(wide)) => {
            has_words(wide.as_slice(), words.as_slice())
        }
        _ => false,
    }
}

fn is_a(forest: &Forest, t: u32, u: u32) -> bool
    requires { IsBuilt forest.now }
    ensures { result ≡ is_a forest.now.model.now t u }
{
    match forest.lines.get(t as usize) {
        Some(line) => is_in(line.as_slice(), u),
        None => false,
    }
}

/// Whether the port is of the kind of the wide one, with its pair within that one's and its target
/// under that one's.
fn narrows_port(forest: &Forest, port: &PortDecl, wide: &PortDecl) -> bool
    requires { IsBuilt forest.now }
    ensures { result ≡ lies_within forest.now.model.now port.now wide.now }
{
    port.kind == wide.kind
        && wide.low <= port.low
        && port.high <= wide.high
        && is_a(forest, port.target, wide.target)
}

/// Whether the name is declared nearer than at this height.
fn is_nearer<D>(names: &IndexMap<&[u8], Found<D>>, name: &Name, height: usize) -> bool
    ensures { result ≡ option_map_or (λ f. nat_lt height f.0) (found names.now name.now) false }
{
    match look_up(names, name) {
        Some(nearest) => height < nearest.height,
        None => false,
    }
}

/// Whether the nearest declaration of the attribute's name, if there is one, is an attribute, whose
/// domain the attribute's lies within.
#[tactic(auto, unfolding(crate::specs::steps::Above::attribute_passes))]
pub(crate) fn attribute_narrows(above: &Above, attribute: &AttrDecl) -> bool
    ensures { result ≡ attribute_passes above.now attribute.now }
{
    let name = &attribute.name;
    match look_up(&above.attributes, name) {
        Some(wide) => {
            narrows_domain(&attribute.domain, &wide.declared.domain)
                && !is_nearer(&above.ports, name, wide.height)
        }
        None => is_free(&above.ports, name),
    }
}

/// Whether the nearest declaration of the port's name, if there is one, is a port that this one
/// narrows.
#[tactic(auto, unfolding(crate::specs::steps::Above::port_passes))]
pub(crate) fn port_narrows(forest: &Forest, above: &Above, port: &PortDecl) -> bool
    requires { IsBuilt forest.now }
    ensures { result ≡ port_passes forest.now.model.now above.now port.now }
{
    let name = &port.name;
    match look_up(&above.ports, name) {
        Some(wide) => {
            narrows_port(forest, port, wide.declared)
                && !is_nearer(&above.attributes, name, wide.height)
        }
        None => is_free(&above.attributes, name),
    }
}
