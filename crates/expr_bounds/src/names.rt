//! The names and words of a form that are not known.
ghost use Rattle.std.specs.Prelude.{◌≡◌, slice_get, length, IsSome};
ghost use Rattle.prod_model.specs.declared.expr.Expr.TheViews.{out-Expr};
ghost use Rattle.prod_model.specs.Taxonomy.{AreTablesOf, attribute_of as attribute_at};
ghost use Rattle.prod_model.specs.Valid.{IsDeclared};
ghost use Rattle.prod_model.specs.ExprBounds.{is_word_of};
ghost use Rattle.expr_bounds.specs.Faults.{place_unless, unknown_names, is_known_word, has_range as has_range_in};

use prod_model::{AttrAt, Domain, Expr, Model, Tables};

/// The place of the first name or word of a form that is not allowed there.
pub(crate) fn unknown_name(model: &Model, tables: &Tables, form: &Expr, at: u32) -> Option<u32>
    requires declared { IsDeclared model.now }
    requires tables { AreTablesOf model.now tables.now }
    ensures { result ≡ slice_get (unknown_names model.now (out-Expr form.now) at) 0 }
{
    match form {
        Expr::Attr(a) => unless(tables.attribute_of(model, at, *a).is_some(), 1),
        Expr::Count(p) | Expr::All(p, _) | Expr::Any(p, _) => {
            unless(tables.port_of(model, at, *p).is_some(), 1)
        }
        Expr::CountOf(p, kind) => {
            if tables.port_of(model, at, *p).is_none() {
                return Some(1);
            }
            unless(model.is_type(*kind), 2)
        }
        Expr::Sum(p, a) => match tables.port_of(model, at, *p) {
            Some(port) => unless(tables.attribute_of(model, port.target, *a).is_some(), 2),
            None => Some(1),
        },
        Expr::Total(kind, a) => {
            if !model.is_type(*kind) {
                return Some(1);
            }
            unless(tables.attribute_of(model, *kind, *a).is_some(), 2)
        }
        Expr::Number(kind) | Expr::Kind(kind) => unless(model.is_type(*kind), 1),
        Expr::Is(a, word) => match tables.attribute_of(model, at, *a) {
            Some(attribute) => unless(is_known(model, tables, at, attribute, *word), 2),
            None => Some(1),
        },
        _ => None,
    }
}

/// The place, provided that the name there is not known.
fn unless(known: bool, place: u32) -> Option<u32>
    ensures { result ≡ slice_get (place_unless known place) 0 }
{
    if known { None } else { Some(place) }
}

/// Whether an attribute of a type has the word, also where the type narrows it away. It is not
/// tested of a range.
fn is_known(model: &Model, tables: &Tables, at: u32, attribute: &AttrAt, word: u32) -> bool
    requires declared { IsDeclared model.now }
    requires tables { AreTablesOf model.now tables.now }
    requires has { attribute_at model.now at attribute.now.id ≡ Some attribute.now }
    ensures { result ≡ is_known_word model.now word attribute.now }
{
    has_range(attribute) || has_word(model, tables, at, attribute, word)
}

/// Whether an attribute of a type has words, and this is one of its first declaration, also where
/// the type narrows it away.
pub(crate) fn has_word(
    model: &Model,
    tables: &Tables,
    at: u32,
    attribute: &AttrAt,
    word: u32,
) -> bool
    requires declared { IsDeclared model.now }
    requires tables { AreTablesOf model.now tables.now }
    requires has { attribute_at model.now at attribute.now.id ≡ Some attribute.now }
    ensures { result ≡ is_word_of model.now word attribute.now }
{
    match attribute.domain {
        Domain::Range { .. } => false,
        Domain::Words(_) => (word as usize) < tables.first_words(model, at, attribute.id).len(),
    }
}

/// Whether the attribute has a range. The others have words.
pub(crate) fn has_range(attribute: &AttrAt) -> bool
    ensures { result ≡ has_range_in attribute.now }
{
    matches!(attribute.domain, Domain::Range { .. })
}
