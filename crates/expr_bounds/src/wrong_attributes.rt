//! The attributes of a form that have words where a range is needed, or the reverse.
ghost use Rattle.std.specs.Prelude.{◌≡◌, true, slice_get};
ghost use Rattle.std.specs.Option.{option_copied, option_map_or};
ghost use Rattle.prod_model.specs.declared.expr.Expr.TheViews.{out-Expr};
ghost use Rattle.prod_model.specs.Taxonomy.{AreTablesOf};
ghost use Rattle.expr_bounds.specs.Faults.{place_unless, has_range as has_range_in, has_words as has_words_in, wrong_attributes};

use crate::names::has_range;
use prod_model::{AttrAt, Expr, Model, Tables};

/// The place of a form's attribute that has words where a range is needed, or the reverse.
pub(crate) fn wrong_attribute(model: &Model, tables: &Tables, form: &Expr, at: u32) -> Option<u32>
    requires { AreTablesOf model.now tables.now }
    ensures { result ≡ slice_get (wrong_attributes model.now (out-Expr form.now) at) 0 }
{
    match form {
        Expr::Attr(a) => place_of_words(tables.attribute_of(model, at, *a), 1),
        Expr::Total(kind, a) => place_of_words(tables.attribute_of(model, *kind, *a), 2),
        Expr::Sum(p, a) => {
            let port = tables.port_of(model, at, *p)?;
            place_of_words(tables.attribute_of(model, port.target, *a), 2)
        }
        Expr::Is(a, _) => place_of_range(tables.attribute_of(model, at, *a), 1),
        _ => None,
    }
}

/// The place, provided that the attribute there has words.
fn place_of_words(attribute: Option<&AttrAt>, place: u32) -> Option<u32>
    ensures { result ≡ slice_get
        (place_unless (option_map_or has_range_in (option_copied attribute.entry) true) place) 0 }
{
    if has_range(attribute?) {
        None
    } else {
        Some(place)
    }
}

/// The place, provided that the attribute there has a range.
fn place_of_range(attribute: Option<&AttrAt>, place: u32) -> Option<u32>
    ensures { result ≡ slice_get
        (place_unless (option_map_or has_words_in (option_copied attribute.entry) true) place) 0 }
{
    if has_range(attribute?) {
        Some(place)
    } else {
        None
    }
}
