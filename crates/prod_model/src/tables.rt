//! What a type has under an id, by the rows of the tables.
ghost use Rattle.std.specs.Prelude.{◌≡◌, ◌==◌, [], unwrap_or, slice_get, IsTrue, IsSome};
ghost use Rattle.std.specs.List.{find};
ghost use Rattle.std.specs.Option.{option_copied, option_map, option_map_or};
ghost use Rattle.prod_model.specs.Forest.{is_forest};
ghost use Rattle.prod_model.specs.Taxonomy.{AreTablesOf, attribute_of as attribute_at, declared_port_of, without_inverse, first_words as words_at, words_of};

use crate::model::{AttrAt, Model, PortAt, Tables};
use crate::name::Name;
use sqlite_items::Items;

impl Tables {
    /// The attribute that type `t` has under the id. A number that is no type has nothing.
    #[tactic(auto, using(crate::proofs::Rows::attributes_row))]
    pub fn attribute_of<'a>(&'a self, model: &Model, t: u32, id: u32) -> Option<&'a AttrAt>
        requires { AreTablesOf model.now self.now }
        ensures { option_copied result ≡ attribute_at model.now t id }
    {
        find_attribute(row(self.attributes.as_slice(), t), id)
    }

    /// The port that type `t` has under the id, as it is declared: its inverse isn't told. A number
    /// that is no type has nothing.
    pub fn port_of(&self, model: &Model, t: u32, id: u32) -> Option<PortAt>
        requires { AreTablesOf model.now self.now }
        ensures { result ≡ declared_port_of model.now t id }
    {
        bare(find_port(row(self.ports.as_slice(), t), id))
    }

    /// The words of the first declaration of an attribute that type `t` has, and none where it is
    /// a range. The first type on the way up whose parent has not the attribute has it as it was
    /// declared first.
    pub fn first_words<'a>(&'a self, model: &Model, t: u32, id: u32) -> &'a [Name]
        requires forest { IsTrue (is_forest model.now) }
        requires tables { AreTablesOf model.now self.now }
        requires known { IsSome (attribute_at model.now t id) }
        ensures { result.now ≡ words_at model.now id }
    {
        let Some(parent) = model.parent_of(t) else {
            return own_words(self, model, t, id);
        };
        match self.attribute_of(model, parent, id) {
            Some(_) => self.first_words(model, parent, id),
            None => own_words(self, model, t, id),
        }
    }
}

/// The words of an attribute at the type, which may narrow it.
fn own_words<'a>(tables: &'a Tables, model: &Model, t: u32, id: u32) -> &'a [Name]
    requires { AreTablesOf model.now tables.now }
    ensures { result.now ≡ option_map_or (λ a. words_of a.domain) (attribute_at model.now t id) [] }
{
    match tables.attribute_of(model, t, id) {
        Some(attribute) => attribute.domain.words(),
        None => &[],
    }
}

/// The port without its inverse.
fn bare(port: Option<&PortAt>) -> Option<PortAt>
    ensures { result ≡ option_map without_inverse (option_copied port.entry) }
{
    Some(PortAt {
        inverse: None,
        ..*port?
    })
}

fn find_attribute(row: &[AttrAt], id: u32) -> Option<&AttrAt>
    ensures { option_copied result ≡ find (λ a. a.id == id) row.now }
{
    row.iter().find(|a| a.id == id)
}

pub(crate) fn find_port(row: &[PortAt], id: u32) -> Option<&PortAt>
    ensures { option_copied result ≡ find (λ p. p.id == id) row.now }
{
    row.iter().find(|p| p.id == id)
}

/// A row, and an empty one where there is none.
pub(crate) fn row<T>(rows: &[Items<T>], at: u32) -> &[T]
    ensures { result.now ≡ unwrap_or (slice_get rows.now at) [] }
{
    match rows.get(at as usize) {
        Some(row) => row.as_slice(),
        None => &[],
    }
}
