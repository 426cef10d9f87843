//! The tables of a model with its names, for looking names up.
ghost use Rattle.std.specs.Prelude.{◌≡◌, map, IfOk, IsTrue, OnOk};
ghost use Rattle.prod_model.specs.Forest.{type_numbers};
ghost use Rattle.prod_model.specs.Names.{is_distinct};
ghost use Rattle.prod_model.specs.Taxonomy.{AreTablesOf};
ghost use Rattle.prod_model.specs.Valid.{IsDeclared};
ghost use Rattle.file_meaning.specs.Named.{AreNamedTablesOf, attribute_names, port_names};

use crate::first_declared::{attribute_names, port_names, put_name};
use file_values::Names;
use prod_model::{Items, Model, Tables, TypeDecl};
use std::alloc::{AllocError, Global};

/// The tables of a declared model, and by an index the names of its types and of the attributes
/// and ports that each of them has. Made once, it serves all expressions of a file: a look-up takes
/// the time of hashing the name.
#[derive(Drop)]
pub struct NamedTables<'m> {
    pub tables: &'m Tables,
    /// The names of the types.
    pub types: Names<'m>,
    /// The names of each type's attributes, in the order of its attributes.
    pub attributes: Items<Names<'m>>,
    /// The names of each type's ports, in the order of its ports.
    pub ports: Items<Names<'m>>,
}

impl<'m> NamedTables<'m> {
    /// The tables of a declared model with its names. It takes time and memory for each name that
    /// a type has, inherited ones included: for at most 128 types with 48 each.
    ///
    /// # Errors
    ///
    /// `AllocError` where memory runs out.
    pub fn of(
        alloc: Global,
        model: &'m Model,
        tables: &'m Tables,
    ) -> Result<NamedTables<'m>, AllocError>
        requires declared { IsDeclared model.now }
        requires tables { AreTablesOf model.now tables.now }
        ensures { IfOk result (λ named. AreNamedTablesOf model.now named) }
    {
        Ok(NamedTables {
            tables,
            types: type_names(alloc, model)?,
            attributes: attribute_rows(alloc, model)?,
            ports: port_rows(alloc, model)?,
        })
    }
}

/// The place as a number of 32 bits. `AllocError` where it doesn't fit them.
pub(crate) fn number_of(place: usize) -> Result<u32, AllocError>
    ensures { IfOk result (λ n. n ≡ place) }
{
    if place > u32::MAX as usize {
        return Err(AllocError);
    }
    Ok(place as u32)
}

/// The names of the types, each once.
#[tactic(auto, using(crate::proofs::TypeNames::type_names_declared))]
fn type_names<'m>(alloc: Global, model: &'m Model) -> Result<Names<'m>, AllocError>
    requires { IsDeclared model.now }
    ensures { IfOk result (λ names. names ≡ map (λ d. d.name) model.now.types) }
{
    let mut names = Names::new(alloc);
    for kind in model.types.as_slice() {
        put_name(&mut names, kind.name.bytes())?;
    }
    Ok(names)
}

/// The names of each type's attributes.
fn attribute_rows<'m>(alloc: Global, model: &'m Model) -> Result<Items<Names<'m>>, AllocError>
    requires { IsDeclared model.now }
    ensures { IfOk result
        (λ rows. rows ≡ map (attribute_names model.now) (type_numbers model.now.types)) }
{
    let mut rows = Items::new(alloc);
    for t in 0..model.types.len() {
        rows.push(attribute_names(alloc, model, number_of(t)?)?)?;
    }
    Ok(rows)
}

/// The names of each type's ports.
fn port_rows<'m>(alloc: Global, model: &'m Model) -> Result<Items<Names<'m>>, AllocError>
    requires { IsDeclared model.now }
    ensures { IfOk result
        (λ rows. rows ≡ map (port_names model.now) (type_numbers model.now.types)) }
{
    let mut rows = Items::new(alloc);
    for t in 0..model.types.len() {
        rows.push(port_names(alloc, model, number_of(t)?)?)?;
    }
    Ok(rows)
}
