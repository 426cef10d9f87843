//! What is new in each type.
ghost use Rattle.std.specs.Prelude.{◌≡◌, ◌<◌, ◌+◌, ◌^◌, length, map, sum_by, drop, IfOk};
ghost use Rattle.std.specs.List.{filter};
ghost use Rattle.type_taxonomy.specs.steps.Entries.{named, is_new_among, numbered, AreLines, AreNew};

use crate::above::names_above;
use crate::by_name::is_free;
use crate::entry::Entry;
use prod_model::{Declaration, Items, TypeDecl};
use std::alloc::{AllocError, Global};

/// What is new in each type, numbered in file order. For each type the declarations of its
/// ancestors are gone over once, and each of its own takes a look-up of its name.
pub(crate) fn all_new<'a, D: Declaration>(
    alloc: Global,
    types: &'a [TypeDecl],
    lines: &[Items<u32>],
) -> Result<Items<Items<Entry<'a, D>>>, AllocError>
    requires lines { AreLines types.now lines.now }
    requires few { sum_by (λ d. length (D.declared d)) types.now < 2 ^ 32 }
    ensures { IfOk result (AreNew D.declared D.name_of types.now) }
{
    let mut rows = Items::new(alloc);
    let mut next = 0;
    for t in 0..types.len() {
        let row = new_in(alloc, types, &types[t], lines[t].as_slice(), next)?;
        next = id_after(next, row.len());
        rows.push(row)?;
    }
    Ok(rows)
}

/// The id that comes after so many, from this one on.
fn id_after(id: u32, entries: usize) -> u32
    requires { id + entries < 2 ^ 32 }
    ensures { result ≡ id + entries }
{
    id + entries as u32
}

/// What is new in a type with this line, from this id on.
fn new_in<'a, D: Declaration>(
    alloc: Global,
    types: &[TypeDecl],
    decl: &'a TypeDecl,
    line: &[u32],
    first_id: u32,
) -> Result<Items<Entry<'a, D>>, AllocError>
    requires { first_id + length (D.declared decl.now) < 2 ^ 32 }
    ensures { IfOk result (λ row. map (named D.name_of) row
        ≡ numbered D.declared D.name_of first_id
        (filter (is_new_among D.declared D.name_of types.now (drop 1 line.now))
        (D.declared decl.now))) }
{
    let above = names_above::<D>(alloc, types, line)?;
    let mut row = Items::new(alloc);
    for declared in D::all_of(decl) {
        if is_free(&above, declared.name()) {
            let id = first_id + row.len() as u32;
            row.push(Entry { id, declared })?;
        }
    }
    Ok(row)
}
