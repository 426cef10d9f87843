//! What each type has, inherited entries included.
ghost use Rattle.std.specs.Prelude.{◌≡◌, ◌<◌, ◌+◌, ◌++◌, [], length, map, slice_index_or, IfSome, IfOk, OnOk};
ghost use Rattle.std.specs.Option.{option_map_or};
ghost use Rattle.prod_model.specs.Forest.{line};
ghost use Rattle.type_taxonomy.specs.steps.ByName.{found};
ghost use Rattle.type_taxonomy.specs.steps.Entries.{named, narrowed_by, AreLines, AreNew, AreRows};
ghost use Rattle.type_taxonomy.specs.steps.TypeForest.{IsForest, HasRows};

use crate::by_name::{Found, look_up, names_of};
use crate::entry::Entry;
use crate::line::depth;
use indexmap::IndexMap;
use prod_model::{Declaration, Items, TypeDecl};
use std::alloc::{AllocError, Global};

/// An inherited entry, narrowed where one of the declarations has its name.
fn kept<'a, D: Declaration>(
    declared: &IndexMap<&'a [u8], Found<'a, D>>,
    inherited: &Entry<'a, D>,
) -> Entry<'a, D>
    ensures id { result.id ≡ inherited.now.id }
    ensures declared { result.declared.now
        ≡ option_map_or (λ f. f.1) (found declared.now (D.name_of inherited.now.declared.now))
        inherited.now.declared.now }
{
    match look_up(declared, inherited.declared.name()) {
        Some(found) => Entry {
            id: inherited.id,
            declared: found.declared,
        },
        None => Entry {
            id: inherited.id,
            declared: inherited.declared,
        },
    }
}

/// What is inherited, narrowed. The declarations of the type are gone over once, and each entry
/// takes a look-up of its name.
fn narrowed<'a, D: Declaration>(
    alloc: Global,
    decl: &'a TypeDecl,
    inherited: &[Entry<'a, D>],
) -> Result<Items<Entry<'a, D>>, AllocError>
    ensures { IfOk result (λ row. map (named D.name_of) row
        ≡ narrowed_by D.declared D.name_of (D.declared decl.now)
        (map (named D.name_of) inherited.now)) }
{
    let declared = names_of(alloc, D::all_of(decl))?;
    let mut row = Items::new(alloc);
    for e in inherited {
        row.push(kept(&declared, e))?;
    }
    Ok(row)
}

/// What a type has: the row of its parent, narrowed, and then what is new.
fn row_of<'a, D: Declaration>(
    alloc: Global,
    decl: &'a TypeDecl,
    rows: &[Items<Entry<'a, D>>],
    new: &[Entry<'a, D>],
) -> Result<Items<Entry<'a, D>>, AllocError>
    requires { IfSome decl.now.parent (λ p. p < length rows.now) }
    ensures { IfOk result (λ row. map (named D.name_of) row
        ≡ narrowed_by D.declared D.name_of (D.declared decl.now)
        (option_map_or (λ p. map (named D.name_of) (slice_index_or rows.now p []))
        decl.now.parent [])
        ++ map (named D.name_of) new.now) }
{
    let mut row = match decl.parent {
        Some(parent) => narrowed(alloc, decl, rows[parent as usize].as_slice())?,
        None => Items::new(alloc),
    };
    push_all(&mut row, new)?;
    Ok(row)
}

fn push_all<'a, D>(row: &mut Items<Entry<'a, D>>, new: &[Entry<'a, D>]) -> Result<(), AllocError>
    ensures { OnOk result (row.new ≡ row.old ++ new.now) }
{
    for e in new {
        row.push(Entry {
            id: e.id,
            declared: e.declared,
        })?;
    }
    Ok(())
}

/// Fills the rows of the types whose lines have so many members, where those of shorter lines are
/// filled.
fn fill<'a, D: Declaration>(
    alloc: Global,
    types: &'a [TypeDecl],
    lines: &[Items<u32>],
    new: &[Items<Entry<'a, D>>],
    members: usize,
    rows: &mut Items<Items<Entry<'a, D>>>,
) -> Result<(), AllocError>
    requires forest { IsForest types.now }
    requires lines { AreLines types.now lines.now }
    requires new { AreNew D.declared D.name_of types.now new.now }
    requires shorter { HasRows D.declared D.name_of types.now
        (λ t. length (line types.now t) < members) rows.old }
    ensures { OnOk result (HasRows D.declared D.name_of types.now
        (λ t. length (line types.now t) < members + 1) rows.new) }
{
    for t in 0..types.len() {
        if lines[t].len() == members {
            let row = row_of(alloc, &types[t], rows.as_slice(), new[t].as_slice())?;
            rows.set(t, row);
        }
    }
    Ok(())
}

/// A row for each type, with nothing in it.
fn empty_rows<'a, D>(alloc: Global, number: usize) -> Result<Items<Items<Entry<'a, D>>>, AllocError>
    ensures { IfOk result (λ rows. length rows ≡ number) }
{
    let mut rows = Items::new(alloc);
    for _ in 0..number {
        rows.push(Items::new(alloc))?;
    }
    Ok(rows)
}

/// What each type has. A type comes after its parent, whose line is shorter by one, so each row is
/// made once: it takes one step for each declaration of its type and a look-up for each entry that
/// is inherited. To find the types of each length of a line, all are gone over as often as the
/// forest is deep.
pub(crate) fn all_rows<'a, D: Declaration>(
    alloc: Global,
    types: &'a [TypeDecl],
    lines: &[Items<u32>],
    new: &[Items<Entry<'a, D>>],
) -> Result<Items<Items<Entry<'a, D>>>, AllocError>
    requires forest { IsForest types.now }
    requires lines { AreLines types.now lines.now }
    requires new { AreNew D.declared D.name_of types.now new.now }
    ensures { IfOk result (AreRows D.declared D.name_of types.now) }
{
    let mut rows = empty_rows(alloc, types.len())?;
    for members in 0..=depth(lines) {
        fill(alloc, types, lines, new, members, &mut rows)?;
    }
    Ok(rows)
}
