//! What the ancestors of a type declare, by name.
ghost use Rattle.std.specs.Prelude.{◌≡◌, ℕ, List, drop, IfOk};
ghost use Rattle.prod_model.specs.Taxonomy.{declarations_of};
ghost use Rattle.type_taxonomy.specs.steps.Above.{found_along, IsAbove};
ghost use Rattle.type_taxonomy.specs.steps.ByName.{found};

use crate::by_name::{Found, put_all};
use indexmap::IndexMap;
use prod_model::{AttrDecl, Declaration, PortDecl, TypeDecl};
use std::alloc::{AllocError, Global};

/// The nearest declarations above a type, by name.
#[derive(Drop)]
pub(crate) struct Above<'a> {
    pub attributes: IndexMap<&'a [u8], Found<'a, AttrDecl>>,
    pub ports: IndexMap<&'a [u8], Found<'a, PortDecl>>,
}

/// The declarations of a type.
pub(crate) fn declared_at<D: Declaration>(types: &[TypeDecl], t: u32) -> &[D]
    ensures { result.now ≡ declarations_of D.declared D.name_of types.now t }
{
    match types.get(t as usize) {
        None => &[],
        Some(d) => D::all_of(d),
    }
}

/// The nearest declarations along a line, from the highest type down.
fn names_along<'a, D: Declaration>(
    alloc: Global,
    types: &'a [TypeDecl],
    line: &[u32],
) -> Result<IndexMap<&'a [u8], Found<'a, D>>, AllocError>
    ensures { IfOk result (λ names. (q : List ℕ) → found names q
        ≡ found_along D.declared D.name_of types.now line.now q) }
{
    let mut names = IndexMap::new(alloc);
    let mut left = line.len();
    while left > 0 {
        left -= 1;
        put_all(
            &mut names,
            line.len() - left,
            declared_at(types, line[left]),
        )?;
    }
    Ok(names)
}

/// The nearest declarations above a type with this line. It takes one step a declaration of an
/// ancestor.
pub(crate) fn names_above<'a, D: Declaration>(
    alloc: Global,
    types: &'a [TypeDecl],
    line: &[u32],
) -> Result<IndexMap<&'a [u8], Found<'a, D>>, AllocError>
    ensures { IfOk result (λ names. (q : List ℕ) → found names q
        ≡ found_along D.declared D.name_of types.now (drop 1 line.now) q) }
{
    match line.split_first() {
        None => names_along(alloc, types, line),
        Some((_, ancestors)) => names_along(alloc, types, ancestors),
    }
}

/// What is declared above a type with this line, of both sorts.
pub(crate) fn declared_above<'a>(
    alloc: Global,
    types: &'a [TypeDecl],
    line: &[u32],
) -> Result<Above<'a>, AllocError>
    ensures { IfOk result (IsAbove types.now (drop 1 line.now)) }
{
    let attributes = names_above(alloc, types, line)?;
    let ports = names_above(alloc, types, line)?;
    Ok(Above { attributes, ports })
}
