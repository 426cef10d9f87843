//! Declarations by name.
ghost use Rattle.std.specs.Prelude.{◌≡◌, ℕ, List, cond, is_none, Some, IfOk, OnOk};
ghost use Rattle.std.specs.Option.{option_map, option_or};
ghost use Rattle.prod_model.specs.Names.{same_text};
ghost use Rattle.type_taxonomy.specs.steps.ByName.{found, found_at};

use indexmap::IndexMap;
use prod_model::{Declaration, Name};
use std::alloc::{AllocError, Global};

/// A declaration, and the number of types on its line from its own upwards.
#[derive(Drop)]
pub(crate) struct Found<'a, D> {
    pub height: usize,
    pub declared: &'a D,
}

/// Puts the declaration under its name, in place of what was there.
fn put<'a, D: Declaration>(
    names: &mut IndexMap<&'a [u8], Found<'a, D>>,
    height: usize,
    declared: &'a D,
) -> Result<(), AllocError>
    ensures { OnOk result ((q : List ℕ) → found names.new q
        ≡ cond (same_text (D.name_of declared.now) q) (Some (height, declared.now))
        (found names.old q)) }
{
    let name = declared.name().bytes();
    let Ok(_) = names.insert(name, Found { height, declared }) else {
        return Err(AllocError);
    };
    Ok(())
}

/// Puts declarations under their names, from the last, so that the first of a name stays. It takes
/// one step each.
pub(crate) fn put_all<'a, D: Declaration>(
    names: &mut IndexMap<&'a [u8], Found<'a, D>>,
    height: usize,
    declared: &'a [D],
) -> Result<(), AllocError>
    ensures { OnOk result ((q : List ℕ) → found names.new q
        ≡ option_or (found_at D.name_of height declared.now q) (found names.old q)) }
{
    let mut left = declared.len();
    while left > 0 {
        left -= 1;
        put(names, height, &declared[left])?;
    }
    Ok(())
}

/// The declarations of a type by name, with the height that they have on a line of this type alone.
pub(crate) fn names_of<'a, D: Declaration>(
    alloc: Global,
    declared: &'a [D],
) -> Result<IndexMap<&'a [u8], Found<'a, D>>, AllocError>
    ensures { IfOk result (λ names. (q : List ℕ) → found names q
        ≡ found_at D.name_of 1 declared.now q) }
{
    let mut names = IndexMap::new(alloc);
    put_all(&mut names, 1, declared)?;
    Ok(names)
}

/// The declaration under the name.
pub(crate) fn look_up<'m, 'a, D>(
    names: &'m IndexMap<&'a [u8], Found<'a, D>>,
    name: &Name,
) -> Option<&'m Found<'a, D>>
    ensures { option_map (λ f. (f.now.height, f.now.declared.now)) result
        ≡ found names.now name.now }
{
    names.get(name.bytes())
}

/// Whether no declaration has the name.
pub(crate) fn is_free<D>(names: &IndexMap<&[u8], Found<D>>, name: &Name) -> bool
    ensures { result ≡ is_none (found names.now name.now) }
{
    look_up(names, name).is_none()
}
