//! Short lists.
ghost use Rattle.std.specs.Prelude.{◌≡◌, [], ◌∷◌, IfOk};

use prod_model::Items;
use std::alloc::{AllocError, Global};

/// A list of one.
pub fn one<T: Drop>(alloc: Global, only: T) -> Result<Items<T>, AllocError>
    ensures { IfOk result (λ list. list ≡ only ∷ []) }
{
    let mut list = Items::new(alloc);
    list.push(only)?;
    Ok(list)
}

/// A list of two.
pub fn two<T: Drop>(alloc: Global, first: T, second: T) -> Result<Items<T>, AllocError>
    ensures { IfOk result (λ list. list ≡ first ∷ second ∷ []) }
{
    let mut list = Items::new(alloc);
    list.push(first)?;
    list.push(second)?;
    Ok(list)
}
