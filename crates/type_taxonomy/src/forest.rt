//! What is known of the types of a model, once they are a forest.
ghost use Rattle.std.specs.Prelude.{◌≡◌, ◌<◌, ◌^◌, length, sum_by, IfOk};
ghost use Rattle.type_taxonomy.specs.steps.Entries.{AreLines};
ghost use Rattle.type_taxonomy.specs.steps.Built.{IsBuilt};
ghost use Rattle.type_taxonomy.specs.steps.TypeForest.{IsForest};

use crate::entry::Entry;
use crate::new_entries::all_new;
use crate::rows::all_rows;
use prod_model::{AttrDecl, Items, Model, PortDecl};
use std::alloc::{AllocError, Global};

/// A model, the line of each type, and what each type has, inherited entries included.
#[derive(Drop)]
pub(crate) struct Forest<'a> {
    pub model: &'a Model,
    pub lines: Items<Items<u32>>,
    pub attributes: Items<Items<Entry<'a, AttrDecl>>>,
    pub ports: Items<Items<Entry<'a, PortDecl>>>,
}

/// The forest of a model, with the lines of its types.
pub(crate) fn forest_of(
    alloc: Global,
    model: &Model,
    lines: Items<Items<u32>>,
) -> Result<Forest, AllocError>
    requires few_attributes { sum_by (λ d. length d.attributes) model.now.types < 2 ^ 32 }
    requires few_ports { sum_by (λ d. length d.ports) model.now.types < 2 ^ 32 }
    requires forest { IsForest model.now.types }
    requires lines { AreLines model.now.types lines }
    ensures built { IfOk result IsBuilt }
    ensures model { IfOk result (λ f. f.model.now ≡ model.now) }
{
    let types = model.types.as_slice();
    let new_attributes = all_new::<AttrDecl>(alloc, types, lines.as_slice())?;
    let attributes = all_rows(alloc, types, lines.as_slice(), new_attributes.as_slice())?;
    let new_ports = all_new::<PortDecl>(alloc, types, lines.as_slice())?;
    let ports = all_rows(alloc, types, lines.as_slice(), new_ports.as_slice())?;
    Ok(Forest {
        model,
        lines,
        attributes,
        ports,
    })
}
