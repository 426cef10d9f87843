//! The tables of a model's taxonomy, or its first fault.
ghost use Rattle.std.specs.Prelude.{◌≡◌, ◌<◌, ◌^◌, length, sum_by, IfOk, IfErr, IsTrue};
ghost use Rattle.prod_model.specs.Taxonomy.{declared_tables_of};
ghost use Rattle.prod_model.specs.Valid.{IsFormed, IsTaxonomy, has_distinct_names};
ghost use Rattle.type_taxonomy.specs.Faults.{Faults};
ghost use Rattle.type_taxonomy.specs.steps.TypeForest.{IsForest};

use crate::circle::first_in_circle;
use crate::fault::TaxFault;
use crate::forest::forest_of;
use crate::known::first_unknown;
use crate::line::all_lines;
use crate::room::first_crowded;
use crate::tables::tables_of;
use crate::widening::first_widening;
use prod_model::{Model, Tables};
use std::alloc::Global;

/// The tables of a model's taxonomy: what each type has of attributes and ports, without the
/// inverses of ports, which come by `inverses`. Otherwise its first fault, in this order:
/// `UnknownParent`, `Cycle`, `Widening`, `Crowded`; among those of one variant by type, and then by
/// place, attributes before ports. Or `Memory`, where memory runs out.
///
/// A declaration widens where it is no narrowing of that of the nearest ancestor that declares its
/// name.
///
/// Names are looked up, and not compared one by one. For each type the declarations of its
/// ancestors are gone over twice, to tell which of its own are new and which of them widen, and
/// each of its own takes three look-ups of its name. Its row of the tables is made once, after its
/// parent's, and takes a look-up for each inherited entry. So the whole is linear in the types and
/// what they declare, inherited entries included, times the depth of the forest. Words are compared
/// with those that they narrow, 64 with 64 at most.
pub fn build(alloc: Global, model: &Model) -> Result<Tables, TaxFault>
    requires { IsFormed model.now }
    ensures tables { IfOk result (λ tables. tables ≡ declared_tables_of model.now) }
    ensures taxonomy { IfOk result (λ _. IsTaxonomy model.now) }
    ensures fault { IfErr result (λ e. Faults model.now e) }
{
    build_few(alloc, model)
}

/// The same for a model of which only the numbers of types and declarations are known to be small.
/// Where a type has a name twice, which is no fault here, the tables need not be those of a
/// taxonomy.
pub(crate) fn build_few(alloc: Global, model: &Model) -> Result<Tables, TaxFault>
    requires few { length model.now.types < 1000 }
    requires few_attributes { sum_by (λ d. length d.attributes) model.now.types < 2 ^ 32 }
    requires few_ports { sum_by (λ d. length d.ports) model.now.types < 2 ^ 32 }
    ensures tables { IfOk result (λ tables. tables ≡ declared_tables_of model.now) }
    ensures taxonomy { IfOk result
        (λ _. IsTrue (has_distinct_names model.now) → IsTaxonomy model.now) }
    ensures forest { IfOk result (λ _. IsForest model.now.types) }
    ensures fault { IfErr result (λ e. Faults model.now e) }
{
    if let Some(kind) = first_unknown(model) {
        return Err(TaxFault::UnknownParent { kind });
    }
    let lines = all_lines(alloc, model.types.as_slice())?;
    if let Some(kind) = first_in_circle(model, lines.as_slice()) {
        return Err(TaxFault::Cycle { kind });
    }
    let forest = forest_of(alloc, model, lines)?;
    if let Some(fault) = first_widening(alloc, &forest)? {
        return Err(fault);
    }
    if let Some(kind) = first_crowded(&forest) {
        return Err(TaxFault::Crowded { kind });
    }
    Ok(tables_of(alloc, &forest)?)
}
