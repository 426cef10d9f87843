//! What the types of a problem are and have, for any numbers. A number that is no type is under
//! none, and has nothing.
ghost use Rattle.std.specs.Prelude.{◌≡◌};
ghost use Rattle.std.specs.Option.{option_copied};
ghost use Rattle.prod_model.specs.Forest.{is_a};
ghost use Rattle.prod_model.specs.Taxonomy.{attributes_at, ports_at};

use prod_model::{AttrAt, PortAt, Problem};

/// Whether the type is the type `of` or under it.
#[tactic(auto, using(prod_model::proofs::NoTypes::is_a_outside))]
pub(crate) fn is_under(problem: &Problem, kind: u32, of: u32) -> bool
    ensures { result ≡ is_a problem.now kind of }
{
    let model = problem.model();
    model.is_type(kind) && model.is_type(of) && problem.is_a(kind, of)
}

/// The attributes of a type.
#[tactic(auto, using(prod_model::proofs::NoTypes::no_attributes))]
pub(crate) fn attributes_of(problem: &Problem, kind: u32) -> &[AttrAt]
    ensures { result.now ≡ attributes_at problem.now kind }
{
    if problem.model().is_type(kind) {
        problem.attrs_of(kind)
    } else {
        &[]
    }
}

/// The ports of a type.
#[tactic(auto, using(prod_model::proofs::NoTypes::no_ports))]
pub(crate) fn ports_of(problem: &Problem, kind: u32) -> &[PortAt]
    ensures { result.now ≡ ports_at problem.now kind }
{
    if problem.model().is_type(kind) {
        problem.ports_of(kind)
    } else {
        &[]
    }
}
