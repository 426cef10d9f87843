//! Whether parents and targets of ports are types.
ghost use Rattle.std.specs.Prelude.{◌≡◌, ◌<◌, ◌^◌, length, slice_get, true};
ghost use Rattle.std.specs.Option.{option_map_or};
ghost use Rattle.std.specs.List.{list_all};
ghost use Rattle.prod_model.specs.Forest.{is_type};
ghost use Rattle.prod_model.specs.Valid.{knows_types};
ghost use Rattle.type_taxonomy.specs.steps.FirstFailing.{IsFirstFailing};

use prod_model::{Model, PortDecl, TypeDecl};

/// The first type whose parent, or the target of one of its ports, is no type's number. It takes
/// one step a declaration.
pub(crate) fn first_unknown(model: &Model) -> Option<u32>
    requires { length model.now.types < 2 ^ 32 }
    ensures { IsFirstFailing
        (λ t. option_map_or (knows_types model.now) (slice_get model.now.types t) true)
        (length model.now.types) result }
{
    let types = model.types.as_slice();
    for t in 0..types.len() {
        if !knows_types(model, &types[t]) {
            return Some(t as u32);
        }
    }
    None
}

fn knows_parent(model: &Model, decl: &TypeDecl) -> bool
    ensures { result ≡ option_map_or (is_type model.now) decl.now.parent true }
{
    match decl.parent {
        Some(parent) => model.is_type(parent),
        None => true,
    }
}

fn knows_targets(model: &Model, ports: &[PortDecl]) -> bool
    ensures { result ≡ list_all (λ p. is_type model.now p.target) ports.now }
{
    ports.iter().all(|p| model.is_type(p.target))
}

fn knows_types(model: &Model, decl: &TypeDecl) -> bool
    ensures { result ≡ knows_types model.now decl.now }
{
    knows_parent(model, decl) && knows_targets(model, decl.ports.as_slice())
}
