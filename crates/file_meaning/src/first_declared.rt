//! The names of a type's attributes and ports.
ghost use Rattle.std.specs.Prelude.{◌≡◌, ℕ, List, [], ◌++◌, map, reverse, IfOk, OnOk};
ghost use Rattle.std.specs.List.{fold};
ghost use Rattle.std.specs.Option.{option_map_or};
ghost use Rattle.prod_model.specs.declared.model.TypeDecl.{TypeDecl};
ghost use Rattle.prod_model.specs.Forest.{line, line_within};
ghost use Rattle.prod_model.specs.Valid.{IsDeclared};
ghost use Rattle.file_meaning.specs.Named.{attribute_names, port_names};
ghost use Rattle.file_meaning.specs.steps.FirstDeclared.{with_new, names_of, first_names};

use file_values::Names;
use prod_model::{AttrDecl, Declaration, Items, Model, PortDecl, TypeDecl};
use std::alloc::{AllocError, Global};

/// The names of a type's attributes, in the order of its attributes. It goes once over the
/// declarations along the type's line.
#[tactic(auto, using(crate::proofs::TypeNames::attribute_names_declared))]
pub(crate) fn attribute_names<'m>(
    alloc: Global,
    model: &'m Model,
    t: u32,
) -> Result<Names<'m>, AllocError>
    requires declared { IsDeclared model.now }
    ensures { IfOk result (λ names. names ≡ attribute_names model.now t) }
{
    first_names::<AttrDecl>(alloc, &model.types, t)
}

/// The names of a type's ports, in the order of its ports. It goes once over the declarations
/// along the type's line.
#[tactic(auto, using(crate::proofs::TypeNames::port_names_declared))]
pub(crate) fn port_names<'m>(
    alloc: Global,
    model: &'m Model,
    t: u32,
) -> Result<Names<'m>, AllocError>
    requires declared { IsDeclared model.now }
    ensures { IfOk result (λ names. names ≡ port_names model.now t) }
{
    first_names::<PortDecl>(alloc, &model.types, t)
}

/// A type and its ancestors, the first of them first.
fn line_down(alloc: Global, types: &Items<TypeDecl>, t: u32) -> Result<Vec<u32>, AllocError>
    ensures { IfOk result (λ down. down.items ≡ reverse (line types.now t)) }
{
    let mut down = Vec::new(alloc);
    put_line(&mut down, types, Some(t), types.as_slice().len() + 1)?;
    Ok(down)
}

/// Appends the ancestors of a type, from the first down, and the type, at most so many.
#[tactic(auto, using(crate::proofs::Lines::line_of_none))]
fn put_line(
    down: &mut Vec<u32>,
    types: &Items<TypeDecl>,
    from: Option<u32>,
    most: usize,
) -> Result<(), AllocError>
    ensures { OnOk result (down.new.items ≡ down.old.items
        ++ reverse (option_map_or (line_within most types.now) from [])) }
{
    let Some(t) = from else { return Ok(()) };
    if most == 0 {
        return Ok(());
    }
    let Some(kind) = types.get(t as usize) else {
        return Ok(())
    };
    put_line(down, types, kind.parent, most - 1)?;
    down.push(t)?;
    Ok(())
}

/// The names that a type has, each once. A narrowing has a name that is there already.
#[tactic(auto, unfolding(crate::specs::steps::FirstDeclared::first_names))]
fn first_names<'m, D: Declaration + 'm>(
    alloc: Global,
    types: &'m Items<TypeDecl>,
    t: u32,
) -> Result<Names<'m>, AllocError>
    ensures { IfOk result (λ names. names ≡ first_names D.declared D.name_of types.now t) }
{
    let mut names = Names::new(alloc);
    let down = line_down(alloc, types, t)?;
    for u in &down {
        put_names::<D>(&mut names, types, *u)?;
    }
    Ok(names)
}

/// Puts in the names that a type declares.
fn put_names<'m, D: Declaration + 'm>(
    names: &mut Names<'m>,
    types: &'m Items<TypeDecl>,
    t: u32,
) -> Result<(), AllocError>
    ensures { OnOk result (names.new
        ≡ fold with_new names.old (names_of D.declared D.name_of types.now t)) }
{
    let Some(kind) = types.get(t as usize) else {
        return Ok(())
    };
    for d in D::all_of(kind) {
        put_name(names, d.name().bytes())?;
    }
    Ok(())
}

/// Puts in a name, unless it is there.
pub(crate) fn put_name<'m>(names: &mut Names<'m>, name: &'m [u8]) -> Result<(), AllocError>
    ensures { OnOk result (names.new ≡ with_new names.old name.now) }
{
    names.insert(name)?;
    Ok(())
}
