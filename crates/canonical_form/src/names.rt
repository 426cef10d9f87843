//! The names of a type's attributes and ports, by their first declarations.
ghost use Rattle.std.specs.Prelude.{◌≡◌, ℕ, List, [], ◌++◌, map, reverse, IfOk, OnOk};
ghost use Rattle.std.specs.List.{fold};
ghost use Rattle.std.specs.Option.{option_map_or};
ghost use Rattle.prod_model.specs.declared.model.TypeDecl.{TypeDecl};
ghost use Rattle.prod_model.specs.Forest.{line, line_within};
ghost use Rattle.prod_model.specs.Taxonomy.{declarations_of, attributes_of, attributes_at, ports_of, words_of, first_words};
ghost use Rattle.prod_model.specs.Valid.{IsValid};
ghost use Rattle.canonical_form.specs.steps.FirstRows.{AreFirsts};
ghost use Rattle.canonical_form.specs.steps.FirstDeclared.{with_new, first_declarations};

use indexmap::IndexSet;
use prod_model::{AttrDecl, Declaration, Items, Model, PortDecl, Problem, TypeDecl};
use std::alloc::{AllocError, Global};

/// The first declarations of a type's attributes and of its ports, each in the type's order.
#[derive(Drop)]
pub struct Firsts<'a> {
    pub attributes: Vec<&'a AttrDecl>,
    pub ports: Vec<&'a PortDecl>,
}

/// A problem, with the first declarations of what each of its types has.
#[derive(Drop)]
pub struct KnownTypes<'a> {
    pub problem: &'a Problem,
    /// In the order of types.
    pub rows: Vec<Firsts<'a>>,
}

impl<'a> KnownTypes<'a> {
    /// The types of a problem. It goes once over the declarations along the line of each.
    pub fn of(alloc: Global, problem: &'a Problem) -> Result<KnownTypes<'a>, AllocError>
        ensures problem { IfOk result (λ known. known.problem.now ≡ problem.now) }
        ensures rows { IfOk result (λ known. AreFirsts known.problem.now known.rows.items) }
    {
        Ok(KnownTypes {
            problem,
            rows: firsts_by_type(alloc, problem.model())?,
        })
    }
}

fn firsts_by_type<'a>(alloc: Global, model: &'a Model) -> Result<Vec<Firsts<'a>>, AllocError>
    requires valid { IsValid model.now }
    ensures { IfOk result (λ rows. AreFirsts model.now rows.items) }
{
    let mut rows = Vec::new(alloc);
    for t in 0..model.types.len() as u32 {
        rows.push(Firsts {
            attributes: first_attributes(alloc, model, t)?,
            ports: first_ports(alloc, model, t)?,
        })?;
    }
    Ok(rows)
}

/// The first declarations of a type's attributes, in the order of its attributes. They have the
/// attributes' names, and the words whose places are the attributes' values. It goes once over the
/// declarations along the type's line.
fn first_attributes<'a>(
    alloc: Global,
    model: &'a Model,
    t: u32,
) -> Result<Vec<&'a AttrDecl>, AllocError>
    requires valid { IsValid model.now }
    ensures names { IfOk result (λ firsts. map (λ d. d.now.name) firsts.items
        ≡ map (λ e. e.name) (attributes_of model.now.types t)) }
    ensures words { IfOk result (λ firsts. map (λ d. words_of d.now.domain) firsts.items
        ≡ map (λ a. first_words model.now a.id) (attributes_at model.now t)) }
{
    first_declarations(alloc, &model.types, t)
}

/// The first declarations of a type's ports, in the order of its ports. They have the ports'
/// names. It goes once over the declarations along the type's line.
fn first_ports<'a>(alloc: Global, model: &'a Model, t: u32) -> Result<Vec<&'a PortDecl>, AllocError>
    requires valid { IsValid model.now }
    ensures names { IfOk result (λ firsts. map (λ d. d.now.name) firsts.items
        ≡ map (λ e. e.name) (ports_of model.now.types t)) }
{
    first_declarations(alloc, &model.types, t)
}

/// A type and its ancestors, the first of them first.
fn line_down(alloc: Global, types: &Items<TypeDecl>, t: u32) -> Result<Vec<u32>, AllocError>
    ensures { IfOk result (λ down. down.items ≡ reverse (line types.now t)) }
{
    let mut down = Vec::new(alloc);
    put_line(&mut down, types, Some(t), types.as_slice().len() + 1)?;
    Ok(down)
}

/// Appends the ancestors of a type, from the first down, and the type, at most so many.
#[tactic(auto, using(crate::proofs::Lines::line_of_none))]
fn put_line(
    down: &mut Vec<u32>,
    types: &Items<TypeDecl>,
    from: Option<u32>,
    most: usize,
) -> Result<(), AllocError>
    ensures { OnOk result (down.new.items ≡ down.old.items
        ++ reverse (option_map_or (line_within most types.now) from [])) }
{
    let Some(t) = from else { return Ok(()) };
    if most == 0 {
        return Ok(());
    }
    let Some(kind) = types.get(t as usize) else {
        return Ok(())
    };
    put_line(down, types, kind.parent, most - 1)?;
    down.push(t)?;
    Ok(())
}

/// The first declarations of the names that a type has, in order. A narrowing has a name that is
/// there already.
#[tactic(auto, unfolding(crate::specs::steps::FirstDeclared::first_declarations))]
fn first_declarations<'a, D: Declaration>(
    alloc: Global,
    types: &'a Items<TypeDecl>,
    t: u32,
) -> Result<Vec<&'a D>, AllocError>
    ensures { IfOk result (λ firsts. map (λ d. d.now) firsts.items
        ≡ first_declarations D.declared D.name_of types.now t) }
{
    let mut firsts = Vec::new(alloc);
    let mut names = IndexSet::new(alloc);
    let down = line_down(alloc, types, t)?;
    for u in &down {
        put_declarations(&mut firsts, &mut names, types, *u)?;
    }
    Ok(firsts)
}

/// Appends the declarations of a type that have new names.
fn put_declarations<'a, D: Declaration>(
    firsts: &mut Vec<&'a D>,
    names: &mut IndexSet<&'a [u8]>,
    types: &'a Items<TypeDecl>,
    t: u32,
) -> Result<(), AllocError>
    requires { map (λ n. n.now) names.old.keys ≡ map (λ e. D.name_of e.now) firsts.old.items }
    ensures names { OnOk result (map (λ n. n.now) names.new.keys
        ≡ map (λ e. D.name_of e.now) firsts.new.items) }
    ensures firsts { OnOk result (map (λ e. e.now) firsts.new.items
        ≡ fold (with_new D.name_of) (map (λ e. e.now) firsts.old.items)
        (declarations_of D.declared D.name_of types.now t)) }
{
    let Some(kind) = types.get(t as usize) else {
        return Ok(())
    };
    for d in D::all_of(kind) {
        put_new(firsts, names, d)?;
    }
    Ok(())
}

/// Appends a declaration, unless there is one of its name.
fn put_new<'a, D: Declaration>(
    firsts: &mut Vec<&'a D>,
    names: &mut IndexSet<&'a [u8]>,
    d: &'a D,
) -> Result<(), AllocError>
    requires { map (λ n. n.now) names.old.keys ≡ map (λ e. D.name_of e.now) firsts.old.items }
    ensures names { OnOk result (map (λ n. n.now) names.new.keys
        ≡ map (λ e. D.name_of e.now) firsts.new.items) }
    ensures firsts { OnOk result (map (λ e. e.now) firsts.new.items
        ≡ with_new D.name_of (map (λ e. e.now) firsts.old.items) d.now) }
{
    if names.insert(d.name().bytes())? {
        firsts.push(d)?;
    }
    Ok(())
}

#[cfg(test)]
mod tests {
    use super::*;
    use model_literals::{range, type_literal, types_of};
    use std::test::Fail;

    #[test]
    fn inherited_names_come_first(rt: HostRuntime) -> Result<(), Fail> {
        let alloc = rt.alloc();
        let bike = [range(b"weight", 0, 9), range(b"seats", 0, 9)];
        let cargo = [range(b"load", 0, 9), range(b"seats", 0, 9)];
        // The child stands before its parent.
        let types = types_of(
            alloc,
            &[
                type_literal(b"Cargo", Some(1), &cargo, &[]),
                type_literal(b"Bike", None, &bike, &[]),
            ],
        )?;
        let firsts: Vec<&AttrDecl> = first_declarations(alloc, &types, 0)?;
        let mut names = Vec::new(alloc);
        for first in &firsts {
            names.extend_from_slice(first.name.bytes())?;
            names.push(b' ')?;
        }
        assert_eq!(rt; names.as_slice(), b"weight seats load ".as_slice());
        Ok(())
    }
}
