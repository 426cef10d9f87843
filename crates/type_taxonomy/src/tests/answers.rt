//! What is built of a model, as a text.
ghost use Rattle.std.specs.Prelude.{◌≡◌, length, sum_by, IfSome};

use crate::fault::TaxFault;
use crate::inverse_fault::InverseFault;
use crate::named_inverses::inverses_few;
use crate::taxonomy::build_few;
use model_literals::{TypeLiteral, model_of, types_of};
use prod_model::{
    AttrAt, AttrDecl, Declaration, Domain, Model, PortAt, PortDecl, PortKind, Tables, TypeDecl,
};
use std::alloc::{AllocError, Global};
use std::fmt::Write;
use std::test::Fail;

/// How many declarations there are.
fn count<D: Declaration>(types: &[TypeDecl]) -> Option<u32>
    ensures { IfSome result (λ n. n ≡ sum_by (λ d. length (D.declared d)) types.now) }
{
    let mut number = 0u32;
    for decl in types {
        number = number.checked_add(u32::try_from(D::all_of(decl).len()).ok()?)?;
    }
    Some(number)
}

/// What is built of a model, if it is small.
fn answer(alloc: Global, model: &Model) -> Option<Result<Tables, TaxFault>> {
    let types = model.types.as_slice();
    if types.len() >= 1000 {
        return None;
    }
    let _attributes = count::<AttrDecl>(types)?;
    let _ports = count::<PortDecl>(types)?;
    Some(build_few(alloc, model))
}

/// Writes words, or the ends of a range.
fn write_domain(text: &mut String, domain: &Domain) -> Result<(), AllocError> {
    match domain {
        Domain::Range { low, high } => write!(text, "{low}..{high}"),
        Domain::Words(words) => {
            for word in words.as_slice() {
                for byte in word.bytes() {
                    write!(text, "{}", char::from(*byte))?;
                }
                write!(text, "|")?;
            }
            Ok(())
        }
    }
}

fn write_attributes(text: &mut String, attributes: &[AttrAt]) -> Result<(), AllocError> {
    write!(text, "(")?;
    for a in attributes {
        write!(text, " {}:", a.id)?;
        write_domain(text, &a.domain)?;
    }
    write!(text, " )")
}

fn write_ports(text: &mut String, ports: &[PortAt]) -> Result<(), AllocError> {
    write!(text, "(")?;
    for p in ports {
        let kind = if p.kind == PortKind::Part {
            "part"
        } else {
            "shared"
        };
        write!(text, " {}:{kind} {} {}..{}", p.id, p.target, p.low, p.high)?;
        if let Some(inverse) = p.inverse {
            write!(text, " ={inverse}")?;
        }
    }
    write!(text, " )")
}

pub(super) fn write_all_ports(text: &mut String, tables: &Tables) -> Result<(), AllocError> {
    for row in tables.ports.as_slice() {
        write_ports(text, row.as_slice())?;
    }
    Ok(())
}

/// The attributes of each type and the ports of each type, or the fault.
fn write_answer(
    text: &mut String,
    answer: &Option<Result<Tables, TaxFault>>,
) -> Result<(), AllocError> {
    match answer {
        None => write!(text, "too large"),
        Some(Err(fault)) => write!(text, "{fault:?}"),
        Some(Ok(tables)) => {
            for row in tables.attributes.as_slice() {
                write_attributes(text, row.as_slice())?;
            }
            write_all_ports(text, tables)
        }
    }
}

pub(super) fn answer_text(alloc: Global, model: &Model) -> Result<String, Fail> {
    let mut text = String::new(alloc);
    write_answer(&mut text, &answer(alloc, model))?;
    Ok(text)
}

/// The answer at a forest of these types.
pub(super) fn built(alloc: Global, literals: &[TypeLiteral]) -> Result<String, Fail> {
    let types = types_of(alloc, literals)?;
    answer_text(alloc, &model_of(alloc, 0, 1, types))
}

/// What the search for inverses answers, and the tables then, if the model is small and has tables.
fn linked(alloc: Global, model: &Model) -> Option<(Result<(), InverseFault>, Tables)> {
    let types = model.types.as_slice();
    if types.len() >= 1000 {
        return None;
    }
    let _attributes = count::<AttrDecl>(types)?;
    let _ports = count::<PortDecl>(types)?;
    let Ok(mut tables) = build_few(alloc, model) else {
        return None;
    };
    let answer = inverses_few(model, &mut tables);
    Some((answer, tables))
}

/// The fault of the inverses of these types, if there is one, and the ports of each type then.
pub(super) fn linked_text(alloc: Global, literals: &[TypeLiteral]) -> Result<String, Fail> {
    let types = types_of(alloc, literals)?;
    let mut text = String::new(alloc);
    let Some((answer, tables)) = linked(alloc, &model_of(alloc, 0, 1, types)) else {
        write!(text, "no tables")?;
        return Ok(text);
    };
    if let Err(fault) = answer {
        write!(text, "{fault:?}")?;
    }
    write_all_ports(&mut text, &tables)?;
    Ok(text)
}
