//! Writes the text of an answer.
ghost use Rattle.std.specs.Prelude.{◌≡◌, ◌<◌, ◌++◌, length, IsTrue, IfOk, OnOk};
ghost use Rattle.std.specs.List.{flat_map, zip};
ghost use Rattle.prod_model.specs.Taxonomy.{attributes_of, ports_of};
ghost use Rattle.config_value.specs.Spelled.{is_spelled};
ghost use Rattle.canonical_form.specs.AnswerText.{attribute_text, port_text, type_name, instance_text, answer_text};
ghost use Rattle.canonical_form.specs.steps.FirstRows.{AreFirsts};
ghost use Rattle.canonical_form.specs.steps.Written.{IsWritten};

use crate::names::KnownTypes;
use crate::numbers::put_number;
use crate::pieces::{put_attributes, put_ports};
use config_value::{Configuration, Instance};
use prod_model::{Model, Problem};
use std::alloc::{AllocError, Global};

/// The answer text of a configuration that can be spelled: the line `preferred`, and then a line
/// for each instance. It goes once over the declarations along the line of each type and once over
/// the instances, and appends all to one buffer. It fails only where memory runs out.
pub fn write_answer(
    alloc: Global,
    problem: &Problem,
    c: &Configuration,
) -> Result<Vec<u8>, AllocError>
    requires { IsTrue (is_spelled problem.now c.now) }
    ensures { IfOk result (λ text. text.items ≡ answer_text problem.now c.now) }
{
    let known = KnownTypes::of(alloc, problem)?;
    let mut out = Vec::from_slice(alloc, b"preferred\n")?;
    for i in 0..c.len() as u32 {
        put_instance(&mut out, &known, i, c.get(i))?;
    }
    Ok(out)
}

/// Appends the line of an instance.
#[tactic(auto, unfolding(crate::specs::AnswerText::instance_text))]
fn put_instance(
    out: &mut Vec<u8>,
    known: &KnownTypes,
    number: u32,
    instance: &Instance,
) -> Result<(), AllocError>
    requires written { IsWritten known.now.problem.now instance.now }
    requires firsts { AreFirsts known.now.problem.now known.now.rows.items }
    ensures { OnOk result (out.new.items
        ≡ out.old.items ++ instance_text known.now.problem.now (number, instance.now)) }
{
    let model = known.problem.model();
    put_number(out, u64::from(number))?;
    out.push(b' ')?;
    out.extend_from_slice(type_name(model, instance.kind))?;
    put_members(out, known, instance)?;
    out.push(b'\n')?;
    Ok(())
}

/// Appends the attributes of an instance with their values, and its ports with their links.
fn put_members(out: &mut Vec<u8>, known: &KnownTypes, instance: &Instance) -> Result<(), AllocError>
    requires written { IsWritten known.now.problem.now instance.now }
    requires firsts { AreFirsts known.now.problem.now known.now.rows.items }
    ensures { OnOk result (out.new.items ≡ (out.old.items
        ++ flat_map (attribute_text known.now.problem.now)
        (zip (attributes_of known.now.problem.now.types instance.now.kind) instance.now.values))
        ++ flat_map port_text
        (zip (ports_of known.now.problem.now.types instance.now.kind) instance.now.links)) }
{
    let firsts = &known.rows[instance.kind as usize];
    let attrs = known.problem.attrs_of(instance.kind);
    put_attributes(out, &firsts.attributes, attrs, instance.values.as_slice())?;
    put_ports(out, &firsts.ports, instance.links.as_slice())
}

/// The name of a type.
fn type_name(model: &Model, t: u32) -> &[u8]
    requires { t < length model.now.types }
    ensures { result.now ≡ type_name model.now t }
{
    model.types.as_slice()[t as usize].name.bytes()
}
