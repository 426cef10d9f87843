//! The texts of a check.
ghost use Rattle.std.specs.Prelude.{◌≡◌, ◌<◌, ◌++◌, length, IfOk, IsTrue, OnOk};
ghost use Rattle.std.specs.Fmt.{decimal, signed_decimal};
ghost use Rattle.std.specs.List.{flat_map, zip};
ghost use Rattle.prod_model.specs.Valid.{IsValidOrder};
ghost use Rattle.config_value.specs.Shaped.{is_shaped};
ghost use Rattle.canonical_form.specs.ConflictText.{request_name};
ghost use Rattle.config_cli.specs.CheckTexts.{broken_text, criterion_text, long_answer_text, refused_answer_text, satisfied_text, unmet_text};

use canonical_form::LineFault;
use config_value::Configuration;
use criteria_order::criteria_values;
use itoa::Buffer;
use prod_model::limits::MOST_CRITERIA;
use prod_model::{Criterion, Order, Problem};
use std::alloc::{AllocError, Global};

/// The number of the test that a request is met.
const FALSE_REQUEST: u32 = 11;

/// `refused answer F01 /`
#[tactic(auto, unfolding(crate::specs::CheckTexts::long_answer_text))]
pub fn long_answer_text(alloc: Global) -> Result<Vec<u8>, AllocError>
    ensures { IfOk result (λ text. text.items ≡ long_answer_text) }
{
    Vec::from_slice(alloc, b"refused answer F01 /\n")
}

/// `refused answer CODE LINE`
#[tactic(auto, unfolding(crate::specs::CheckTexts::refused_answer_text))]
pub fn refused_answer_text(alloc: Global, fault: LineFault) -> Result<Vec<u8>, AllocError>
    ensures { IfOk result (λ text. text.items ≡ refused_answer_text fault.line fault.code) }
{
    let mut text = Vec::from_slice(alloc, b"refused answer A")?;
    put_number(&mut text, fault.code.number())?;
    text.push(b' ')?;
    put_number(&mut text, fault.line)?;
    text.push(b'\n')?;
    Ok(text)
}

/// `satisfied`, and then `NAME=VALUE` for each criterion.
#[tactic(auto, unfolding(crate::specs::CheckTexts::satisfied_text))]
pub fn satisfied_text(
    alloc: Global,
    problem: &Problem,
    order: &Order,
    c: &Configuration,
) -> Result<Vec<u8>, AllocError>
    requires order { IsValidOrder problem.now order.now }
    requires shaped { IsTrue (is_shaped problem.now c.now) }
    ensures { IfOk result (λ text. text.items ≡ satisfied_text problem.now order.now c.now) }
{
    let criteria = order.criteria.as_slice();
    let mut room = [0; MOST_CRITERIA];
    let values = &mut room[..criteria.len()];
    criteria_values(problem, order, c, values);
    let mut text = Vec::from_slice(alloc, b"satisfied\n")?;
    put_criteria(&mut text, criteria, values)?;
    Ok(text)
}

/// Appends a line for each criterion with its value.
fn put_criteria(out: &mut Vec<u8>, criteria: &[Criterion], values: &[i64]) -> Result<(), AllocError>
    requires { length values.now ≡ length criteria.now }
    ensures { OnOk result
        (out.new.items ≡ out.old.items ++ flat_map criterion_text (zip criteria.now values.now)) }
{
    for k in 0..criteria.len() {
        put_criterion(out, &criteria[k], values[k])?;
    }
    Ok(())
}

/// Appends the line of a criterion.
fn put_criterion(out: &mut Vec<u8>, criterion: &Criterion, value: i64) -> Result<(), AllocError>
    ensures { OnOk result (out.new.items ≡ out.old.items ++ criterion_text (criterion.now, value)) }
{
    let mut buffer = Buffer::new();
    out.extend_from_slice(criterion.name.bytes())?;
    out.push(b'=')?;
    out.extend_from_slice(buffer.format(value).as_bytes())?;
    out.push(b'\n')?;
    Ok(())
}

/// `broken CODE INSTANCE ITEM`, with the number of the test in two digits after `B`.
#[tactic(auto, unfolding(crate::specs::CheckTexts::broken_text))]
pub fn broken_text(
    alloc: Global,
    code: u32,
    instance: u32,
    name: &[u8],
) -> Result<Vec<u8>, AllocError>
    requires { code < 100 }
    ensures { IfOk result (λ text. text.items ≡ broken_text code instance name.now) }
{
    let mut text = Vec::from_slice(alloc, b"broken B")?;
    text.push(b'0' + (code / 10) as u8)?;
    text.push(b'0' + (code % 10) as u8)?;
    text.push(b' ')?;
    put_number(&mut text, instance)?;
    text.push(b' ')?;
    text.extend_from_slice(name)?;
    text.push(b'\n')?;
    Ok(text)
}

/// The line for a request that isn't met.
pub fn unmet_text(alloc: Global, order: &Order, k: u32) -> Result<Vec<u8>, AllocError>
    requires { k < length order.now.requests }
    ensures { IfOk result (λ text. text.items ≡ unmet_text order.now k) }
{
    broken_text(alloc, FALSE_REQUEST, 0, request_name(order, k))
}

fn request_name(order: &Order, k: u32) -> &[u8]
    requires { k < length order.now.requests }
    ensures { result.now ≡ request_name order.now k }
{
    order.requests.as_slice()[k as usize].name.bytes()
}

/// Appends a number in decimal digits.
fn put_number(out: &mut Vec<u8>, n: u32) -> Result<(), AllocError>
    ensures { OnOk result (out.new.items ≡ out.old.items ++ decimal n) }
{
    let mut buffer = Buffer::new();
    out.extend_from_slice(buffer.format(n).as_bytes())
}
