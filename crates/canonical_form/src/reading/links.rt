//! Reads the ports of an instance.
ghost use Rattle.std.specs.Prelude.{◌≡◌, ℕ, ◌≤◌, ◌<◌, List, [], length, IsTrue, IfOk, IfErr, IfSome, None};
ghost use Rattle.std.specs.Fmt.{decimal};
ghost use Rattle.prod_model.specs.Limits.{most_instances};
ghost use Rattle.prod_model.specs.Taxonomy.{ports_of};
ghost use Rattle.config_value.specs.Spelled.{is_spelled_links};
ghost use Rattle.canonical_form.specs.steps.Pieces.{numbers_piece, port_piece};
ghost use Rattle.canonical_form.specs.AnswerParts.{behind_number, behind_links, links_end};
ghost use Rattle.canonical_form.specs.steps.FirstRows.{AreFirsts};
ghost use Rattle.canonical_form.specs.steps.Grammar.{at_members};
ghost use Rattle.canonical_form.specs.steps.Reading.{Takes, TakesNone, AddsLinks, AreLinks, Refuses, ascends_from, begins_with_digit, is_link_from};

use super::tokens::{Reach, behind_byte, behind_sign, number_of, split_token};
use crate::fault::{AnswerRefusal, PartCode};
use crate::names::KnownTypes;
use prod_model::limits::MOST_INSTANCES;
use prod_model::{Items, PortDecl};
use std::alloc::{AllocError, Global};

/// A number from `low` on, below the greatest number of instances, and what stands behind it.
fn read_link(low: u32, bytes: &[u8]) -> Option<(u32, &[u8])>
    ensures found { IfSome result (λ r. (low ≤ r.0) × (r.0 < most_instances)
        × Takes (decimal r.0) behind_number bytes.now r.1.now) }
    ensures none { result ≡ None → (j : ℕ) (rest : List ℕ) → low ≤ j → j < most_instances
        → ¬ Takes (decimal j) behind_number bytes.now rest }
{
    let (digits, rest) = split_token(Reach::Number, bytes);
    let link = number_of(digits)?;
    if !is_link(low, link) {
        return None;
    }
    Some((link as u32, rest))
}

fn is_link(low: u32, link: i64) -> bool
    ensures { result ≡ is_link_from low link }
{
    i64::from(low) <= link && link < MOST_INSTANCES as i64
}

/// Appends the links that the bytes begin with, each from `low` and above the one before it, with
/// commas between them. It answers what stands behind them, or nothing where they aren't so.
fn put_links<'a>(
    links: &mut Items<u32>,
    low: u32,
    bytes: &'a [u8],
) -> Result<Option<&'a [u8]>, AllocError>
    ensures found { IfOk result (λ found. IfSome found (λ rest.
        AddsLinks low links.old links.new bytes.now rest.now)) }
    ensures none { IfOk result (λ found. found ≡ None → TakesNone numbers_piece
        (λ js. behind_links) (ascends_from low) bytes.now) }
{
    let Some((link, rest)) = read_link(low, bytes) else {
        return Ok(None)
    };
    links.push(link)?;
    let Some(next) = behind_byte(b',', rest) else {
        return Ok(Some(rest))
    };
    put_links(links, link + 1, next)
}

/// The links of a port, none where no number is next, and what stands behind them.
fn read_links<'a>(
    alloc: Global,
    bytes: &'a [u8],
) -> Result<Option<(Items<u32>, &'a [u8])>, AllocError>
    ensures found { IfOk result (λ found. IfSome found (λ r. IsTrue (is_spelled_links r.0)
        × Takes (numbers_piece r.0) (links_end r.0) bytes.now r.1.now)) }
    ensures none { IfOk result (λ found. found ≡ None
        → TakesNone numbers_piece links_end is_spelled_links bytes.now) }
{
    let mut links = Items::new(alloc);
    if !begins_with_digit(bytes) {
        return Ok(Some((links, bytes)));
    }
    let Some(rest) = put_links(&mut links, 0, bytes)? else {
        return Ok(None)
    };
    Ok(Some((links, rest)))
}

fn begins_with_digit(bytes: &[u8]) -> bool
    ensures { result ≡ begins_with_digit bytes.now }
{
    match bytes {
        [] => false,
        [first, ..] => first.is_ascii_digit(),
    }
}

/// The links of a port, and what stands behind them.
#[tactic(auto, unfolding(crate::specs::steps::Pieces::port_piece))]
fn read_port<'a>(
    alloc: Global,
    first: &PortDecl,
    bytes: &'a [u8],
) -> Result<Option<(Items<u32>, &'a [u8])>, AllocError>
    ensures found { IfOk result (λ found. IfSome found (λ r. IsTrue (is_spelled_links r.0)
        × Takes (port_piece (first.now, r.0)) (links_end r.0) bytes.now r.1.now)) }
    ensures none { IfOk result (λ found. found ≡ None → TakesNone
        (λ links. port_piece (first.now, links)) links_end is_spelled_links bytes.now) }
{
    let Some(rest) = behind_sign(first.name.bytes(), b':', bytes) else {
        return Ok(None)
    };
    read_links(alloc, rest)
}

/// Links of all ports of a type, in the line of an instance, and what stands behind them. It goes
/// once over the ports. Refused at `Port` where one is not there with links that can be written.
pub fn read_ports<'a>(
    alloc: Global,
    known: &KnownTypes,
    number: u32,
    kind: u32,
    bytes: &'a [u8],
) -> Result<(Items<Items<u32>>, &'a [u8]), AnswerRefusal>
    requires typed { kind < length known.now.problem.now.types }
    requires firsts { AreFirsts known.now.problem.now known.now.rows.items }
    requires few { number < most_instances }
    ensures read { IfOk result
        (λ r. AreLinks known.now.problem.now number kind bytes.now r.0 r.1.now) }
    ensures refused { IfErr result (Refuses known.now.problem.now
        (at_members number [] (ports_of known.now.problem.now.types kind)) bytes.now) }
{
    let mut ports = Items::new(alloc);
    let mut rest = bytes;
    for first in &known.rows[kind as usize].ports {
        let Some((links, after)) = read_port(alloc, first, rest)? else {
            return Err(AnswerRefusal::at(number + 2, PartCode::Port));
        };
        ports.push(links)?;
        rest = after;
    }
    Ok((ports, rest))
}
