//! Literals of one kind, appended in turn. After `AllocError` some may be appended.
ghost use Rattle.std.specs.Prelude.{◌≡◌, ◌<◌, ◌≤◌, ◌==◌, ◌++◌, ◌∷◌, ◌&&◌, [], if◌then◌else◌, map, not, length, IsSome, OnOk, OnErr};
ghost use Rattle.std.specs.Int.{bit_at};
ghost use Rattle.std.specs.Option.{option_map_or};
ghost use Rattle.std.specs.List.{filter, range_with_len};
ghost use Rattle.port_wildcards.specs.Ports.{IsPort};
ghost use Rattle.config_value.specs.declared.literal.Literal.TheVariants.{NotKind, ValueIsNot, Linked, NotLinked};
ghost use Rattle.prod_model.specs.Limits.{most_links};
ghost use Rattle.prod_model.specs.Forest.{is_leaf};
ghost use Rattle.instance_set.specs.InstanceSets.{is_member};
ghost use Rattle.state_space.specs.State.{domain_at, leaves_that};
ghost use Rattle.state_space.specs.Descriptions.{gaps, values_description, links_description, count_description};
ghost use Rattle.partial_state.specs.Masks.{instances_of};
ghost use Rattle.partial_state.specs.Views.{state_of_port};
ghost use Rattle.reason_trail.specs.Begun.{Begins};

use instance_set::InstanceSet;
use literal_book::{Literal, Literals};
use partial_state::Partial;
use port_wildcards::PortDomain;
use prod_model::Problem;
use std::alloc::AllocError;

/// That instance `i` is of none of the leaves that a mask of types lacks.
pub(crate) fn push_other_leaves(
    i: u32,
    problem: &Problem,
    kinds: u128,
    into: &mut Literals,
) -> Result<(), AllocError>
    ensures described { OnOk result (into.new ≡ into.old
        ++ map (λ t. NotKind i t) (leaves_that problem.now (λ t. not (bit_at kinds t == 1)))) }
    ensures begun { OnErr result (Begins into.old into.new) }
{
    for t in 0..problem.model().types.len() as u32 {
        let other = is_other_leaf(problem, kinds, t);
        push_where(
            other,
            Literal::NotKind {
                instance: i,
                kind: t,
            },
            into,
        )?;
    }
    Ok(())
}

/// Whether the type is a leaf that a mask of types lacks.
#[tactic(auto, using(prod_model::proofs::ValidModels::few_types))]
fn is_other_leaf(problem: &Problem, kinds: u128, t: u32) -> bool
    requires { t < length problem.now.types }
    ensures { result ≡ (is_leaf problem.now t && not (bit_at kinds t == 1)) }
{
    problem.is_leaf(t) && !has_type(problem, kinds, t)
}

#[tactic(auto, using(std::proofs::lemmas::Nat::Bits::shr_and_one, prod_model::proofs::ValidModels::few_types))]
fn has_type(problem: &Problem, kinds: u128, t: u32) -> bool
    requires { t < length problem.now.types }
    ensures { result ≡ (bit_at kinds t == 1) }
{
    // A valid model has at most 128 types.
    let _ = problem.model();
    (kinds >> t) & 1 == 1
}

/// The ends of the values of an attribute, and the gaps between them.
pub(crate) fn push_values(
    i: u32,
    attr: u32,
    state: &Partial,
    into: &mut Literals,
) -> Result<(), AllocError>
    requires { IsSome (domain_at state.now i attr) }
    ensures described { OnOk result (into.new ≡ into.old
        ++ option_map_or (values_description i attr) (domain_at state.now i attr) []) }
    ensures begun { OnErr result (Begins into.old into.new) }
{
    into.push(Literal::AtLeast {
        instance: i,
        attr,
        value: state.low(i, attr),
    })?;
    into.push(Literal::AtMost {
        instance: i,
        attr,
        value: state.high(i, attr),
    })?;
    push_gaps(i, attr, state, into)
}

fn push_gaps(i: u32, attr: u32, state: &Partial, into: &mut Literals) -> Result<(), AllocError>
    requires { IsSome (domain_at state.now i attr) }
    ensures described { OnOk result (into.new ≡ into.old
        ++ option_map_or (λ d. map (λ v. ValueIsNot i attr v) (gaps d))
        (domain_at state.now i attr) []) }
    ensures begun { OnErr result (Begins into.old into.new) }
{
    let high = state.high(i, attr);
    let mut from = state.low(i, attr);
    while let Some(gap) = state.gap_from(i, attr, from) {
        into.push(Literal::ValueIsNot {
            instance: i,
            attr,
            value: gap,
        })?;
        from = gap + 1;
    }
    Ok(())
}

/// The made instances that a port must link, those that it can't, and how many later ones it
/// links.
pub(crate) fn push_links(
    i: u32,
    port: u32,
    made: u32,
    links: &PortDomain,
    into: &mut Literals,
) -> Result<(), AllocError>
    ensures described { OnOk result (into.new
        ≡ into.old ++ links_description made i port (state_of_port links.now)) }
    ensures begun { OnErr result (Begins into.old into.new) }
{
    push_linked(i, port, &links.required, into)?;
    push_not_linked(i, port, made, &links.possible, into)?;
    into.push(Literal::FreshAtLeast {
        instance: i,
        port,
        from: made,
        count: links.fresh_low,
    })?;
    into.push(Literal::FreshAtMost {
        instance: i,
        port,
        from: made,
        count: links.fresh_high,
    })
}

/// That a port links each instance of a set.
fn push_linked(i: u32, port: u32, set: &InstanceSet, into: &mut Literals) -> Result<(), AllocError>
    ensures described { OnOk result (into.new
        ≡ into.old ++ map (λ j. Linked i port j) (instances_of set.now)) }
    ensures begun { OnErr result (Begins into.old into.new) }
{
    let mut from = 0;
    while let Some(j) = set.least_from(from) {
        into.push(Literal::Linked {
            instance: i,
            port,
            to: j,
        })?;
        from = j + 1;
    }
    Ok(())
}

/// That a port links none of the made instances that a set lacks.
fn push_not_linked(
    i: u32,
    port: u32,
    made: u32,
    set: &InstanceSet,
    into: &mut Literals,
) -> Result<(), AllocError>
    ensures described { OnOk result (into.new ≡ into.old ++ map (λ j. NotLinked i port j)
        (filter (λ j. not (is_member set.now j)) (range_with_len 0 made))) }
    ensures begun { OnErr result (Begins into.old into.new) }
{
    for j in 0..made {
        let excluded = !set.contains(j);
        push_where(
            excluded,
            Literal::NotLinked {
                instance: i,
                port,
                to: j,
            },
            into,
        )?;
    }
    Ok(())
}

/// A literal, where it is wanted.
fn push_where(wanted: bool, literal: Literal, into: &mut Literals) -> Result<(), AllocError>
    ensures described { OnOk result (into.new
        ≡ into.old ++ (if wanted then literal ∷ [] else [])) }
    ensures unchanged { OnErr result (into.new ≡ into.old) }
{
    if wanted {
        into.push(literal)?;
    }
    Ok(())
}

/// How many links a port has at least and at most.
pub(crate) fn push_counts(
    i: u32,
    port: u32,
    links: &PortDomain,
    into: &mut Literals,
) -> Result<(), AllocError>
    requires few { links.now.fresh_high ≤ most_links }
    requires formed { IsPort links.now }
    ensures described { OnOk result (into.new
        ≡ into.old ++ count_description i port (state_of_port links.now)) }
    ensures begun { OnErr result (Begins into.old into.new) }
{
    into.push(Literal::LinksAtLeast {
        instance: i,
        port,
        count: links.required.count() + links.fresh_low,
    })?;
    into.push(Literal::LinksAtMost {
        instance: i,
        port,
        count: links.possible.count() + links.fresh_high,
    })
}
