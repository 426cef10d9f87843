//! New instances: with all that their possible types have, and nothing narrowed.
ghost use Rattle.std.specs.Prelude.{◌≡◌, ◌≢◌, ◌≤◌, ◌<◌, ◌+◌, ◌≤ℤ◌, ◌∷◌, ◌++◌, ◌==◌, ◌&&◌, ℕ, map, max, length, slice_index, [], true, false, not, nat_lt, IsTrue, IsSome, IfOk, OnOk};
ghost use Rattle.std.specs.List.{list_all, range_with_len, fold};
ghost use Rattle.std.specs.Option.{option_map_or};
ghost use Rattle.domain_store.specs.Words.{has_word};
ghost use Rattle.prod_model.specs.Forest.{is_leaf, parent_of};
ghost use Rattle.prod_model.specs.Taxonomy.{attributes_of, port_of, new_declarations};
ghost use Rattle.prod_model.specs.Valid.{IsValid};
ghost use Rattle.state_space.specs.Values.{Numbers, Words};
ghost use Rattle.state_space.specs.State.{attribute_types_of, port_types_of, values_of};
ghost use Rattle.state_space.specs.Root.{new_instance, ports_under, whole_links};
ghost use Rattle.partial_state.specs.Masks.{kinds_of, words_of, instances_of, IsWordMask};
ghost use Rattle.partial_state.specs.steps.NewRows.{shares, new_domain, new_domains, is_formed};

use crate::kinds::KindSet;
use crate::ports::MadePort;
use crate::row::InstanceRow;
use crate::values::{self, AttributeDomain};
use domain_store::{IntDomain, WordDomain};
use instance_set::InstanceSet;
use port_wildcards::PortDomain;
use prod_model::{AttrAt, Domain, Problem};
use std::alloc::{AllocError, Global};

impl InstanceRow {
    /// A new instance of one of the types of a mask, where so many are made. Beside the problem
    /// stand the leaf types that have each attribute, and each port, as masks. Time and memory are
    /// linear in the first declarations and in what the types have. `AllocError` where memory runs
    /// out.
    pub(crate) fn new_of(
        alloc: Global,
        problem: &Problem,
        attribute_types: &[u128],
        port_types: &[u128],
        kinds: u128,
        made: u32,
    ) -> Result<InstanceRow, AllocError>
        requires some { kinds ≢ 0 }
        requires leaves { IsTrue (list_all (is_leaf problem.now) (kinds_of kinds)) }
        requires attribute_types { map kinds_of attribute_types.now
            ≡ attribute_types_of problem.now }
        requires port_types { map kinds_of port_types.now ≡ port_types_of problem.now }
        requires few { made ≤ 256 }
        ensures { IfOk result
            (λ x. x ≡ new_instance problem.now (kinds_of kinds) (range_with_len 0 made)) }
    {
        let domains = whole_domains(alloc, problem, attribute_types, kinds)?;
        let ports = whole_ports(alloc, problem, port_types, kinds, first_instances(made))?;
        Ok(InstanceRow {
            kinds: KindSet { mask: kinds },
            domains,
            ports,
        })
    }
}

/// The domain of each attribute that one of the types has, whole, at the place of its id.
fn whole_domains(
    alloc: Global,
    problem: &Problem,
    attribute_types: &[u128],
    kinds: u128,
) -> Result<Vec<Option<AttributeDomain>>, AllocError>
    requires leaves { IsTrue (list_all (is_leaf problem.now) (kinds_of kinds)) }
    requires types { map kinds_of attribute_types.now ≡ attribute_types_of problem.now }
    ensures domains { IfOk result
        (λ v. v.items ≡ (new_instance problem.now (kinds_of kinds) []).domains) }
    ensures valid { IsValid problem.now }
{
    let types = problem.model().types.len();
    let mut domains = Vec::with_capacity(alloc, attribute_types.len())?;
    for t in 0..types {
        let new = new_attributes(problem, t as u32);
        push_domains(alloc, &mut domains, new, attribute_types, kinds)?;
    }
    Ok(domains)
}

/// The attributes that are new in type `t`. They stand behind those of its parent, so no name is
/// compared.
pub(crate) fn new_attributes(problem: &Problem, t: u32) -> &[AttrAt]
    requires valid { IsValid problem.now }
    requires known { t < length problem.now.types }
    ensures new { map (λ a. a.domain) result.now ≡ map (λ d. d.domain)
        (new_declarations (λ d. d.attributes) (λ d. d.name) problem.now.types t) }
    ensures formed { IsTrue (list_all (λ a. is_formed a.domain) result.now) }
{
    let inherited = inherited_attributes(problem, t);
    &problem.attrs_of(t)[inherited..]
}

/// How many attributes the parent of type `t` has.
fn inherited_attributes(problem: &Problem, t: u32) -> usize
    requires valid { IsValid problem.now }
    requires known { t < length problem.now.types }
    ensures { result
        ≡ length (option_map_or (attributes_of problem.now.types) (parent_of problem.now t) []) }
{
    match problem.model().parent_of(t) {
        Some(parent) => problem.attrs_of(parent).len(),
        None => 0,
    }
}

/// Puts the domains of new attributes behind those of smaller ids.
fn push_domains(
    alloc: Global,
    domains: &mut Vec<Option<AttributeDomain>>,
    new: &[AttrAt],
    attribute_types: &[u128],
    kinds: u128,
) -> Result<(), AllocError>
    requires formed { IsTrue (list_all (λ a. is_formed a.domain) new.now) }
    requires room { length domains.old.items + length new.now ≤ length attribute_types.now }
    ensures { OnOk result (domains.new.items ≡ domains.old.items ++ new_domains
        (λ a. shares (slice_index attribute_types.now a) kinds) (length domains.old.items)
        (map (λ a. a.domain) new.now)) }
{
    for attribute in new {
        let types = attribute_types[domains.len()];
        let held = types & kinds != 0;
        domains.push(domain_if(alloc, held, &attribute.domain)?)?;
    }
    Ok(())
}

/// The whole domain of an attribute, if the instance may have it.
fn domain_if(
    alloc: Global,
    held: bool,
    domain: &Domain,
) -> Result<Option<AttributeDomain>, AllocError>
    requires { IsTrue (is_formed domain.now) }
    ensures { IfOk result (λ o. o ≡ new_domain held domain.now) }
{
    if held {
        Ok(Some(whole_domain(alloc, domain)?))
    } else {
        Ok(None)
    }
}

/// All values of a declaration. They take no memory.
fn whole_domain(alloc: Global, domain: &Domain) -> Result<AttributeDomain, AllocError>
    requires { IsTrue (is_formed domain.now) }
    ensures { IfOk result (λ d. d ≡ values_of domain.now) }
{
    match domain {
        Domain::Range { low, high } => Ok(number_domain(alloc, *low, *high)?),
        Domain::Words(words) => Ok(word_domain(words.len())),
    }
}

/// The whole numbers of a range, as one interval.
fn number_domain(alloc: Global, low: i64, high: i64) -> Result<AttributeDomain, AllocError>
    requires { low ≤ℤ high }
    ensures { IfOk result (λ d. d ≡ Numbers (record { low = low; high = high } ∷ [])) }
{
    Ok(AttributeDomain {
        domain: values::Domain::Numbers(IntDomain::from_range(alloc, low, high)?),
    })
}

/// The first words, so many of them.
fn word_domain(count: usize) -> AttributeDomain
    requires some { 1 ≤ count }
    requires few { count ≤ 64 }
    ensures { result ≡ Words (range_with_len 0 count) }
{
    AttributeDomain {
        domain: values::Domain::Words(first_words(count)),
    }
}

/// Likewise, as a set of words.
fn first_words(count: usize) -> WordDomain
    requires some { 1 ≤ count }
    requires few { count ≤ 64 }
    ensures words { words_of result ≡ range_with_len 0 count }
    ensures stored { IsWordMask result }
{
    WordDomain::from_mask(first_bits(count))
}

/// The mask of the first words, so many of them.
fn first_bits(count: usize) -> u64
    requires { count ≤ 64 }
    ensures { (k : ℕ) → has_word result k ≡ nat_lt k count }
{
    if count == 64 {
        u64::MAX
    } else {
        (1u64 << count) - 1
    }
}

/// The made instances, so many of them.
fn first_instances(made: u32) -> InstanceSet
    requires { made ≤ 256 }
    ensures { instances_of result ≡ range_with_len 0 made }
{
    let mut set = InstanceSet::empty();
    for i in 0..made {
        set.insert(i);
    }
    set
}

/// What each port that one of the types has may link, at the place of its id.
fn whole_ports(
    alloc: Global,
    problem: &Problem,
    port_types: &[u128],
    kinds: u128,
    made: InstanceSet,
) -> Result<Vec<Option<MadePort>>, AllocError>
    requires valid { IsValid problem.now }
    requires leaves { IsTrue (list_all (is_leaf problem.now) (kinds_of kinds)) }
    requires types { map kinds_of port_types.now ≡ port_types_of problem.now }
    ensures { IfOk result
        (λ v. v.items ≡ (new_instance problem.now (kinds_of kinds) (instances_of made)).ports) }
{
    let mut ports = Vec::with_capacity(alloc, port_types.len())?;
    for types in port_types {
        let port = ports.len() as u32;
        ports.push(whole_port(problem, *types & kinds, port, made))?;
    }
    Ok(ports)
}

/// What a port may link, where each type of the mask has it.
fn whole_port(problem: &Problem, types: u128, port: u32, made: InstanceSet) -> Option<MadePort>
    requires { (t : ℕ) → IsTrue (has_word types t) → IsSome (port_of problem.now t port) }
    ensures { result
        ≡ whole_links (instances_of made) (ports_under problem.now (kinds_of types) port) }
{
    if types == 0 {
        return None;
    }
    Some(MadePort::from_links(PortDomain {
        required: InstanceSet::empty(),
        possible: made,
        fresh_low: 0,
        fresh_high: greatest_count(problem, types, port, 0),
    }))
}

/// The greatest count of links that a type of the mask allows the port, or `most` if that is
/// greater. Only the types of the mask are gone over, so all ports together take one step for each
/// port of each type, and in a step the port is found among the at most 16 of the type.
fn greatest_count(problem: &Problem, types: u128, port: u32, most: u32) -> u32
    ensures { result
        ≡ fold max most (map (λ q. q.high) (ports_under problem.now (kinds_of types) port)) }
{
    if types == 0 {
        return most;
    }
    let t = lowest_type(types);
    let others = without_type(types, t);
    match problem.port_of(t, port) {
        Some(found) => greatest_count(problem, others, port, most.max(found.high)),
        None => greatest_count(problem, others, port, most),
    }
}

/// The type of the lowest bit of a mask.
fn lowest_type(types: u128) -> u32
    requires { types ≢ 0 }
    ensures below { result < 128 }
    ensures is { has_word types result ≡ true }
    ensures least { (k : ℕ) → k < result → has_word types k ≡ false }
{
    types.trailing_zeros()
}

/// The types of a mask but one.
fn without_type(types: u128, t: u32) -> u128
    requires { t < 128 }
    ensures { (k : ℕ) → has_word result k ≡ (has_word types k && not (k == t)) }
{
    types & !(1u128 << t)
}
