//! The rules of a model file, and the first fault of their expressions.
ghost use Rattle.std.specs.Prelude.{◌≡◌, ℕ, ◌<◌, ◌∷◌, [], map, length, None, IfOk, IfErr};
ghost use Rattle.std.specs.List.{enumerate_from};
ghost use Rattle.base_laws.specs.Places.{IsAt};
ghost use Rattle.serde_json.specs.Data.{Data};
ghost use Rattle.serde_json.specs.View.{view};
ghost use Rattle.prod_model.specs.Taxonomy.{declared_tables_of};
ghost use Rattle.prod_model.specs.Valid.{IsDeclared};
ghost use Rattle.file_values.specs.declared.kind.Key.TheVariants.{OfType, Rules};
ghost use Rattle.file_values.specs.Read.{member_of, items_at};
ghost use Rattle.file_meaning.specs.Faults.{HasStatedFault, HasModelFault};
ghost use Rattle.file_meaning.specs.Laws.{IsFaultlessTo};
ghost use Rattle.file_meaning.specs.ModelOf.{number_named, rule_in, declared_in, type_names};
ghost use Rattle.file_meaning.specs.Named.{AreNamedTablesOf};
ghost use Rattle.file_meaning.specs.steps.Names.{names_in};
ghost use Rattle.model_reader.specs.Passes.{IsRefusalBy};
ghost use Rattle.model_reader.specs.Stated.{AreRead, FindsFault, IsRefusalOfStated, stated_rule};

use crate::declared::{member_of, null};
use crate::names::{name_in, number_named};
use crate::stated::{earlier_fault, place_in, read_stated};
use file_meaning::laws::faultless_is_declared;
use file_meaning::{NamedTables, Refusal};
use file_values::{Fault, Key, items_at};
use prod_model::{Items, Model, Rule, Tables};
use serde_json::Value;
use std::alloc::{AllocError, Global};

/// Reads a rule, which has a place in the list of rules, at the type that it names.
fn read_rule(
    alloc: Global,
    model: &Model,
    named: &NamedTables<'_>,
    types: &[Value],
    index: usize,
    value: &Value,
) -> Result<Rule, Refusal>
    requires declared { IsDeclared model.now }
    requires named { AreNamedTablesOf model.now named.now }
    requires known { number_named (names_in types.now) (member_of OfType (view value.now))
        < length model.now.types }
    ensures rule { IfOk result
        (λ r. r ≡ rule_in model.now (names_in types.now) (view value.now)) }
    ensures sound { IfOk result (λ _. FindsFault (HasStatedFault model.now
        (stated_rule (names_in types.now) (index, view value.now) ∷ [])) None) }
    ensures fault { IfErr result (IsRefusalOfStated model.now
        (stated_rule (names_in types.now) (index, view value.now) ∷ [])) }
{
    let kind = number_named(types, value, Key::OfType).map_err(Refusal::Memory)?;
    let name = name_in(alloc, value).map_err(Refusal::Memory)?;
    let place = place_in(alloc, Key::Rules, index, Key::Holds).map_err(Refusal::Memory)?;
    let absent = null();
    let holds = member_of(value, Key::Holds, &absent);
    let holds = read_stated(alloc, model, named, place, holds, kind, true)?;
    Ok(Rule { name, kind, holds })
}

/// Reads the rules, and finds the first fault of their expressions: with one, the rules that are
/// read are some of them only. It reads each expression once.
fn rules_in(
    alloc: Global,
    model: &Model,
    named: &NamedTables<'_>,
    types: &[Value],
    list: &[Value],
) -> Result<(Items<Rule>, Option<Fault>), AllocError>
    requires declared { IsDeclared model.now }
    requires named { AreNamedTablesOf model.now named.now }
    requires known { (k : ℕ) → (d : Data) → IsAt (map view list.now) k d
        → number_named (names_in types.now) (member_of OfType d) < length model.now.types }
    ensures { IfOk result (λ r. AreRead model.now
        (map (stated_rule (names_in types.now)) (enumerate_from 0 (map view list.now)))
        (map (rule_in model.now (names_in types.now)) (map view list.now)) r.1 r.0) }
{
    let mut rules = Items::new(alloc);
    let mut first: Option<Fault> = None;
    for (i, value) in list.iter().enumerate() {
        match read_rule(alloc, model, named, types, i, value) {
            Ok(rule) => rules.push(rule)?,
            Err(Refusal::Fault(fault)) => first = Some(earlier_fault(first, fault)),
            Err(Refusal::Memory(e)) => return Err(e),
        }
    }
    Ok((rules, first))
}

/// The rules of a model file, by the names of its types.
fn rules_with(
    alloc: Global,
    value: &Value,
    model: &Model,
    named: &NamedTables<'_>,
) -> Result<Items<Rule>, Refusal>
    requires faultless { IsFaultlessTo 11 (view value.now) }
    requires declared { model.now ≡ declared_in (view value.now) }
    requires named { AreNamedTablesOf model.now named.now }
    ensures rules { IfOk result (λ rules. rules ≡ map
        (rule_in (declared_in (view value.now)) (type_names (view value.now)))
        (items_at Rules (view value.now))) }
    ensures faultless { IfOk result (λ _. IsFaultlessTo 16 (view value.now)) }
    ensures fault { IfErr result (IsRefusalBy (HasModelFault (view value.now))) }
{
    faultless_is_declared();
    let types = items_at(value, Key::Types);
    let list = items_at(value, Key::Rules);
    match rules_in(alloc, model, named, types, list) {
        Ok((rules, first)) => match first {
            None => Ok(rules),
            Some(fault) => Err(Refusal::Fault(fault)),
        },
        Err(e) => Err(Refusal::Memory(e)),
    }
}

/// The rules of a model file. It refuses the value by its first fault where that is of a code from
/// 12 to 16. It takes time linear in the value, besides what the bounds of expressions take, and
/// for each rule that of looking for its type.
pub fn read_rules(
    alloc: Global,
    value: &Value,
    model: &Model,
    tables: &Tables,
) -> Result<Items<Rule>, Refusal>
    requires faultless { IsFaultlessTo 11 (view value.now) }
    requires declared { model.now ≡ declared_in (view value.now) }
    requires tables { tables.now ≡ declared_tables_of model.now }
    ensures rules { IfOk result (λ rules. rules ≡ map
        (rule_in (declared_in (view value.now)) (type_names (view value.now)))
        (items_at Rules (view value.now))) }
    ensures faultless { IfOk result (λ _. IsFaultlessTo 16 (view value.now)) }
    ensures fault { IfErr result (IsRefusalBy (HasModelFault (view value.now))) }
{
    faultless_is_declared();
    let named = NamedTables::of(alloc, model, tables).map_err(Refusal::Memory)?;
    rules_with(alloc, value, model, &named)
}
