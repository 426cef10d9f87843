//! Reads a model file.
ghost use Rattle.std.specs.Prelude.{◌≡◌, map, IfOk, IfErr};
ghost use Rattle.serde_json.specs.View.{view};
ghost use Rattle.prod_model.specs.Taxonomy.{tables_of};
ghost use Rattle.prod_model.specs.Valid.{IsValid};
ghost use Rattle.file_values.specs.declared.fault.Fault.{Fault as AFault};
ghost use Rattle.file_values.specs.declared.kind.Key.TheVariants.{Rules};
ghost use Rattle.file_values.specs.Read.{items_at};
ghost use Rattle.file_meaning.specs.ModelOf.{declared_in, rule_in, type_names};
ghost use Rattle.file_meaning.specs.Faults.{HasModelFault};
ghost use Rattle.file_meaning.specs.Refused.{IsRefusalOfFile};
ghost use Rattle.file_meaning.specs.Stands.{IsFileFor, StandsForModel};
ghost use Rattle.model_reader.specs.Passes.{IsRefusalBy};

use crate::declared::check_values;
use crate::file::value_of;
use crate::inverses::link_inverses;
use crate::known::check_known;
use crate::rules::read_rules;
use crate::types::declared_tables;
use file_meaning::laws::faultless_is_valid;
use file_meaning::{Refusal, declared_in};
use prod_model::{Items, Model, Problem, Rule, Tables};
use serde_json::Value;
use std::alloc::Global;

/// The problem of a value without faults, of what it declares, and of its rules.
fn problem_with(value: &Value, mut model: Model, tables: Tables, rules: Items<Rule>) -> Problem
    requires faultless { (f : AFault) → HasModelFault (view value.now) f → ⊥ }
    requires declared { model ≡ declared_in (view value.now) }
    requires rules { rules
        ≡ map (rule_in (declared_in (view value.now)) (type_names (view value.now)))
        (items_at Rules (view value.now)) }
    requires tables { tables ≡ tables_of model }
    ensures model { StandsForModel (view value.now) result }
    ensures valid { IsValid result }
{
    faultless_is_valid();
    model.rules = rules;
    Problem::from_parts(model, tables)
}

/// The problem that a value stands for.
fn problem_of(alloc: Global, value: &Value) -> Result<Problem, Refusal>
    ensures model { IfOk result (λ p. StandsForModel (view value.now) p) }
    ensures valid { IfOk result (λ p. IsValid p) }
    ensures fault { IfErr result (IsRefusalBy (HasModelFault (view value.now))) }
{
    check_values(alloc, value)?;
    check_known(alloc, value)?;
    let model = declared_in(alloc, value).map_err(Refusal::Memory)?;
    let mut tables = declared_tables(alloc, value, &model)?;
    let rules = read_rules(alloc, value, &model, &tables)?;
    link_inverses(alloc, value, &model, &mut tables)?;
    Ok(problem_with(value, model, tables, rules))
}

/// The valid model that a file stands for, with its tables. It takes time linear in the file, times
/// the types, besides what the tables and the bounds of expressions take.
///
/// # Errors
///
/// `Fault` with the first fault of the file, by code and then by place, and `Memory` where memory
/// runs out.
pub fn read_model(alloc: Global, bytes: &[u8]) -> Result<Problem, Refusal>
    ensures model { IfOk result (λ p. IsFileFor StandsForModel bytes.now p) }
    ensures valid { IfOk result (λ p. IsValid p) }
    ensures fault { IfErr result (IsRefusalOfFile HasModelFault bytes.now) }
{
    let value = value_of(alloc, bytes)?;
    problem_of(alloc, &value)
}
