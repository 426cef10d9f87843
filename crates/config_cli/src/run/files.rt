//! What the files that a command reads result in.
ghost use Rattle.std.specs.Prelude.{◌≡◌, ◌≢◌, ◌⊎◌, ℕ, ◌≤◌, List, Contains, IfOk};
ghost use Rattle.std.specs.Option.{ForSome};
ghost use Rattle.cfg_io.specs.Causes.{Rose};
ghost use Rattle.config_cli.specs.Commands.{files_of};
ghost use Rattle.config_cli.specs.steps.Calls.{HasFaultAmong, IsOfCheckedFiles, IsOfCommand, IsOfFiles, IsOfOutcome};
ghost use Rattle.config_cli.specs.steps.Words.{shown};

use super::fetch::{Stop, fetch};
use crate::check::checked;
use crate::commands::Command;
use crate::outcome::{Outcome, configured};
use cfg_io::Shelf;
use prod_model::limits::{MOST_ANSWER_BYTES, MOST_FILE_BYTES};
use std::alloc::Global;

/// Reads the files of a command in their order, and gives what they result in.
pub fn outcome_of<S: Shelf>(
    alloc: Global,
    command: Command<'_>,
    shelf: &mut S,
) -> Result<Outcome, Stop>
    // What the files result in.
    ensures outcome { IfOk result (λ a. ForSome (S.files shelf.old) (λ fs.
        IsOfCommand fs (shown command.entry) a.status a.text.items)) }
    ensures status { IfOk result (λ a. IsOfOutcome a.status) }

    // What stays, and what is counted.
    ensures same { S.files shelf.new ≡ S.files shelf.old }
    ensures failed { result ≡ Err Stop.Failed → HasFaultAmong (files_of (shown command.entry))
        (S.faults shelf.old) (S.faults shelf.new) }
    ensures uncounted { result ≢ Err Stop.Failed
        → (n : List ℕ) → S.faults shelf.new n ≡ S.faults shelf.old n }
    ensures later { (n : List ℕ) → S.faults shelf.old n ≤ S.faults shelf.new n }
    ensures others { (n : List ℕ) → ¬ Contains (files_of (shown command.entry)) n
        → S.faults shelf.new n ≡ S.faults shelf.old n }
{
    match command {
        Command::Configure { model, order } => configure(alloc, model, order, shelf),
        Command::Check {
            model,
            order,
            answer,
        } => check(alloc, model, order, answer, shelf),
    }
}

/// What the model and the order of these names result in.
fn configure<S: Shelf>(
    alloc: Global,
    model: &str,
    order: &str,
    shelf: &mut S,
) -> Result<Outcome, Stop>
    ensures outcome { IfOk result (λ a. ForSome (S.files shelf.old) (λ fs.
        IsOfFiles fs model.now order.now a.status a.text.items)) }
    ensures status { IfOk result (λ a. IsOfOutcome a.status) }
    ensures same { S.files shelf.new ≡ S.files shelf.old }
    ensures failed { result ≡ Err Stop.Failed
        → (Rose (S.faults shelf.old model.now) (S.faults shelf.new model.now))
        ⊎ (Rose (S.faults shelf.old order.now) (S.faults shelf.new order.now)) }
    ensures uncounted { result ≢ Err Stop.Failed
        → (n : List ℕ) → S.faults shelf.new n ≡ S.faults shelf.old n }
    ensures later { (n : List ℕ) → S.faults shelf.old n ≤ S.faults shelf.new n }
    ensures others { (n : List ℕ) → n ≢ model.now → n ≢ order.now
        → S.faults shelf.new n ≡ S.faults shelf.old n }
{
    let model_file = fetch(shelf, model, MOST_FILE_BYTES)?;
    let order_file = fetch(shelf, order, MOST_FILE_BYTES)?;
    match configured(alloc, model_file, order_file) {
        Ok(outcome) => Ok(outcome),
        Err(_) => Err(Stop::Memory),
    }
}

/// What the model, the order and the answer of these names result in.
fn check<S: Shelf>(
    alloc: Global,
    model: &str,
    order: &str,
    answer: &str,
    shelf: &mut S,
) -> Result<Outcome, Stop>
    ensures outcome { IfOk result (λ a. ForSome (S.files shelf.old) (λ fs.
        IsOfCheckedFiles fs model.now order.now answer.now a.status a.text.items)) }
    ensures status { IfOk result (λ a. IsOfOutcome a.status) }
    ensures same { S.files shelf.new ≡ S.files shelf.old }
    ensures failed { result ≡ Err Stop.Failed
        → (Rose (S.faults shelf.old model.now) (S.faults shelf.new model.now))
        ⊎ ((Rose (S.faults shelf.old order.now) (S.faults shelf.new order.now))
        ⊎ (Rose (S.faults shelf.old answer.now) (S.faults shelf.new answer.now))) }
    ensures uncounted { result ≢ Err Stop.Failed
        → (n : List ℕ) → S.faults shelf.new n ≡ S.faults shelf.old n }
    ensures later { (n : List ℕ) → S.faults shelf.old n ≤ S.faults shelf.new n }
    ensures others { (n : List ℕ) → n ≢ model.now → n ≢ order.now → n ≢ answer.now
        → S.faults shelf.new n ≡ S.faults shelf.old n }
{
    let model_file = fetch(shelf, model, MOST_FILE_BYTES)?;
    let order_file = fetch(shelf, order, MOST_FILE_BYTES)?;
    let answer_file = fetch(shelf, answer, MOST_ANSWER_BYTES)?;
    match checked(alloc, model_file, order_file, answer_file) {
        Ok(outcome) => Ok(outcome),
        Err(_) => Err(Stop::Memory),
    }
}
