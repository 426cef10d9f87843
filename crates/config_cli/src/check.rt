//! What a checked answer results in.
ghost use Rattle.std.specs.Prelude.{◌≡◌, ◌≤◌, ℕ, List, IfOk, IsTrue, length};
ghost use Rattle.prod_model.specs.Limits.{most_answer_bytes};
ghost use Rattle.prod_model.specs.Valid.{IsValidOrder};
ghost use Rattle.config_value.specs.Satisfies.{satisfies};
ghost use Rattle.config_value.specs.Shaped.{is_shaped};
ghost use Rattle.config_value.specs.Spelled.{is_spelled};
ghost use Rattle.config_cli.specs.Checked.{IsChecked, IsVerdict};
ghost use Rattle.config_cli.specs.CheckTexts.{long_answer_text};
ghost use Rattle.config_cli.specs.steps.Calls.{IsExactly, IsOfOutcome};
ghost use Rattle.config_cli.specs.steps.Checks.{FindsUnmet, IsAnswerOutcome, RefusesAnswer};
ghost use Rattle.config_cli.specs.steps.Fetched.{IsAnswerFetchOf, IsFetchOf, IsShort};

use crate::check_texts::{
    broken_text, long_answer_text, refused_answer_text, satisfied_text, unmet_text,
};
use crate::item_names::item_name;
use crate::outcome::{Fetched, Outcome, open_model, open_order, refused};
use crate::status::Status;
use answer_check::{Verdict, check, meets};
use canonical_form::{AnswerRefusal, read_answer};
use config_value::Configuration;
use prod_model::{Order, Problem};
use std::alloc::{AllocError, Global};

/// What the files of a model, an order and an answer result in. The model is read once and the
/// answer once, and each test of the model and each request is computed at most once.
pub fn checked(
    alloc: Global,
    model: Fetched,
    order: Fetched,
    answer: Fetched,
) -> Result<Outcome, AllocError>
    requires { IsShort most_answer_bytes answer }
    ensures status { IfOk result (λ a. IsOfOutcome a.status) }
    ensures result { IfOk result (λ a. (m o n : List ℕ) → IsFetchOf m model → IsFetchOf o order
        → IsAnswerFetchOf n answer → IsChecked m o n a.status a.text.items) }
{
    let problem = match open_model(alloc, model) {
        Ok(problem) => problem,
        Err(refusal) => return refused(alloc, "model", refusal),
    };
    let order = match open_order(alloc, &problem, order) {
        Ok(order) => order,
        Err(refusal) => return refused(alloc, "order", refusal),
    };
    answer_outcome(alloc, &problem, &order, answer)
}

/// What an answer file results in, for a model and an order without fault.
fn answer_outcome(
    alloc: Global,
    problem: &Problem,
    order: &Order,
    answer: Fetched,
) -> Result<Outcome, AllocError>
    requires order { IsValidOrder problem.now order.now }
    requires short { IsShort most_answer_bytes answer }
    ensures status { IfOk result (λ a. IsOfOutcome a.status) }
    ensures outcome { IfOk result (λ a. (n : List ℕ) → IsAnswerFetchOf n answer
        → IsAnswerOutcome problem.now order.now n a.status a.text.items) }
{
    match answer {
        Fetched::Bytes(bytes) => read_outcome(alloc, problem, order, &bytes),
        Fetched::TooLong => refused_as_long(alloc),
    }
}

/// What the bytes of an answer result in, where they are no more than the limit.
fn read_outcome(
    alloc: Global,
    problem: &Problem,
    order: &Order,
    bytes: &[u8],
) -> Result<Outcome, AllocError>
    requires order { IsValidOrder problem.now order.now }
    requires short { length bytes.now ≤ most_answer_bytes }
    ensures status { IfOk result (λ a. IsOfOutcome a.status) }
    ensures outcome { IfOk result
        (λ a. IsAnswerOutcome problem.now order.now bytes.now a.status a.text.items) }
{
    match read_answer(alloc, problem, bytes) {
        Ok(c) => verdict(alloc, problem, order, &c),
        Err(refusal) => refused_answer(alloc, refusal),
    }
}

/// The line of an answer that is too long.
fn refused_as_long(alloc: Global) -> Result<Outcome, AllocError>
    ensures line { IfOk result (λ a. IsExactly Status.Refused long_answer_text a.status
        a.text.items) }
    ensures status { IfOk result (λ a. IsOfOutcome a.status) }
{
    Ok(Outcome {
        status: Status::Refused,
        text: long_answer_text(alloc)?,
    })
}

/// The line of an answer that has a bad line, if there is memory.
fn refused_answer(alloc: Global, refusal: AnswerRefusal) -> Result<Outcome, AllocError>
    ensures line { IfOk result (λ a. RefusesAnswer refusal a.status a.text.items) }
    ensures status { IfOk result (λ a. IsOfOutcome a.status) }
{
    match refusal {
        AnswerRefusal::Line(fault) => Ok(Outcome {
            status: Status::Refused,
            text: refused_answer_text(alloc, fault)?,
        }),
        AnswerRefusal::Memory(e) => Err(e),
    }
}

/// What is told of a configuration: first what it breaks of the model, and then which request it
/// doesn't meet.
fn verdict(
    alloc: Global,
    problem: &Problem,
    order: &Order,
    c: &Configuration,
) -> Result<Outcome, AllocError>
    requires order { IsValidOrder problem.now order.now }
    requires spelled { IsTrue (is_spelled problem.now c.now) }
    ensures status { IfOk result (λ a. IsOfOutcome a.status) }
    ensures verdict { IfOk result
        (λ a. IsVerdict problem.now order.now c.now a.status a.text.items) }
{
    match check(problem, c) {
        Verdict::Satisfied => requests_outcome(alloc, problem, order, c),
        Verdict::Broken {
            code,
            instance,
            item,
        } => Ok(Outcome {
            status: Status::Broken,
            text: broken_text(
                alloc,
                code,
                instance,
                item_name(problem, c, code, instance, item),
            )?,
        }),
    }
}

/// What is told of a configuration that satisfies the model.
fn requests_outcome(
    alloc: Global,
    problem: &Problem,
    order: &Order,
    c: &Configuration,
) -> Result<Outcome, AllocError>
    requires order { IsValidOrder problem.now order.now }
    requires satisfied { IsTrue (satisfies problem.now c.now) }
    ensures status { IfOk result (λ a. IsOfOutcome a.status) }
    ensures verdict { IfOk result
        (λ a. IsVerdict problem.now order.now c.now a.status a.text.items) }
{
    match first_unmet(problem, order, c) {
        Some(k) => Ok(Outcome {
            status: Status::Broken,
            text: unmet_text(alloc, order, k)?,
        }),
        None => Ok(Outcome {
            status: Status::Satisfied,
            text: satisfied_text(alloc, problem, order, c)?,
        }),
    }
}

/// The first request that the configuration doesn't meet.
fn first_unmet(problem: &Problem, order: &Order, c: &Configuration) -> Option<u32>
    requires order { IsValidOrder problem.now order.now }
    requires shaped { IsTrue (is_shaped problem.now c.now) }
    ensures { FindsUnmet problem.now order.now c.now result }
{
    for k in 0..order.requests.len() as u32 {
        if !meets(problem, order, k, c) {
            return Some(k);
        }
    }
    None
}
