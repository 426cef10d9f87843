// What the files of a command result in.
ghost use Rattle.std.specs.Prelude.{◌≡◌, ℕ, List, IfErr, IfOk};
ghost use Rattle.prod_model.specs.Valid.{IsValidOrder};
ghost use Rattle.file_meaning.specs.Faults.{HasModelFault, HasOrderFault};
ghost use Rattle.file_meaning.specs.Refused.{IsRefusalOfFile};
ghost use Rattle.config_cli.specs.Files.{IsModelFile, IsOrderFile};
ghost use Rattle.config_cli.specs.Results.{IsConfigured};
ghost use Rattle.config_cli.specs.steps.Calls.{IsOfOutcome};
ghost use Rattle.config_cli.specs.steps.Fetched.{ForFile, HasKnownPlace, IsFetchOf, Refuses};

use crate::filtering::Filtering;
use crate::solved::preferred_outcome;
use crate::status::Status;
use crate::texts::refused_text;
use model_reader::{Refusal, read_model, too_long};
use order_reader::read_order;
use prod_model::{Order, Problem};
use seq_search::Alone;
use std::alloc::{AllocError, Global};

/// A file as it was read.
#[derive(Drop)]
pub enum Fetched {
    Bytes(Vec<u8>),
    /// It has more bytes than such a file may have.
    TooLong,
}

/// A status and the text that goes with it.
#[derive(Drop)]
pub struct Outcome {
    pub status: Status,
    pub text: Vec<u8>,
}

/// The problem of a model's file.
pub fn open_model(alloc: Global, file: Fetched) -> Result<Problem, Refusal>
    ensures model { IfOk result (λ p. ForFile (λ bytes. IsModelFile bytes p) file) }
    ensures fault { IfErr result
        (λ e. ForFile (λ bytes. IsRefusalOfFile HasModelFault bytes e) file) }
    ensures known { IfErr result HasKnownPlace }
{
    match file {
        Fetched::Bytes(bytes) => read_model(alloc, &bytes),
        Fetched::TooLong => Err(too_long(alloc)),
    }
}

/// The order of an order's file, for a problem.
pub fn open_order(alloc: Global, problem: &Problem, file: Fetched) -> Result<Order, Refusal>
    ensures valid { IfOk result (λ o. IsValidOrder problem.now o) }
    ensures order { IfOk result (λ o. ForFile (λ bytes. IsOrderFile problem.now bytes o) file) }
    ensures fault { IfErr result
        (λ e. ForFile (λ bytes. IsRefusalOfFile (HasOrderFault problem.now) bytes e) file) }
    ensures known { IfErr result HasKnownPlace }
{
    match file {
        Fetched::Bytes(bytes) => read_order(alloc, problem, &bytes),
        Fetched::TooLong => Err(too_long(alloc)),
    }
}

/// The line of a refused model or order, if there is memory.
pub fn refused(alloc: Global, file: &str, refusal: Refusal) -> Result<Outcome, AllocError>
    requires known { HasKnownPlace refusal }
    ensures line { IfOk result (λ a. Refuses file.now refusal a.status a.text.items) }
    ensures status { IfOk result (λ a. IsOfOutcome a.status) }
{
    match refusal {
        Refusal::Fault(fault) => Ok(Outcome {
            status: Status::Refused,
            text: refused_text(alloc, file, &fault)?,
        }),
        Refusal::Memory(e) => Err(e),
    }
}

/// What a model's and an order's file result in.
pub fn configured(alloc: Global, model: Fetched, order: Fetched) -> Result<Outcome, AllocError>
    ensures status { IfOk result (λ a. IsOfOutcome a.status) }
    ensures result { IfOk result (λ a. (m o : List ℕ) → IsFetchOf m model → IsFetchOf o order
        → IsConfigured m o a.status a.text.items) }
{
    let problem = match open_model(alloc, model) {
        Ok(problem) => problem,
        Err(refusal) => return refused(alloc, "model", refusal),
    };
    let order = match open_order(alloc, &problem, order) {
        Ok(order) => order,
        Err(refusal) => return refused(alloc, "order", refusal),
    };
    let solver = Alone::<Filtering>::new(alloc, &problem, &order)?;
    preferred_outcome(alloc, &problem, &order, solver)
}
