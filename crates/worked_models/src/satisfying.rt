//! Problems, orders and configurations from their texts.
ghost use Rattle.std.specs.Prelude.{IfOk, IsTrue};
ghost use Rattle.config_value.specs.Shaped.{is_shaped};
ghost use Rattle.config_value.specs.Spelled.{is_spelled};
ghost use Rattle.prod_model.specs.Valid.{IsValidOrder};

use answer_check::{Verdict, check};
use canonical_form::read_answer;
use config_value::Configuration;
use model_reader::read_model;
use order_reader::read_order;
use prod_model::{Order, Problem};
use std::alloc::Global;
use std::test::Fail;

/// The problem of a model file.
pub fn problem_of(alloc: Global, model: &str) -> Result<Problem, Fail> {
    Ok(read_model(alloc, model.as_bytes())?)
}

/// The order of an order file.
pub fn order_of(alloc: Global, problem: &Problem, text: &str) -> Result<Order, Fail>
    ensures { IfOk result (λ o. IsValidOrder problem.now o) }
{
    Ok(read_order(alloc, problem, text.as_bytes())?)
}

/// The configuration whose answer has these lines.
pub fn answer_of(alloc: Global, problem: &Problem, lines: &str) -> Result<Configuration, Fail>
    ensures { IfOk result (λ c. IsTrue (is_spelled problem.now c)) }
{
    Ok(read_answer(alloc, problem, lines.as_bytes())?)
}

/// The configuration of an answer, if it is found to satisfy the model.
pub fn satisfying(alloc: Global, problem: &Problem, lines: &str) -> Result<Configuration, Fail>
    ensures { IfOk result (λ c. IsTrue (is_shaped problem.now c)) }
{
    let c = answer_of(alloc, problem, lines)?;
    match check(problem, &c) {
        Verdict::Satisfied => Ok(c),
        broken => Err(Fail::from(broken)),
    }
}
