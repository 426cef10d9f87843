//! Whether a configuration satisfies a model.
ghost use Rattle.std.specs.Prelude.{◌≡◌, ◌↔◌, IsTrue};
ghost use Rattle.prod_model.specs.Valid.{IsValid};
ghost use Rattle.config_value.specs.Satisfies.{satisfies};
ghost use Rattle.config_value.specs.Spelled.{is_spelled};
ghost use Rattle.answer_check.specs.Codes.{false_rule_code, turn_of};
ghost use Rattle.answer_check.specs.declared.verdict.Verdict.TheVariants.{Satisfied, Broken};
ghost use Rattle.answer_check.specs.Breaks.{Tells};
ghost use Rattle.answer_check.specs.steps.Finds.{FindsBreakBelow};

use crate::codes;
use crate::links::{PortTest, broken_port};
use crate::parts::shared_part;
use crate::place::Place;
use crate::rules::false_rule;
use crate::sizes::{bad_count, other_root, too_many};
use crate::turns::out_of_turn;
use crate::values::bad_value;
use crate::verdict::Verdict;
use config_value::Configuration;
use prod_model::Problem;

/// Whether the configuration satisfies the model, and else the first test that it breaks. The tests
/// go in the order in which they are told, each in a pass or two over the instances or their links,
/// and the rules come last, when the shape is known.
pub fn check(problem: &Problem, c: &Configuration) -> Verdict
    requires { IsTrue (is_spelled problem.now c.now) }
    ensures satisfied { (result ≡ Satisfied) ↔ IsTrue (satisfies problem.now c.now) }
    ensures broken { Tells problem.now c.now result }
{
    // Its contract tells that the model is valid.
    let _model = problem.model();
    if let Some(verdict) = broken_before_rules(problem, c) {
        return verdict;
    }
    match false_rule(problem, c) {
        Some(place) => broken(codes::FALSE_RULE, place),
        None => Verdict::Satisfied,
    }
}

/// The first test that is broken of those before the rules.
fn broken_before_rules(problem: &Problem, c: &Configuration) -> Option<Verdict>
    requires valid { IsValid problem.now }
    requires spelled { IsTrue (is_spelled problem.now c.now) }
    ensures { FindsBreakBelow problem.now c.now (turn_of false_rule_code) result }
{
    if let Some(place) = too_many(problem, c) {
        return Some(broken(codes::TOO_MANY, place));
    }
    if let Some(place) = other_root(problem, c) {
        return Some(broken(codes::OTHER_ROOT, place));
    }
    if let Some(place) = bad_value(problem, c) {
        return Some(broken(codes::BAD_VALUE, place));
    }
    if let Some(place) = broken_port(problem, c, PortTest::Leads) {
        return Some(broken(codes::NO_INSTANCE, place));
    }
    if let Some(place) = broken_port(problem, c, PortTest::OnTarget) {
        return Some(broken(codes::OFF_TARGET, place));
    }
    if let Some(place) = broken_port(problem, c, PortTest::Number) {
        return Some(broken(codes::BAD_NUMBER, place));
    }
    if let Some(place) = shared_part(problem, c) {
        return Some(broken(codes::SHARED_PART, place));
    }
    if let Some(place) = broken_port(problem, c, PortTest::LinksBack) {
        return Some(broken(codes::NOT_LINKED_BACK, place));
    }
    if let Some(place) = out_of_turn(problem, c) {
        return Some(broken(codes::MISNUMBERED, place));
    }
    if let Some(place) = bad_count(problem, c) {
        return Some(broken(codes::BAD_COUNT, place));
    }
    None
}

fn broken(code: u32, place: Place) -> Verdict
    ensures { result ≡ Broken code place.instance place.item }
{
    Verdict::Broken {
        code,
        instance: place.instance,
        item: place.item,
    }
}
