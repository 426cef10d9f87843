//! What truths are in a state: of a set of instances, those at which an expression is true, and
//! those at which it is false. A truth about linked instances asks for its part at all of them
//! together, so that no instance is asked twice for one part.
ghost use Rattle.std.specs.Prelude.{◌≡◌, ◌<◌, map, IsTrue, IsSome, ℕ};
ghost use Rattle.instance_set.specs.InstanceSets.{is_member};
ghost use Rattle.prod_model.specs.declared.expr.Expr.TheViews.{out-Expr};
ghost use Rattle.prod_model.specs.ExprBounds.{bounds_at, is_truth};
ghost use Rattle.state_space.specs.State.{IsState, number_made, domain_at};
ghost use Rattle.state_values.specs.Kleene.{all_of, any_of};
ghost use Rattle.state_values.specs.Seen.{truth};
ghost use Rattle.state_values.specs.Sights.{is_surely_under, has_word as has_word_of};
ghost use Rattle.state_values.specs.Told.{told};
ghost use Rattle.state_values.specs.steps.Parts.{Stands, IsTruth, AreTruths};
ghost use Rattle.state_values.specs.steps.Truths.{Tells, StandAmong};
ghost use Rattle.state_values.specs.steps.Truths.{simple_truth as simple_truth_of};

use crate::kleene::{Kleene, related};
use crate::leaves::port_at;
use crate::links::{all_linked, linkable};
use crate::numbers::number_in;
use crate::shares::under;
use crate::truth_sets::Truths;
use instance_set::InstanceSet;
use partial_state::Partial;
use prod_model::{Expr, Problem};

/// What a truth is that stands at a type, at a made instance of whose possible types each is under
/// that type. Each part is gone over once, for all instances at which it is asked; a truth about
/// linked instances takes a step for each instance that has the port.
pub fn truth_at(problem: &Problem, p: &Partial, e: &Expr, kind: u32, i: u32) -> Kleene
    requires state { IsState problem.now p.now }
    requires made { i < number_made p.now }
    requires under { IsTrue (is_surely_under problem.now p.now kind i) }
    requires truth { IsTrue (is_truth (bounds_at problem.now e.now kind)) }
    ensures { result ≡ told (truth problem.now p.now kind i e.now) }
{
    // Its contract tells that the model is valid.
    let _model = problem.model();
    let mut alone = InstanceSet::empty();
    alone.insert(i);
    truths_among(problem, p, kind, alone, e).at(i)
}

/// Of a set of instances, those at which an expression is true, and those at which it is false.
#[cycle(truths)]
pub(crate) fn truths_among(
    problem: &Problem,
    p: &Partial,
    kind: u32,
    among: InstanceSet,
    e: &Expr,
) -> Truths
    requires state { IsState problem.now p.now }
    requires stand { StandAmong problem.now p.now kind among }
    requires truth { IsTruth problem.now kind e.now }
    ensures { Tells among (λ i. truth problem.now p.now kind i e.now) result }
{
    // Its contract tells that the model is valid.
    let _model = problem.model();
    match e {
        Expr::And(args) => all_among(problem, p, kind, among, args.as_slice()),
        Expr::Or(args) => any_among(problem, p, kind, among, args.as_slice()),
        Expr::Not(a) => truths_among(problem, p, kind, among, a.get()).negated(),
        Expr::If(a, b) => {
            let premise = truths_among(problem, p, kind, among, a.get());
            let conclusion = truths_among(problem, p, kind, among, b.get());
            premise.negated().either(conclusion)
        }
        Expr::All(port, a) => {
            let target = port_at(problem, kind, *port).target;
            let linked = linkable(problem, p, among, *port, target);
            let found = truths_among(problem, p, target, linked, a.get());
            all_linked(p, among, *port, found)
        }
        Expr::Any(port, a) => {
            let target = port_at(problem, kind, *port).target;
            let linked = linkable(problem, p, among, *port, target);
            let found = truths_among(problem, p, target, linked, a.get());
            all_linked(p, among, *port, found.negated()).negated()
        }
        _ => simple_among(problem, p, kind, among, e),
    }
}

/// Whether all arguments are true.
#[cycle(truths)]
fn all_among(problem: &Problem, p: &Partial, kind: u32, among: InstanceSet, args: &[Expr]) -> Truths
    requires state { IsState problem.now p.now }
    requires stand { StandAmong problem.now p.now kind among }
    requires truths { AreTruths problem.now kind args.now }
    ensures { Tells among (λ i. all_of (map (truth problem.now p.now kind i) args.now)) result }
{
    let mut all = Truths::of_all(among);
    for e in args {
        all = all.both(truths_among(problem, p, kind, among, e));
    }
    all
}

/// Whether some argument is true.
#[cycle(truths)]
fn any_among(problem: &Problem, p: &Partial, kind: u32, among: InstanceSet, args: &[Expr]) -> Truths
    requires state { IsState problem.now p.now }
    requires stand { StandAmong problem.now p.now kind among }
    requires truths { AreTruths problem.now kind args.now }
    ensures { Tells among (λ i. any_of (map (truth problem.now p.now kind i) args.now)) result }
{
    let mut any = Truths::of_all(among).negated();
    for e in args {
        any = any.either(truths_among(problem, p, kind, among, e));
    }
    any
}

/// Where a truth without truths in it is true, and where it is false.
fn simple_among(problem: &Problem, p: &Partial, kind: u32, among: InstanceSet, e: &Expr) -> Truths
    requires stand { StandAmong problem.now p.now kind among }
    requires truth { IsTruth problem.now kind e.now }
    ensures { Tells among (λ i. simple_truth_of problem.now p.now kind i (out-Expr e.now)) result }
{
    let mut found = Truths::open();
    let mut from = 0;
    while let Some(i) = among.least_from(from) {
        found = found.with(i, simple_truth(problem, p, kind, i, e));
        from = i + 1;
    }
    found
}

/// What a truth without truths in it is at an instance.
fn simple_truth(problem: &Problem, p: &Partial, kind: u32, i: u32, e: &Expr) -> Kleene
    requires stands { Stands problem.now p.now kind i }
    requires truth { IsTruth problem.now kind e.now }
    ensures { result ≡ told (simple_truth_of problem.now p.now kind i (out-Expr e.now)) }
{
    // Its contract tells that the model is valid.
    let _model = problem.model();
    match e {
        Expr::Cmp(r, a, b) => {
            let first = number_in(problem, p, kind, i, a.get());
            let second = number_in(problem, p, kind, i, b.get());
            related(*r, first.seen, second.seen)
        }
        Expr::Is(a, word) => has_word(p, i, *a, *word),
        Expr::Kind(of) => under(problem, p, *of, i),
        _ => Kleene::False,
    }
}

/// Whether an attribute has a word as its value.
fn has_word(p: &Partial, i: u32, a: u32, word: u32) -> Kleene
    requires { IsSome (domain_at p.now i a) }
    ensures { result ≡ told (has_word_of p.now i a word) }
{
    let value = i64::from(word);
    if p.low(i, a) == value && p.high(i, a) == value {
        Kleene::True
    } else if p.allows(i, a, value) {
        Kleene::Open
    } else {
        Kleene::False
    }
}
