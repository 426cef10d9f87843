//! The choice of a branch.
ghost use Rattle.std.specs.Prelude.{◌≡◌, ◌≢◌, ◌↔◌, ℕ, ◌<◌, ◌^◌, ◌∷◌, [], IsTrue, IsSome, Some, None, false};
ghost use Rattle.std.specs.Option.{ForSome};
ghost use Rattle.std.specs.List.{list_all};
ghost use Rattle.prod_model.specs.Taxonomy.{attributes_at, ports_at};
ghost use Rattle.state_space.specs.State.{IsState, number_made, kinds_at};
ghost use Rattle.state_space.specs.Generation.{owes_instance};
ghost use Rattle.state_space.specs.Whole.{is_whole};
ghost use Rattle.branch_cut.specs.Branching.{is_stuck_in, IsChoice, fits_either, entails_neither, IsBranch};
ghost use Rattle.branch_cut.specs.steps.Fixed.{has_one_at, is_decided_at, IsFixed};

use crate::branch::Branch;
use crate::openings::{link_branch, value_branch};
use crate::stuck::owed_port;
use config_value::Literal;
use partial_state::Partial;
use prod_model::Problem;

/// A choice that is left open in a state that isn't stuck; none in a whole state. Where an instance
/// has to be made, it makes the next one, and else it takes the lowest-numbered instance that isn't
/// fixed: first its type, the lesser number first; then its attributes, the least value first; then
/// its ports, a link before no link. It takes no memory, and a few steps for each attribute and port
/// of each instance.
pub fn choose(problem: &Problem, p: &Partial) -> Option<Branch>
    requires state { IsState problem.now p.now }
    requires room { is_stuck_in problem.now p.now ≡ false }
    ensures choice { ForSome result (IsChoice problem.now p.now) }
    ensures whole { (result ≡ None) ↔ IsTrue (is_whole p.now) }
    ensures fits { ForSome result (λ b. IsTrue (fits_either problem.now p.now b)) }
    ensures unknown { ForSome result (λ b. IsTrue (entails_neither problem.now p.now b)) }
{
    if p.is_whole() {
        return None;
    }
    match owed_branch(problem, p) {
        Some(branch) => Some(branch),
        None => lowest_branch(problem, p),
    }
}

/// The next instance is made, or the first open port links no later one, where one has to be made
/// for it.
fn owed_branch(problem: &Problem, p: &Partial) -> Option<Branch>
    requires state { IsState problem.now p.now }
    requires room { is_stuck_in problem.now p.now ≡ false }
    ensures branch { ForSome result (IsBranch problem.now p.now) }
    ensures none { result ≡ None → owes_instance problem.now p.now ≡ false }
{
    // The model is valid.
    let _ = problem.model();
    let next = p.made();
    match owed_port(problem, p) {
        Some((instance, port)) => Some(Branch {
            first: Literal::Made { instance: next },
            second: Literal::FreshAtMost {
                instance,
                port,
                from: next,
                count: 0,
            },
        }),
        None => None,
    }
}

/// A branch on the lowest-numbered instance that isn't fixed.
fn lowest_branch(problem: &Problem, p: &Partial) -> Option<Branch>
    requires { IsState problem.now p.now }
    ensures branch { ForSome result (IsBranch problem.now p.now) }
    ensures none { result ≡ None → (i : ℕ) → i < number_made p.now → IsFixed problem.now p.now i }
{
    for i in 0..p.made() {
        let branch = branch_at(problem, p, i);
        if branch.is_some() {
            return branch;
        }
    }
    None
}

/// A branch on an instance: on its type, else on an attribute, else on a port.
fn branch_at(problem: &Problem, p: &Partial, i: u32) -> Option<Branch>
    requires state { IsState problem.now p.now }
    requires made { i < number_made p.now }
    ensures branch { ForSome result (IsBranch problem.now p.now) }
    ensures none { result ≡ None → IsFixed problem.now p.now i }
{
    let kinds = p.kinds(i);
    match sole(kinds) {
        None => {
            let kind = kinds.trailing_zeros();
            Some(Branch {
                first: Literal::Kind { instance: i, kind },
                second: Literal::NotKind { instance: i, kind },
            })
        }
        Some(kind) => {
            match attribute_branch(problem, p, i, kind) {
                Some(branch) => Some(branch),
                None => port_branch(problem, p, i, kind),
            }
        }
    }
}

/// The only type of a mask, where there is one alone.
fn sole(kinds: u128) -> Option<u32>
    requires { kinds ≢ 0 }
    ensures { (t : ℕ) → (result ≡ Some t) ↔ (kinds ≡ 2 ^ t) }
{
    let first = kinds.trailing_zeros();
    if kinds == 1u128 << first {
        Some(first)
    } else {
        None
    }
}

/// A branch on the first attribute of the instance's type that has several values.
fn attribute_branch(problem: &Problem, p: &Partial, i: u32, kind: u32) -> Option<Branch>
    requires state { IsState problem.now p.now }
    requires sole { kinds_at p.now i ≡ kind ∷ [] }
    ensures branch { ForSome result (IsBranch problem.now p.now) }
    ensures none { result ≡ None
        → IsTrue (list_all (λ a. has_one_at p.now i a.id) (attributes_at problem.now kind)) }
{
    for attribute in problem.attrs_of(kind) {
        let branch = value_branch(p, i, attribute.id);
        if branch.is_some() {
            return branch;
        }
    }
    None
}

/// A branch on the first port of the instance's type that isn't decided.
fn port_branch(problem: &Problem, p: &Partial, i: u32, kind: u32) -> Option<Branch>
    requires state { IsState problem.now p.now }
    requires sole { kinds_at p.now i ≡ kind ∷ [] }
    ensures branch { ForSome result (IsBranch problem.now p.now) }
    ensures none { result ≡ None
        → IsTrue (list_all (λ q. is_decided_at p.now i q.id) (ports_at problem.now kind)) }
{
    for port in problem.ports_of(kind) {
        let branch = link_branch(p, i, port.id);
        if branch.is_some() {
            return branch;
        }
    }
    None
}
