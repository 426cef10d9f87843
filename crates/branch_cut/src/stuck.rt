//! Instances that have to be made, and states in which none is left.
ghost use Rattle.std.specs.Prelude.{◌≡◌, ℕ, IsTrue, List, false, Some};
ghost use Rattle.std.specs.Option.{ForSome, is_some};
ghost use Rattle.config_value.specs.declared.configuration.Instance.{Instance};
ghost use Rattle.config_value.specs.Satisfies.{satisfies};
ghost use Rattle.state_space.specs.State.{IsState};
ghost use Rattle.state_space.specs.Covers.{Covers};
ghost use Rattle.state_space.specs.Generation.{first_open, owes_instance};
ghost use Rattle.branch_cut.specs.Branching.{is_stuck_in};

use partial_state::Partial;
use prod_model::Problem;

/// Whether an instance has to be made, and all that the model has are made. It takes no memory, and
/// a few steps for each port up to the first open one.
pub fn is_stuck(problem: &Problem, p: &Partial) -> bool
    requires { IsState problem.now p.now }
    ensures stuck { result ≡ is_stuck_in problem.now p.now }
    ensures covers_none { IsTrue result → (c : List Instance) → Covers problem.now p.now c
        → satisfies problem.now c ≡ false }
{
    // The model is valid.
    let most = problem.model().instances;
    p.made() == most && owed_port(problem, p).is_some()
}

/// The first open port, by its instance and its id, where an instance has to be made for it.
pub(crate) fn owed_port(problem: &Problem, p: &Partial) -> Option<(u32, u32)>
    requires { IsState problem.now p.now }
    ensures owed { is_some result ≡ owes_instance problem.now p.now }
    ensures open { ForSome result (λ e. first_open problem.now p.now
        ≡ Some (record { instance = e.0; port = e.1 })) }
{
    match p.first_open(problem) {
        Some((instance, port)) => {
            if p.port(instance, port).fresh_low == 0 {
                return None;
            }
            Some((instance, port))
        }
        None => None,
    }
}
