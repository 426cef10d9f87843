//! The first open port of a partial state.
ghost use Rattle.std.specs.Prelude.{◌≡◌, ◌≤◌, ℕ, length, IsTrue};
ghost use Rattle.std.specs.Option.{option_map};
ghost use Rattle.std.specs.List.{list_all};
ghost use Rattle.prod_model.specs.Forest.{is_leaf};
ghost use Rattle.state_space.specs.State.{IsState};
ghost use Rattle.state_space.specs.Generation.{first_open, first_open_from};

use crate::openings::Opening;
use crate::partial::Partial;
use crate::row::InstanceRow;
use prod_model::Problem;

impl Partial {
    /// The first port, by instance and then in the order of its type, that is not closed: the
    /// instance's number and the port's id. It and all ports before it belong to instances of one
    /// possible type. An instance that may be of several types, one of which has ports, ends the
    /// search. It takes no memory, and a few steps for each port before it.
    pub fn first_open(&self, problem: &Problem) -> Option<(u32, u32)>
        requires { IsState problem.now self.now }
        ensures { result
            ≡ option_map (λ at. (at.instance, at.port)) (first_open problem.now self.now) }
    {
        first_of(self.made.as_slice(), problem)
    }
}

/// The first open port of instances, numbered from 0.
fn first_of(rows: &[InstanceRow], problem: &Problem) -> Option<(u32, u32)>
    requires few { length rows.now ≤ 256 }
    requires leaves { IsTrue (list_all (λ x. list_all (is_leaf problem.now) x.kinds) rows.now) }
    ensures { result
        ≡ option_map (λ at. (at.instance, at.port)) (first_open_from problem.now 0 rows.now) }
{
    for (i, row) in rows.iter().enumerate() {
        match row.opening(problem) {
            Opening::Here(port) => return Some((i as u32, port)),
            Opening::Unsettled => return None,
            Opening::Later => {}
        }
    }
    None
}
