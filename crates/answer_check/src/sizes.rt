//! The number of instances, the root product, and the numbers of instances under types.
ghost use Rattle.std.specs.Prelude.{◌≡◌, ◌≤◌, IsTrue, length, not, position};
ghost use Rattle.std.specs.List.{count_by};
ghost use Rattle.prod_model.specs.Limits.{is_between as is_between_of};
ghost use Rattle.prod_model.specs.Valid.{IsValid};
ghost use Rattle.config_value.specs.Value.{under};
ghost use Rattle.config_value.specs.Spelled.{is_spelled};
ghost use Rattle.answer_check.specs.Codes.{too_many_code, other_root_code, bad_count_code};
ghost use Rattle.answer_check.specs.steps.Finds.{BreaksAt, FindsPlace};

use crate::instances::{count_under, is_instance_under};
use crate::links::is_between;
use crate::place::Place;
use config_value::Configuration;
use prod_model::Problem;

/// Whether there are more instances than the model allows. The first one too many stands for them.
/// One comparison.
pub(crate) fn too_many(problem: &Problem, c: &Configuration) -> Option<Place>
    ensures { FindsPlace (BreaksAt problem.now c.now too_many_code) result }
{
    let most = problem.model().instances;
    if c.len() <= most as usize {
        return None;
    }
    Some(Place {
        instance: most,
        item: 0,
    })
}

/// Whether instance 0 is not under the root type. One look-up.
pub(crate) fn other_root(problem: &Problem, c: &Configuration) -> Option<Place>
    ensures { FindsPlace (BreaksAt problem.now c.now other_root_code) result }
{
    if is_instance_under(problem, c, problem.model().root, 0) {
        return None;
    }
    Some(Place {
        instance: 0,
        item: 0,
    })
}

/// The first entry of `bounds` that doesn't allow as many instances as are under its type. One pass
/// over the instances for each entry, of which there are at most 128.
pub(crate) fn bad_count(problem: &Problem, c: &Configuration) -> Option<Place>
    requires valid { IsValid problem.now }
    requires spelled { IsTrue (is_spelled problem.now c.now) }
    ensures { FindsPlace (BreaksAt problem.now c.now bad_count_code) result }
{
    let item = place_of_bad_count(problem, c)?;
    Some(Place {
        instance: 0,
        item: item as u32,
    })
}

fn place_of_bad_count(problem: &Problem, c: &Configuration) -> Option<usize>
    requires { length c.now ≤ 256 }
    ensures { result ≡ position (λ n. not (is_between_of n.low n.high
        (count_by (under problem.now n.kind) c.now))) problem.now.bounds }
{
    let bounds = problem.model().bounds.as_slice();
    bounds.iter().position(|n| !is_between(n.low, n.high, count_under(problem, c, n.kind)))
}
