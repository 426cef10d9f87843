//! Whether a configuration is wanted of a job that asks for nothing beside its model.
ghost use Rattle.std.specs.Prelude.{◌≡◌, IsTrue, true, false};
ghost use Rattle.config_value.specs.Spelled.{is_spelled};
ghost use Rattle.reason_trail.specs.Jobs.{IsWanted};
ghost use Rattle.worked_racks.specs.Goals.{goal_of};

use answer_check::{Verdict, check};
use config_value::Configuration;
use reason_trail::Job;

/// Whether a configuration satisfies the model, where there are no requests.
pub fn is_wanted(job: &Job, c: &Configuration) -> bool
    requires goal { job.now.goal ≡ goal_of job.now.order true false }
    requires spelled { IsTrue (is_spelled job.now.model c.now) }
    ensures { IsTrue result → IsWanted job.now c.now }
{
    let problem = job.problem();
    if !job.order().requests.as_slice().is_empty() {
        return false;
    }
    match check(problem, c) {
        Verdict::Satisfied => true,
        _ => false,
    }
}
