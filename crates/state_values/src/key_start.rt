//! The key start of a state beside the key of a configuration.
ghost use Rattle.std.specs.Prelude.{◌≡◌, ◌≤◌, length};
ghost use Rattle.state_space.specs.State.{IsState};
ghost use Rattle.state_values.specs.KeyStart.{key_start_order};

use crate::key_cursor::KeyCursor;
use crate::key_start_cursor::KeyStartCursor;
use config_value::Configuration;
use partial_state::Partial;
use prod_model::Problem;
use std::cmp::Ordering;

/// Compares the key start of a state with the key of a configuration, number by number. A proper
/// prefix comes first. Where it is `Greater`, the key of each configuration that the state covers
/// comes after this one. It reads both in one pass, and takes no memory.
pub fn key_start_cmp(problem: &Problem, p: &Partial, c: &Configuration) -> Ordering
    requires state { IsState problem.now p.now }
    requires few { length c.now ≤ 256 }
    ensures { result ≡ key_start_order problem.now p.now c.now }
{
    let mut start = KeyStartCursor::at_start(problem, p);
    let mut key = KeyCursor::at_start(c);
    loop {
        match (start.next(), key.next()) {
            (None, None) => return Ordering::Equal,
            (None, Some(_)) => return Ordering::Less,
            (Some(_), None) => return Ordering::Greater,
            (Some(a), Some(b)) => {
                if a != b {
                    return a.cmp(&b);
                }
            }
        }
    }
}
