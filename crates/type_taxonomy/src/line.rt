//! The line of each type: the type, its parent, that one's parent and so on.
ghost use Rattle.std.specs.Prelude.{◌≡◌, ◌≢◌, ◌==◌, ◌<◌, ◌≤◌, ◌+◌, length, map, IfOk, All, Contains};
ghost use Rattle.std.specs.List.{list_any};
ghost use Rattle.prod_model.specs.Forest.{line};
ghost use Rattle.type_taxonomy.specs.steps.Entries.{AreLines};

use prod_model::{Items, TypeDecl};
use std::alloc::{AllocError, Global};

/// The lines of all types, one member more than there are types at most. It takes their number
/// times the greatest depth.
pub(crate) fn all_lines(alloc: Global, types: &[TypeDecl]) -> Result<Items<Items<u32>>, AllocError>
    requires { length types.now < 1000 }
    ensures { IfOk result (AreLines types.now) }
{
    let mut lines = Items::new(alloc);
    for t in 0..types.len() {
        lines.push(line_of(alloc, types, t as u32)?)?;
    }
    Ok(lines)
}

fn line_of(alloc: Global, types: &[TypeDecl], t: u32) -> Result<Items<u32>, AllocError>
    requires { length types.now < 1000 }
    ensures { IfOk result (λ members. members ≡ line types.now t) }
{
    let most = types.len() + 1;
    let mut members = Items::new(alloc);
    let mut next = Some(t);
    for _ in 0..most {
        let Some(u) = next else {
            return Ok(members);
        };
        let Some(d) = types.get(u as usize) else {
            return Ok(members);
        };
        members.push(u)?;
        next = d.parent;
    }
    Ok(members)
}

/// The number of types on the longest line.
pub(crate) fn depth(lines: &[Items<u32>]) -> usize
    ensures longest { All (λ line. length line ≤ result) lines.now }
    ensures reached { result ≢ 0 → Contains (map length lines.now) result }
{
    lines.iter().map(|line| line.len()).max().unwrap_or(0)
}

/// Whether the number is one of the line.
pub(crate) fn is_in(line: &[u32], t: u32) -> bool
    ensures { result ≡ list_any (λ u. u == t) line.now }
{
    line.iter().any(|u| *u == t)
}
