//! Whether types are their own ancestors.
ghost use Rattle.std.specs.Prelude.{◌≡◌, ◌<◌, ◌==◌, ◌^◌, not, length, drop};
ghost use Rattle.std.specs.List.{list_any};
ghost use Rattle.prod_model.specs.Forest.{is_in_circle};
ghost use Rattle.type_taxonomy.specs.steps.Entries.{AreLines};
ghost use Rattle.type_taxonomy.specs.steps.FirstFailing.{IsFirstFailing};

use prod_model::{Items, Model};

/// The first type that is its own ancestor. It takes one step a member of a line.
pub(crate) fn first_in_circle(model: &Model, lines: &[Items<u32>]) -> Option<u32>
    requires few { length model.now.types < 2 ^ 32 }
    requires lines { AreLines model.now.types lines.now }
    ensures { IsFirstFailing (λ t. not (is_in_circle model.now t)) (length model.now.types) result }
{
    for t in 0..model.types.len() {
        if is_in_circle(model, lines, t as u32) {
            return Some(t as u32);
        }
    }
    None
}

/// Whether the type is its own ancestor.
fn is_in_circle(model: &Model, lines: &[Items<u32>], t: u32) -> bool
    requires lines { AreLines model.now.types lines.now }
    requires known { t < length model.now.types }
    ensures { result ≡ is_in_circle model.now t }
{
    is_below_itself(lines[t as usize].as_slice(), t)
}

/// Whether the type is on the line above its first member.
fn is_below_itself(line: &[u32], t: u32) -> bool
    ensures { result ≡ list_any (λ u. u == t) (drop 1 line.now) }
{
    line.iter().skip(1).any(|u| *u == t)
}
