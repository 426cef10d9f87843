//! Which literals hold.
ghost use Rattle.std.specs.Prelude.{◌≡◌};
ghost use Rattle.config_value.specs.Literals.{has_literal, leads_to as leads_to_of, count_from as count_from_of};

use crate::instances::{is_made, is_under, links_at, value_at};
use config_value::{Configuration, Literal};
use prod_model::Problem;

/// Whether the literal holds in a configuration, of any shape: only where there is the instance, and
/// its type has the attribute or port that is named. It takes no memory, and time for one pass over
/// the attributes or ports of a type and over the links of a port.
#[tactic(auto, unfolding(config_value::specs::Literals::has_literal), using(crate::proofs::ToldLaws::value_that, crate::proofs::ToldLaws::links_that))]
pub fn holds_in(problem: &Problem, l: &Literal, c: &Configuration) -> bool
    ensures { result ≡ has_literal problem.now c.now l.now }
{
    match *l {
        Literal::Made { instance } => is_made(c, instance),
        Literal::Kind { instance, kind } => is_under(problem, c, kind, instance),
        Literal::NotKind { instance, kind } => {
            is_made(c, instance) && !is_under(problem, c, kind, instance)
        }
        Literal::AtMost {
            instance,
            attr,
            value,
        } => { value_at(problem, c, instance, attr).is_some_and(|v| v <= value) }
        Literal::AtLeast {
            instance,
            attr,
            value,
        } => { value_at(problem, c, instance, attr).is_some_and(|v| value <= v) }
        Literal::ValueIsNot {
            instance,
            attr,
            value,
        } => { value_at(problem, c, instance, attr).is_some_and(|v| v != value) }
        Literal::Linked { instance, port, to } => {
            links_at(problem, c, instance, port).is_some_and(|links| leads_to(to, links))
        }
        Literal::NotLinked { instance, port, to } => {
            links_at(problem, c, instance, port).is_some_and(|links| !leads_to(to, links))
        }
        Literal::LinksAtMost {
            instance,
            port,
            count,
        } => {
            links_at(problem, c, instance, port).is_some_and(|links| links.len() <= count as usize)
        }
        Literal::LinksAtLeast {
            instance,
            port,
            count,
        } => {
            links_at(problem, c, instance, port).is_some_and(|links| count as usize <= links.len())
        }
        Literal::FreshAtMost {
            instance,
            port,
            from,
            count,
        } => {
            match links_at(problem, c, instance, port) {
                Some(links) => count_from(from, links) <= count as usize,
                None => false,
            }
        }
        Literal::FreshAtLeast {
            instance,
            port,
            from,
            count,
        } => {
            match links_at(problem, c, instance, port) {
                Some(links) => count as usize <= count_from(from, links),
                None => false,
            }
        }
    }
}

/// Whether one of the links leads to instance `to`.
fn leads_to(to: u32, links: &[u32]) -> bool
    ensures { result ≡ leads_to_of to links.now }
{
    links.iter().any(|k| *k == to)
}

/// How many of the links lead to instances numbered `from` or more.
fn count_from(from: u32, links: &[u32]) -> usize
    ensures { result ≡ count_from_of from links.now }
{
    links.iter().filter(|k| from <= **k).count()
}
