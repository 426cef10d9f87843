//! Branches on an attribute or a port of one instance.
ghost use Rattle.std.specs.Prelude.{◌≡◌, IsTrue, IsSome, None};
ghost use Rattle.std.specs.Option.{ForSome};
ghost use Rattle.state_space.specs.State.{domain_at, port_at};
ghost use Rattle.branch_cut.specs.steps.Fixed.{has_one_at, is_decided_at, SplitsValues, SplitsPort};

use crate::branch::Branch;
use config_value::Literal;
use partial_state::Partial;

/// The attribute has the least value that is left, or a greater one, where there are several.
pub(crate) fn value_branch(p: &Partial, instance: u32, attr: u32) -> Option<Branch>
    requires { IsSome (domain_at p.now instance attr) }
    ensures splits { ForSome result (SplitsValues p.now instance attr) }
    ensures one { result ≡ None → IsTrue (has_one_at p.now instance attr) }
{
    let value = p.low(instance, attr);
    if p.high(instance, attr) <= value {
        return None;
    }
    Some(Branch {
        first: Literal::AtMost {
            instance,
            attr,
            value,
        },
        second: Literal::AtLeast {
            instance,
            attr,
            value: value + 1,
        },
    })
}

/// The least possible link that isn't required is there or not; where there is none, the port has
/// more links to later instances than it must, or not.
pub(crate) fn link_branch(p: &Partial, instance: u32, port: u32) -> Option<Branch>
    requires { IsSome (port_at p.now instance port) }
    ensures splits { ForSome result (SplitsPort p.now instance port) }
    ensures decided { result ≡ None → IsTrue (is_decided_at p.now instance port) }
{
    let links = p.port(instance, port);
    if let Some(to) = links.possible.difference(links.required).least_from(0) {
        return Some(Branch {
            first: Literal::Linked { instance, port, to },
            second: Literal::NotLinked { instance, port, to },
        });
    }
    let count = links.fresh_low;
    if links.fresh_high <= count {
        return None;
    }
    let from = p.made();
    Some(Branch {
        first: Literal::FreshAtLeast {
            instance,
            port,
            from,
            count: count + 1,
        },
        second: Literal::FreshAtMost {
            instance,
            port,
            from,
            count,
        },
    })
}
