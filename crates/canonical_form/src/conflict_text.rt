//! Writes the text of a conflict.
ghost use Rattle.std.specs.Prelude.{◌≡◌, ◌<◌, ◌++◌, nat_lt, length, IsTrue, IfOk, OnOk};
ghost use Rattle.std.specs.List.{list_all};
ghost use Rattle.config_value.specs.Shaped.{ascends};
ghost use Rattle.canonical_form.specs.ConflictText.{request_name, request_text, conflict_text};

use crate::numbers::put_number;
use prod_model::Order;
use std::alloc::{AllocError, Global};

/// The text of a conflict of the requests at these places: how many they are, and then a line for
/// each. It goes once over them, and fails only where memory runs out.
#[tactic(auto, unfolding(crate::specs::ConflictText::conflict_text))]
pub fn write_conflict(alloc: Global, order: &Order, members: &[u32]) -> Result<Vec<u8>, AllocError>
    // The places ascend strictly,
    requires ascending { IsTrue (ascends members.now) }
    // and each is below the number of requests.
    requires within { IsTrue (list_all (λ k. nat_lt k (length order.now.requests)) members.now) }
    ensures { IfOk result (λ text. text.items ≡ conflict_text order.now members.now) }
{
    let mut out = Vec::from_slice(alloc, b"conflict ")?;
    put_number(&mut out, members.len() as u64)?;
    out.push(b'\n')?;
    for k in members {
        put_request(&mut out, order, *k)?;
    }
    Ok(out)
}

/// Appends the line of one request.
fn put_request(out: &mut Vec<u8>, order: &Order, k: u32) -> Result<(), AllocError>
    requires { k < length order.now.requests }
    ensures { OnOk result (out.new.items ≡ out.old.items ++ request_text order.now k) }
{
    put_number(out, u64::from(k) + 1)?;
    out.push(b' ')?;
    out.extend_from_slice(name_of(order, k))?;
    out.push(b'\n')?;
    Ok(())
}

/// The name of a request.
fn name_of(order: &Order, k: u32) -> &[u8]
    requires { k < length order.now.requests }
    ensures { result.now ≡ request_name order.now k }
{
    order.requests.as_slice()[k as usize].name.bytes()
}

#[cfg(test)]
mod tests {
    use super::*;
    use prod_model::{Expr, Items, Name, Request};
    use std::test::Fail;

    fn order(alloc: Global) -> Result<Order, AllocError>
        ensures { IfOk result (λ o. length o.requests ≡ 2) }
    {
        let mut requests = Items::new(alloc);
        let few = Name::from_bytes(alloc, b"few")?;
        requests.push(Request {
            name: few,
            holds: Expr::Kind(0),
        })?;
        let strong = Name::from_bytes(alloc, b"strong")?;
        requests.push(Request {
            name: strong,
            holds: Expr::Kind(0),
        })?;
        let criteria = Items::new(alloc);
        Ok(Order { requests, criteria })
    }

    #[test]
    fn names_each_request(rt: HostRuntime) -> Result<(), Fail> {
        let order = order(rt.alloc())?;
        let none = write_conflict(rt.alloc(), &order, &[])?;
        assert_eq!(rt; none.as_slice(), b"conflict 0\n".as_slice());
        let both = write_conflict(rt.alloc(), &order, &[0, 1])?;
        assert_eq!(rt;
            both.as_slice(),
            b"conflict 2\n1 few\n2 strong\n".as_slice()
        );
        let last = write_conflict(rt.alloc(), &order, &[1])?;
        assert_eq!(rt; last.as_slice(), b"conflict 1\n2 strong\n".as_slice());
        Ok(())
    }
}
