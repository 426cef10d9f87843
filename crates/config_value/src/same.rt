//! Whether configurations are the same, instance by instance. `==` can't be derived here, since
//! `Items` has none.
ghost use Rattle.std.specs.Prelude.{◌≡◌, ◌↔◌, IsTrue};

use crate::configuration::Instance;
use prod_model::Items;

/// Whether both lists have the same instances, in order.
pub(crate) fn same_instances(a: &[Instance], b: &[Instance]) -> bool
    ensures { IsTrue result ↔ (a.now ≡ b.now) }
{
    if a.len() != b.len() {
        return false;
    }
    for i in 0..a.len() {
        if !same_instance(&a[i], &b[i]) {
            return false;
        }
    }
    true
}

fn same_instance(x: &Instance, y: &Instance) -> bool
    ensures { IsTrue result ↔ (x.now ≡ y.now) }
{
    x.kind == y.kind
        && same_values(x.values.as_slice(), y.values.as_slice())
        && same_links(x.links.as_slice(), y.links.as_slice())
}

fn same_values(a: &[i64], b: &[i64]) -> bool
    ensures { IsTrue result ↔ (a.now ≡ b.now) }
{
    if a.len() != b.len() {
        return false;
    }
    for k in 0..a.len() {
        if a[k] != b[k] {
            return false;
        }
    }
    true
}

/// Whether each port has the same links in both.
fn same_links(a: &[Items<u32>], b: &[Items<u32>]) -> bool
    ensures { IsTrue result ↔ (a.now ≡ b.now) }
{
    if a.len() != b.len() {
        return false;
    }
    for k in 0..a.len() {
        if !same_numbers(&a[k], &b[k]) {
            return false;
        }
    }
    true
}

fn same_numbers(a: &Items<u32>, b: &Items<u32>) -> bool
    ensures { IsTrue result ↔ (a.now ≡ b.now) }
{
    a.as_slice() == b.as_slice()
}
