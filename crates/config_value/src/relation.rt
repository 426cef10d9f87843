//! How two numbers stand to each other.
ghost use Rattle.std.specs.Prelude.{◌≡◌};
ghost use Rattle.config_value.specs.Value.{holds as holds_of};

use prod_model::Relation;

/// Whether the numbers stand so to each other.
pub fn holds(relation: Relation, a: i64, b: i64) -> bool
    ensures { result ≡ holds_of relation a b }
{
    match relation {
        Relation::Less => a < b,
        Relation::AtMost => a <= b,
        Relation::Equal => a == b,
        Relation::Differs => a != b,
        Relation::AtLeast => a >= b,
        Relation::Greater => a > b,
    }
}
