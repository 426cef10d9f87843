//! The table of operators.
ghost use Rattle.std.specs.Prelude.{◌≡◌};
ghost use Rattle.std.specs.Option.{option_copied};
ghost use Rattle.file_values.specs.Forms.{operator_of, takes, just, some_inner};

use crate::operator::{Argument, Operator};
use prod_model::Relation;
use prod_model::limits::MOST_ARGUMENTS;

/// The operator of a text.
#[tactic(auto, unfolding(crate::specs::Forms::operator_of))]
pub fn operator_of(text: &str) -> Option<Operator>
    ensures { result ≡ operator_of text.now }
{
    match text {
        "attr" => Some(Operator::Attr),
        "count" => Some(Operator::Count),
        "sum" => Some(Operator::Sum),
        "total" => Some(Operator::Total),
        "number" => Some(Operator::Number),
        "+" => Some(Operator::Add),
        "-" => Some(Operator::Sub),
        "*" => Some(Operator::Times),
        "<" => Some(Operator::Cmp(Relation::Less)),
        "<=" => Some(Operator::Cmp(Relation::AtMost)),
        "=" => Some(Operator::Cmp(Relation::Equal)),
        "!=" => Some(Operator::Cmp(Relation::Differs)),
        ">=" => Some(Operator::Cmp(Relation::AtLeast)),
        ">" => Some(Operator::Cmp(Relation::Greater)),
        "is" => Some(Operator::Is),
        "kind" => Some(Operator::Kind),
        "and" => Some(Operator::And),
        "or" => Some(Operator::Or),
        "not" => Some(Operator::Not),
        "if" => Some(Operator::If),
        "all" => Some(Operator::All),
        "any" => Some(Operator::Any),
        _ => None,
    }
}

static INNERS: [Argument; MOST_ARGUMENTS] = [Argument::Inner; MOST_ARGUMENTS];

/// What so many arguments of an operator have to be.
#[tactic(auto, unfolding(crate::specs::Forms::takes))]
pub(crate) fn takes(operator: Operator, count: usize) -> Option<&'static [Argument]>
    ensures { option_copied result ≡ takes operator count }
{
    match operator {
        Operator::Attr | Operator::Number | Operator::Kind => just(count, &[Argument::Text]),
        Operator::Count => {
            if count == 1 {
                Some(&[Argument::Text])
            } else {
                just(count, &[Argument::Text, Argument::Text])
            }
        }
        Operator::Sum | Operator::Total | Operator::Is => {
            just(count, &[Argument::Text, Argument::Text])
        }
        Operator::Sub | Operator::Cmp(_) | Operator::If => {
            just(count, &[Argument::Inner, Argument::Inner])
        }
        Operator::Times => just(count, &[Argument::Factor, Argument::Inner]),
        Operator::Not => just(count, &[Argument::Inner]),
        Operator::All | Operator::Any => just(count, &[Argument::Text, Argument::Inner]),
        Operator::Add | Operator::And | Operator::Or => some_inner(count),
    }
}

/// These, where there are as many.
fn just(count: usize, args: &'static [Argument]) -> Option<&'static [Argument]>
    ensures { option_copied result ≡ just args.now count }
{
    if count == args.len() {
        Some(args)
    } else {
        None
    }
}

/// 1 to 64 expressions.
#[tactic(auto, using(crate::proofs::FormLaws::take_replicate))]
fn some_inner(count: usize) -> Option<&'static [Argument]>
    ensures { option_copied result ≡ some_inner count }
{
    if 1 <= count && count <= MOST_ARGUMENTS {
        Some(&INNERS[..count])
    } else {
        None
    }
}
