//! The table of kinds.
ghost use Rattle.std.specs.Prelude.{◌≡◌};
ghost use Rattle.file_values.specs.Table.{members_of, item_of};

use crate::format::Format;
use crate::kind::{Key, Kind, Member, Need};

/// A member that stands, one that may lack, and one of two that exclude each other.
macro_rules! member {
    ($need:ident $key:ident $kind:ident) => {
        Member {
            key: Key::$key,
            need: Need::$need,
            kind: Kind::$kind,
        }
    };
}

const NAME: Member = member!(Must Name Name);

const OF_TYPE: Member = member!(Must OfType TypeName);

const HOLDS: Member = member!(Must Holds Expression);

static MODEL: [Member; 6] = [
    member!(Must Format ModelFormat),
    member!(Must Root TypeName),
    member!(Must Instances Instances),
    member!(Must Types Types),
    member!(May Bounds Bounds),
    member!(May Rules Rules),
];

static TYPE_DECL: [Member; 4] = [
    NAME,
    member!(May Parent TypeName),
    member!(May Attributes Attributes),
    member!(May Ports Ports),
];

static ATTRIBUTE: [Member; 3] = [
    NAME,
    member!(Either Range Range),
    member!(Either Words Words),
];

/// The last member stands only in the second format.
static PORT: [Member; 5] = [
    NAME,
    member!(Must Kind PortKind),
    member!(Must Target TypeName),
    member!(Must Links Links),
    member!(May Inverse InverseName),
];

static BOUND: [Member; 2] = [OF_TYPE, member!(Must Count Links)];

static RULE: [Member; 3] = [NAME, OF_TYPE, HOLDS];

static ORDER: [Member; 3] = [
    member!(Must Format OrderFormat),
    member!(May Requests Requests),
    member!(May Criteria Criteria),
];

static REQUEST: [Member; 2] = [NAME, HOLDS];

static CRITERION: [Member; 3] = [
    NAME,
    member!(Either Minimise Expression),
    member!(Either Maximise Expression),
];

/// The members of an object, in the order of the keys.
#[tactic(auto, unfolding(crate::specs::Table::members_of))]
pub(crate) fn members(format: Format, kind: Kind) -> &'static [Member]
    ensures { result.now ≡ members_of format kind }
{
    match kind {
        Kind::Model => &MODEL,
        Kind::TypeDecl => &TYPE_DECL,
        Kind::Attribute => &ATTRIBUTE,
        Kind::Port => match format {
            Format::First => &PORT[..4],
            Format::Second => &PORT,
        },
        Kind::Bound => &BOUND,
        Kind::Rule => &RULE,
        Kind::Order => &ORDER,
        Kind::Request => &REQUEST,
        Kind::Criterion => &CRITERION,
        _ => &[],
    }
}

/// Of what kind the members of a list or pair are.
#[tactic(auto, unfolding(crate::specs::Table::item_of))]
pub(crate) fn item(kind: Kind) -> Option<Kind>
    ensures { result ≡ item_of kind }
{
    match kind {
        Kind::Types => Some(Kind::TypeDecl),
        Kind::Attributes => Some(Kind::Attribute),
        Kind::Ports => Some(Kind::Port),
        Kind::Words => Some(Kind::Word),
        Kind::Range => Some(Kind::End),
        Kind::Links => Some(Kind::Count),
        Kind::Bounds => Some(Kind::Bound),
        Kind::Rules => Some(Kind::Rule),
        Kind::Requests => Some(Kind::Request),
        Kind::Criteria => Some(Kind::Criterion),
        _ => None,
    }
}
