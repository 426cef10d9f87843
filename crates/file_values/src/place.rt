//! Places in a file: their steps, their order, and their text.
ghost use Rattle.std.specs.Prelude.{◌≡◌, ◌∷◌, IfOk, IsTrue};
ghost use Rattle.std.specs.Ordering.{is_lt};
ghost use Rattle.std.specs.Cmp.Lexicographic.{slice_cmp};
ghost use Rattle.file_values.specs.declared.part.Part.TheVariants.{At};
ghost use Rattle.file_values.specs.Places.{part_cmp, under};
ghost use Rattle.file_values.specs.steps.Searches.{earlier_of};

use crate::kind::Key;
use crate::part::Part;
use prod_model::Items;
use std::alloc::{AllocError, Global};
use std::cmp::Ordering;

/// The step to a member of a list. A place of 2^32 or more can't be kept, and no file is so long.
pub(crate) fn at(index: usize) -> Result<Part, AllocError>
    ensures { IfOk result (λ part. part ≡ At index) }
{
    match u32::try_from(index) {
        Ok(place) => Ok(Part::At(place)),
        Err(_) => Err(AllocError),
    }
}

/// The step to the member of a key.
pub(crate) fn under(key: Key) -> Part
    ensures { result ≡ under key }
{
    Part::Key(key.number())
}

/// The place with a step in front.
pub(crate) fn behind(
    alloc: Global,
    step: Part,
    place: Items<Part>,
) -> Result<Items<Part>, AllocError>
    ensures { IfOk result (λ whole. whole ≡ step ∷ place) }
{
    let mut whole = Items::from_slice(alloc, &[step])?;
    whole.append(place)?;
    Ok(whole)
}

/// Whether a place comes before another one in the document.
pub fn is_place_before(place: &[Part], other: &[Part]) -> bool
    ensures { result ≡ is_lt (slice_cmp part_cmp place.now other.now) }
{
    place_cmp(place, other) == Ordering::Less
}

fn place_cmp(place: &[Part], other: &[Part]) -> Ordering
    ensures { result ≡ slice_cmp part_cmp place.now other.now }
{
    match (place.split_first(), other.split_first()) {
        (None, None) => Ordering::Equal,
        (None, Some(_)) => Ordering::Less,
        (Some(_), None) => Ordering::Greater,
        (Some((step, place)), Some((step2, other))) => match part_cmp(*step, *step2) {
            Ordering::Equal => place_cmp(place, other),
            unequal => unequal,
        },
    }
}

fn part_cmp(part: Part, other: Part) -> Ordering
    ensures { result ≡ part_cmp part other }
{
    match (part, other) {
        (Part::Key(m), Part::Key(n)) => m.cmp(&n),
        (Part::Key(_), Part::At(_)) => Ordering::Less,
        (Part::At(_), Part::Key(_)) => Ordering::Greater,
        (Part::At(m), Part::At(n)) => m.cmp(&n),
    }
}

/// The earlier of two places in the document, and the only one where there is one.
pub(crate) fn earlier(place: Option<Items<Part>>, other: Option<Items<Part>>) -> Option<Items<Part>>
    ensures { result ≡ earlier_of place other }
{
    match (place, other) {
        (None, other) => other,
        (place, None) => place,
        (Some(place), Some(other)) => {
            if is_place_before(other.as_slice(), place.as_slice()) {
                Some(other)
            } else {
                Some(place)
            }
        }
    }
}
