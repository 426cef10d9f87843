//! What failures of a worked rack teach.
ghost use Rattle.std.specs.Prelude.{◌≡◌};

use conflict_learn::{Learned, learn};
use literal_book::{Literal, Nogood};
use reason_trail::{Reason, Trail};
use std::alloc::Global;
use std::process::Abort;
use std::test::Fail;
use worked_racks::literals::{
    AT_LEAST_50, AT_MOST_40, AT_MOST_60, AT_MOST_100, NOT_7, NOT_8, NOT_9, RACK_MADE,
};
use worked_racks::racks::{TOO_STRONG, assume_each, entails_each, is_unmet, rack_trail, unmet};

/// What is assumed, the literals of the reason, and those of the nogood.
type Lesson = (&'static [Literal], &'static [Literal], &'static [Literal]);

/// What every rack has is left out; of two bounds the narrower one says all; and one assumption is
/// shorter than three literals that follow from it.
const LESSONS: [Lesson; 3] = [
    (&[], &[RACK_MADE, AT_MOST_100], &[]),
    (
        &[AT_MOST_60, AT_MOST_40],
        &[AT_MOST_60, AT_MOST_40],
        &[AT_MOST_40],
    ),
    (&[AT_LEAST_50], &[NOT_7, NOT_8, NOT_9], &[AT_LEAST_50]),
];

/// What the failure of a trail teaches for a reason that names the first request, if no
/// configuration meets that, and the state entails the literals.
#[tactic(auto, using(crate::proofs::Failures::unmet_fails))]
fn learned(alloc: Global, trail: &Trail, why: &Reason) -> Result<Learned, Fail>
    requires { why.now.requests ≡ 1 }
{
    if !is_unmet(alloc, trail) || !entails_each(trail, why.literals.as_slice()) {
        return Err(Fail::from("it is no reason"));
    }
    Ok(learn(alloc, trail.job(), trail, why)?)
}

/// The nogood of the first request that is learnt, if one is.
fn nogood_from(alloc: Global, trail: &Trail, literals: &[Literal]) -> Result<Nogood, Fail> {
    let why = unmet(alloc, literals, false)?;
    match learned(alloc, trail, &why)? {
        Learned::Nogood(nogood) => Ok(nogood),
        Learned::RestsOnCut => Err(Fail::from("it rests on the cut")),
    }
}

fn check_lesson(
    rt: &impl Abort,
    alloc: Global,
    trail: &mut Trail,
    row: &Lesson,
) -> Result<(), Fail> {
    assume_each(trail, row.0)?;
    let nogood = nogood_from(alloc, trail, row.1)?;
    assert_eq!(rt; nogood.requests, 1, "{row:?}");
    assert_eq!(rt; nogood.literals.as_slice(), row.2, "{row:?}");
    assert!(rt; entails_each(trail, nogood.literals.as_slice()), "{row:?}");
    Ok(())
}

fn check_from_start(rt: &impl Abort, alloc: Global, row: &Lesson) -> Result<(), Fail> {
    let mut trail = rack_trail(alloc, TOO_STRONG)?;
    let checked = check_lesson(rt, alloc, &mut trail, row);
    drop(trail);
    checked
}

#[test]
fn learns_the_shorter_nogood(rt: HostRuntime) -> Result<(), Fail> {
    for row in &LESSONS {
        check_from_start(&rt, rt.alloc(), row)?;
    }
    Ok(())
}

fn check_cut(rt: &impl Abort, alloc: Global, trail: &Trail) -> Result<(), Fail> {
    let why = unmet(alloc, &[RACK_MADE], true)?;
    let learned = learned(alloc, trail, &why)?;
    assert!(rt; matches!(&learned, Learned::RestsOnCut));
    Ok(())
}

#[test]
fn learns_nothing_from_the_cut(rt: HostRuntime) -> Result<(), Fail> {
    let trail = rack_trail(rt.alloc(), TOO_STRONG)?;
    let checked = check_cut(&rt, rt.alloc(), &trail);
    drop(trail);
    checked
}
