//! What is assumed and derived on the trail of a worked rack, and going back.
use config_value::Literal;
use reason_trail::{Change, Entry, Reason, Trail, Why};
use std::alloc::Global;
use std::process::Abort;
use std::test::Fail;
use worked_racks::literals::{
    AT_MOST_60, AT_MOST_100, CARD_MADE, CARD_OWED, CARD_SMALL, RACK_MADE,
};
use worked_racks::racks::{
    NO_REQUESTS, TOO_STRONG, assume, assume_each, entails_each, is_unmet, rack_trail, unmet,
};

/// One small card.
const SMALL_CARD: [Literal; 3] = [CARD_OWED, CARD_MADE, CARD_SMALL];

/// There is a second card.
const NO_SECOND: Literal = Literal::Made { instance: 2 };

/// From one to four later cards are linked, and their bounds are no closer.
const OWES_ONE: [(Literal, bool); 4] = [
    (CARD_OWED, true),
    (
        Literal::FreshAtLeast {
            instance: 0,
            port: 0,
            from: 1,
            count: 2,
        },
        false,
    ),
    (
        Literal::FreshAtMost {
            instance: 0,
            port: 0,
            from: 1,
            count: 4,
        },
        true,
    ),
    (
        Literal::FreshAtMost {
            instance: 0,
            port: 0,
            from: 1,
            count: 3,
        },
        false,
    ),
];

/// The card is linked and small, and there is no second one.
const HAS_SMALL: [(Literal, bool); 5] = [
    (
        Literal::Linked {
            instance: 0,
            port: 0,
            to: 1,
        },
        true,
    ),
    (CARD_SMALL, true),
    (
        Literal::NotKind {
            instance: 1,
            kind: 4,
        },
        true,
    ),
    (CARD_MADE, true),
    (NO_SECOND, false),
];

fn check_state(rt: &impl Abort, trail: &Trail, made: u32, rows: &[(Literal, bool)]) {
    assert_eq!(rt; trail.state().made(), made);
    for (literal, want) in rows {
        assert_eq!(rt; trail.entails(literal), *want, "{literal:?}");
    }
}

/// The entry of a number, if there is one.
fn entry_at(trail: &Trail, n: u32) -> Result<&Entry, Fail> {
    if n < trail.len() {
        Ok(trail.entry(n))
    } else {
        Err(Fail::from("there is no such entry"))
    }
}

/// Each entry was assumed, and has its literal.
fn check_assumed(rt: &impl Abort, trail: &Trail, literals: &[Literal]) -> Result<(), Fail> {
    assert_eq!(rt; trail.len() as usize, literals.len());
    for n in 0..trail.len() {
        let entry = entry_at(trail, n)?;
        assert_eq!(rt; literals.get(n as usize), Some(&entry.literal));
        assert!(rt; matches!(&entry.why, Why::Assumed), "{n}");
    }
    Ok(())
}

fn back_to(trail: &mut Trail, len: u32) -> Result<(), Fail> {
    if len > trail.len() {
        return Err(Fail::from("it is not so long"));
    }
    trail.back_to(len);
    Ok(())
}

fn check_small_card(rt: &impl Abort, trail: &mut Trail) -> Result<(), Fail> {
    assume_each(trail, &SMALL_CARD)?;
    check_assumed(rt, trail, &SMALL_CARD)?;
    check_state(rt, trail, 2, &HAS_SMALL);
    back_to(trail, 1)?;
    check_assumed(rt, trail, &[CARD_OWED])?;
    check_state(rt, trail, 1, &OWES_ONE);
    Ok(())
}

#[test]
fn assumes_a_small_card(rt: HostRuntime) -> Result<(), Fail> {
    let mut trail = rack_trail(rt.alloc(), NO_REQUESTS)?;
    let checked = check_small_card(&rt, &mut trail);
    drop(trail);
    checked
}

fn check_copy(rt: &impl Abort, trail: &mut Trail, copy: &Trail) -> Result<(), Fail> {
    back_to(trail, 0)?;
    check_assumed(rt, copy, &SMALL_CARD)?;
    check_state(rt, copy, 2, &HAS_SMALL);
    Ok(())
}

fn check_copied(rt: &impl Abort, trail: &mut Trail) -> Result<(), Fail> {
    assume_each(trail, &SMALL_CARD)?;
    let copy = trail.copy()?;
    let checked = check_copy(rt, trail, &copy);
    drop(copy);
    checked
}

#[test]
fn copies_stand_alone(rt: HostRuntime) -> Result<(), Fail> {
    let mut trail = rack_trail(rt.alloc(), NO_REQUESTS)?;
    let checked = check_copied(&rt, &mut trail);
    drop(trail);
    checked
}

/// A literal, and what the change by it does to the first state; neither makes an entry.
const IDLE: [(Literal, Change); 3] = [
    (AT_MOST_100, Change::Same),
    (
        Literal::AtLeast {
            instance: 0,
            attr: 0,
            value: 101,
        },
        Change::Empty,
    ),
    (
        Literal::Kind {
            instance: 0,
            kind: 2,
        },
        Change::Empty,
    ),
];

fn check_idle(rt: &impl Abort, trail: &mut Trail) -> Result<(), Fail> {
    for (literal, want) in &IDLE {
        assert_eq!(rt; assume(trail, literal)?, *want, "{literal:?}");
        assert_eq!(rt; trail.len(), 0, "{literal:?}");
    }
    Ok(())
}

#[test]
fn keeps_only_what_leaves_less(rt: HostRuntime) -> Result<(), Fail> {
    let mut trail = rack_trail(rt.alloc(), NO_REQUESTS)?;
    let checked = check_idle(&rt, &mut trail);
    drop(trail);
    checked
}

/// Derives a literal because the first request can't be met, if it can't, and the literals beside
/// that are entailed.
fn derive(
    alloc: Global,
    trail: &mut Trail,
    literal: &Literal,
    beside: &[Literal],
) -> Result<Change, Fail> {
    let why = unmet(alloc, beside, false)?;
    if !is_unmet(alloc, trail) || !entails_each(trail, why.literals.as_slice()) {
        return Err(Fail::from("it is no reason"));
    }
    if !trail.fits(literal) {
        return Err(Fail::from("it does not fit"));
    }
    Ok(trail.derive(*literal, why)?)
}

/// The same, for all that the state says.
fn derive_here(alloc: Global, trail: &mut Trail, literal: &Literal) -> Result<Change, Fail> {
    if !is_unmet(alloc, trail) {
        return Err(Fail::from("it is no reason"));
    }
    if !trail.fits(literal) {
        return Err(Fail::from("it does not fit"));
    }
    Ok(trail.derive_here(*literal, 1, false)?)
}

/// The reason of an entry, if it is written out.
fn reason_of(entry: &Entry) -> Result<&Reason, Fail> {
    match &entry.why {
        Why::Written(reason) => Ok(reason),
        _ => Err(Fail::from("its reason is not written out")),
    }
}

fn check_written(rt: &impl Abort, entry: &Entry) -> Result<(), Fail> {
    assert_eq!(rt; entry.literal, AT_MOST_60);
    let reason = reason_of(entry)?;
    assert_eq!(rt; reason.requests, 1);
    assert_eq!(rt; reason.literals.as_slice(), [RACK_MADE].as_slice());
    assert!(rt; !reason.cut);
    Ok(())
}

fn check_derived(rt: &impl Abort, alloc: Global, trail: &mut Trail) -> Result<(), Fail> {
    assert_eq!(rt;
        derive(alloc, trail, &AT_MOST_60, &[RACK_MADE])?,
        Change::Smaller
    );
    check_written(rt, entry_at(trail, 0)?)?;
    assert!(rt; trail.entails(&AT_MOST_60));
    back_to(trail, 0)?;
    assert_eq!(rt; trail.len(), 0);
    assert!(rt; !trail.entails(&AT_MOST_60));
    Ok(())
}

#[test]
fn derives_for_a_reason(rt: HostRuntime) -> Result<(), Fail> {
    let mut trail = rack_trail(rt.alloc(), TOO_STRONG)?;
    let checked = check_derived(&rt, rt.alloc(), &mut trail);
    drop(trail);
    checked
}

fn check_derived_here(rt: &impl Abort, alloc: Global, trail: &mut Trail) -> Result<(), Fail> {
    assert_eq!(rt; derive_here(alloc, trail, &AT_MOST_60)?, Change::Smaller);
    let entry = entry_at(trail, 0)?;
    assert_eq!(rt; entry.literal, AT_MOST_60);
    assert!(rt;
        matches!(
            &entry.why,
            Why::Here {
                requests: 1,
                cut: false
            }
        )
    );
    back_to(trail, 0)?;
    assert_eq!(rt; trail.len(), 0);
    assert!(rt; !trail.entails(&AT_MOST_60));
    Ok(())
}

#[test]
fn derives_for_all_that_is_said(rt: HostRuntime) -> Result<(), Fail> {
    let mut trail = rack_trail(rt.alloc(), TOO_STRONG)?;
    let checked = check_derived_here(&rt, rt.alloc(), &mut trail);
    drop(trail);
    checked
}
