//! Tests that are lists of conflicts, with their preferred conflicts told by hand.
ghost use Rattle.std.specs.Prelude.{◌≡◌, length, IsTrue};
ghost use Rattle.std.specs.List.{list_any, list_all};
ghost use Rattle.quickxplain.specs.steps.Listed.{keeps as keeps_of, keeps_none_of};

use crate::{Explained, Tester, explain};
use std::alloc::AllocError;
use std::test::Fail;

/// Finds a set consistent unless it keeps all requests of a conflict.
#[derive(Drop)]
struct Listed<'a> {
    requests: u32,
    conflicts: &'a [&'a [u32]],
    asked: u64,
}

impl<'a> Tester for Listed<'a> {
    ghost use Rattle.quickxplain.specs.steps.Listed.{listed_closed};

    ghost requests = { λ t. t.requests };

    ghost consistent = { λ t keep. IsTrue (keeps_none_of (λ c. c.now) t.conflicts.now keep) };

    ghost asked = { λ t. t.asked };

    #[tactic(auto, unfolding(crate::specs::steps::Listed::keeps_none_of))]
    fn consistent(&mut self, keep: &[bool]) -> Result<bool, AllocError> {
        self.asked = self.asked.saturating_add(1);
        Ok(!keeps_any(keep, self.conflicts))
    }

    ghost closed = { λ t. listed_closed (λ c. c.now) t.conflicts.now };
}

/// Whether the set keeps the request at a place.
fn keeps(keep: &[bool], k: u32) -> bool
    ensures { result ≡ keeps_of keep.now k }
{
    match keep.get(k as usize) {
        Some(kept) => *kept,
        None => false,
    }
}

/// Whether the set keeps all requests of a conflict.
fn keeps_all(keep: &[bool], conflict: &[u32]) -> bool
    ensures { result ≡ list_all (keeps_of keep.now) conflict.now }
{
    conflict.iter().all(|k| keeps(keep, *k))
}

/// Whether the set keeps all requests of some conflict.
fn keeps_any(keep: &[bool], conflicts: &[&[u32]]) -> bool
    ensures { result ≡ list_any (λ c. list_all (keeps_of keep.now) c.now) conflicts.now }
{
    conflicts.iter().any(|c| keeps_all(keep, c))
}

/// What is asked, and what is to come of it.
struct Row {
    what: &'static str,
    requests: u32,
    /// All sets of requests that clash have one of these in them, by places.
    conflicts: &'static [&'static [u32]],
    /// The preferred conflict, if any.
    preferred: Option<&'static [u32]>,
    /// The greatest number of questions.
    questions: u64,
}

const ROWS: [Row; 9] = [
    Row {
        what: "no request and nothing clashes",
        requests: 0,
        conflicts: &[],
        preferred: None,
        questions: 3,
    },
    Row {
        what: "no request and the empty set clashes",
        requests: 0,
        conflicts: &[&[]],
        preferred: Some(&[]),
        questions: 3,
    },
    Row {
        what: "the empty set clashes",
        requests: 5,
        conflicts: &[&[]],
        preferred: Some(&[]),
        questions: 3,
    },
    Row {
        what: "all are consistent",
        requests: 4,
        conflicts: &[],
        preferred: None,
        questions: 3,
    },
    Row {
        what: "one alone",
        requests: 1,
        conflicts: &[&[0]],
        preferred: Some(&[0]),
        questions: 3,
    },
    Row {
        what: "the second alone, and the first with the third",
        requests: 3,
        conflicts: &[&[1], &[0, 2]],
        preferred: Some(&[1]),
        questions: 7,
    },
    Row {
        what: "the pair without the last request",
        requests: 4,
        conflicts: &[&[0, 3], &[1, 2]],
        preferred: Some(&[1, 2]),
        questions: 11,
    },
    Row {
        what: "three before one that is less important",
        requests: 4,
        conflicts: &[&[3], &[0, 1, 2]],
        preferred: Some(&[0, 1, 2]),
        questions: 15,
    },
    Row {
        what: "the first and the last of many",
        requests: 64,
        conflicts: &[&[0, 63]],
        preferred: Some(&[0, 63]),
        questions: 27,
    },
];

#[test]
fn finds_the_preferred_conflict(rt: HostRuntime) -> Result<(), Fail> {
    for row in &ROWS {
        assert!(rt; row.requests <= 64, "{}", row.what);
        let mut tester = Listed {
            requests: row.requests,
            conflicts: row.conflicts,
            asked: 0,
        };
        let found = explain(rt.alloc(), &mut tester, row.requests)?;
        let members = match &found {
            Explained::NoConflict => None,
            Explained::Conflict(members) => Some(members.as_slice()),
        };
        assert!(rt; members == row.preferred, "{}", row.what);
        assert!(rt; tester.asked <= row.questions, "{}", row.what);
    }
    Ok(())
}
