//! Copies of pieces.
use config_value::Literal;
use literal_book::{Literals, Piece};
use std::alloc::{AllocError, Global};
use std::test::Fail;

const SECOND_MADE: Literal = Literal::Made { instance: 1 };

const SECOND_SMALL: Literal = Literal::Kind {
    instance: 1,
    kind: 3,
};

const THIRD_LINKED: Literal = Literal::Linked {
    instance: 0,
    port: 0,
    to: 2,
};

/// The literals of pieces: none, one, some, and nine, which is one more than stand in the piece
/// itself.
const PIECES: [&[Literal]; 4] = [
    &[],
    &[SECOND_SMALL],
    &[SECOND_MADE, THIRD_LINKED, SECOND_MADE],
    &[
        SECOND_MADE,
        SECOND_SMALL,
        THIRD_LINKED,
        SECOND_MADE,
        SECOND_SMALL,
        THIRD_LINKED,
        SECOND_SMALL,
        SECOND_MADE,
        THIRD_LINKED,
    ],
];

/// A copy of the piece of these literals, which outlives it.
fn copy_of(alloc: Global, literals: &[Literal]) -> Result<Piece, AllocError> {
    let piece = Piece {
        literals: Literals::from_slice(alloc, literals)?,
    };
    piece.copy(alloc)
}

#[test]
fn copies_hold_the_same_literals(rt: HostRuntime) -> Result<(), Fail> {
    for literals in &PIECES {
        let copy = copy_of(rt.alloc(), literals)?;
        assert_eq!(rt; copy.literals.as_slice(), *literals);
    }
    Ok(())
}
