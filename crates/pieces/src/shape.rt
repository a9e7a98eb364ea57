//! Which forks may become selects, and which loops may be overlapped, as far as their own pieces tell.
ghost use Rattle.std.specs.Prelude.{◌≡◌, ◌≤◌, ◌-◌, ◌↔◌, IsTrue, SomeIff};
ghost use Rattle.pieces.specs.View.{piece_of, pieces_of};
ghost use Rattle.pieces.specs.Weight.{piece_weight, piece_weights};
ghost use Rattle.pieces.specs.Shape.{IsStraight, AreStraight, is_mark, are_marks, IsConvertible, IsEligible};

use crate::piece::Piece;
use crate::weight::{rest_after_mark, rest_after_pure, rest_after_pures};

/// The greatest weight of a fork that may be converted.
pub const GREATEST_FORK: u32 = 64;

/// The greatest weight of the test, body and step of a loop that may be overlapped.
pub const GREATEST_LOOP: u32 = 256;

/// Whether a piece is a fork of weight at most 64 whose branches hold only `Set`, `Put`, marks and such forks. That control reaches it is for the caller to judge.
pub fn is_convertible(fork: &Piece) -> bool
    ensures { IsTrue result ↔ IsConvertible (piece_of fork.now) }
{
    match fork {
        Piece::Fork { .. } => rest_after_straight(fork, GREATEST_FORK).is_some(),
        _ => false,
    }
}

/// Whether a piece is a loop of `for` or `while` that has only marks before its test, whose test, body and step weigh at most 256 together, and hold only `Set`, `Put`, marks and convertible forks.
pub fn is_eligible(repeat: &Piece) -> bool
    ensures { IsTrue result ↔ IsEligible (piece_of repeat.now) }
{
    match repeat {
        Piece::Repeat {
            post,
            before,
            test,
            body,
            step,
            ..
        } => {
            !*post
                && has_only_marks(before)
                && rest_after_pure(test, GREATEST_LOOP)
                    .and_then(|room| rest_after_branch(body, room))
                    .and_then(|room| rest_after_branch(step, room))
                    .is_some()
        }
        _ => false,
    }
}

fn has_only_marks(pieces: &Vec<Piece>) -> bool
    ensures { result ≡ are_marks (pieces_of pieces.now.items) }
{
    for piece in pieces {
        if !is_mark(piece) {
            return false;
        }
    }
    true
}

fn is_mark(piece: &Piece) -> bool
    ensures { result ≡ is_mark (piece_of piece.now) }
{
    matches!(piece, Piece::Mark(_) | Piece::Land(..))
}

/// What pieces leave of `room`; none where they weigh more, or one of them is no `Set`, `Put`, mark or convertible fork.
#[cycle(straight)]
fn rest_after_branch(pieces: &Vec<Piece>, room: u32) -> Option<u32>
    ensures { SomeIff result (AreStraight (pieces_of pieces.now.items) × (piece_weights (pieces_of pieces.now.items) ≤ room)) (room - piece_weights (pieces_of pieces.now.items)) }
{
    let mut rest = room;
    for piece in pieces {
        rest = rest_after_straight(piece, rest)?;
    }
    Some(rest)
}

#[cycle(straight)]
fn rest_after_straight(piece: &Piece, room: u32) -> Option<u32>
    ensures { SomeIff result (IsStraight (piece_of piece.now) × (piece_weight (piece_of piece.now) ≤ room)) (room - piece_weight (piece_of piece.now)) }
{
    match piece {
        Piece::Set { value, .. } => rest_after_pure(value, room.checked_sub(1)?),
        Piece::Put {
            subscripts,
            value,
            ..
        } => {
            let room = rest_after_pures(subscripts, room.checked_sub(1)?)?;
            rest_after_pure(value, room)
        }
        Piece::Fork { test, yes, no, .. } => {
            let beyond = room.saturating_sub(GREATEST_FORK);
            let room = rest_after_pure(test, room.min(GREATEST_FORK).checked_sub(1)?)?;
            let room = rest_after_branch(no, rest_after_branch(yes, room)?)?;
            room.checked_add(beyond)
        }
        Piece::Land(_, point) | Piece::Mark(point) => rest_after_mark(point, room),
        _ => None,
    }
}
