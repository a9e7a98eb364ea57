//! The weight of expressions and pieces: 1 for each node of an expression, each piece that is no mark, each label of a switch and each call. A call counts at the mark of its Begin; the top function is no call.
ghost use Rattle.std.specs.Prelude.{◌≡◌, ◌≤◌, ◌-◌, SomeIff};
ghost use Rattle.pieces.specs.View.{pure_of, pures_of, piece_of, pieces_of};
ghost use Rattle.pieces.specs.Weight.{weight, weights, mark_weight, piece_weight, piece_weights};

use crate::piece::Piece;
use crate::pure_expr::Pure;
use hls_base::point::{Point, PointKind};

/// What an expression leaves of `room`; none where it weighs more. Operators are gone through in a loop along their first operands.
#[cycle(pure_weight)]
pub fn rest_after_pure(pure: &Pure, room: u32) -> Option<u32>
    ensures { SomeIff result (weight (pure_of pure.now) ≤ room) (room - weight (pure_of pure.now)) }
{
    let mut rest = room;
    let mut part = pure;
    'chain: loop {
        rest = rest.checked_sub(1)?;
        match part {
            Pure::Number { .. } | Pure::Variable(..) => return Some(rest),
            Pure::Element { subscripts, .. } => return rest_after_pures(subscripts, rest),
            Pure::Unary { arg, .. } | Pure::Cast { arg, .. } => part = arg,
            Pure::Binary { left, right, .. } => {
                rest = rest_after_pure(right, rest)?;
                part = left;
            }
            Pure::Choice { test, yes, no, .. } => {
                rest = rest_after_pure(no, rest_after_pure(yes, rest)?)?;
                part = test;
            }
        }
    }
}

/// What expressions leave of `room` together.
#[cycle(pure_weight)]
pub fn rest_after_pures(pures: &Vec<Pure>, room: u32) -> Option<u32>
    ensures { SomeIff result (weights (pures_of pures.now.items) ≤ room) (room - weights (pures_of pures.now.items)) }
{
    let mut rest = room;
    for pure in pures {
        rest = rest_after_pure(pure, rest)?;
    }
    Some(rest)
}

/// What a mark leaves of `room`.
pub fn rest_after_mark(point: &Point, room: u32) -> Option<u32>
    ensures { SomeIff result (mark_weight point.now ≤ room) (room - mark_weight point.now) }
{
    let is_call = point.kind == PointKind::Begin && !point.path.items().is_empty();
    if is_call {
        room.checked_sub(1)
    } else {
        Some(room)
    }
}

/// What pieces leave of `room` together; none where they weigh more.
#[cycle(piece_weight)]
pub fn rest_after_pieces(pieces: &Vec<Piece>, room: u32) -> Option<u32>
    ensures { SomeIff result (piece_weights (pieces_of pieces.now.items) ≤ room) (room - piece_weights (pieces_of pieces.now.items)) }
{
    let mut rest = room;
    for piece in pieces {
        rest = rest_after_piece(piece, rest)?;
    }
    Some(rest)
}

#[cycle(piece_weight)]
fn rest_after_piece(piece: &Piece, room: u32) -> Option<u32>
    ensures { SomeIff result (piece_weight (piece_of piece.now) ≤ room) (room - piece_weight (piece_of piece.now)) }
{
    match piece {
        Piece::Set { value, .. } => rest_after_pure(value, room.checked_sub(1)?),
        Piece::Put {
            subscripts,
            value,
            ..
        } => {
            let room = rest_after_pures(subscripts, room.checked_sub(1)?)?;
            rest_after_pure(value, room)
        }
        Piece::Fork { test, yes, no, .. } => {
            let room = rest_after_pure(test, room.checked_sub(1)?)?;
            rest_after_pieces(no, rest_after_pieces(yes, room)?)
        }
        Piece::Repeat {
            before,
            test,
            body,
            step,
            ..
        } => {
            let room = rest_after_pieces(before, room.checked_sub(1)?)?;
            let room = rest_after_pure(test, room)?;
            rest_after_pieces(step, rest_after_pieces(body, room)?)
        }
        Piece::Pick {
            test,
            labels,
            body,
            ..
        } => {
            let labels = u32::try_from(labels.len()).ok()?;
            let room = room.checked_sub(1)?.checked_sub(labels)?;
            rest_after_pieces(body, rest_after_pure(test, room)?)
        }
        Piece::Break | Piece::Next | Piece::Leave(_) => room.checked_sub(1),
        Piece::Land(_, point) | Piece::Mark(point) => rest_after_mark(point, room),
    }
}
