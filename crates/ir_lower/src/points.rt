//! The points that pieces begin with, and which forks may become selects and which loops may be overlapped, as far as control comes to them.
ghost use Rattle.std.specs.Prelude.{◌≡◌, ◌&&◌};
ghost use Rattle.std.specs.Option.{option_map};
ghost use Rattle.hls_base.specs.declared.point.Point.{Point};
ghost use Rattle.pieces.specs.View.{piece_of, pieces_of};
ghost use Rattle.passes.specs.Lowering.Shapes as spec;
ghost use Rattle.passes.specs.Lowering.{own_step};
ghost use Rattle.ir_lower.specs.Points.{pointed, is_fork_that_converts, is_loop_that_overlaps};

use hls_base::point::Point;
use pieces::piece::Piece;
use pieces::shape::{is_convertible, is_eligible};

/// The point that a mark stands for.
pub fn point_of(piece: &Piece) -> Option<&Point>
    ensures { pointed result ≡ spec.point_of (piece_of piece.now) }
{
    match piece {
        Piece::Mark(point) => Some(point),
        _ => None,
    }
}

/// The point that pieces begin with.
pub fn first_point(pieces: &Vec<Piece>) -> Option<&Point>
    ensures { pointed result ≡ spec.first_point (pieces_of pieces.now.items) }
{
    if pieces.is_empty() {
        return None;
    }
    point_of(&pieces[0])
}

/// The point of the step of a loop with a `Next`.
pub fn own_step<'a>(body: &Vec<Piece>, step: &'a Vec<Piece>) -> Option<&'a Point>
    ensures { pointed result ≡ own_step (pieces_of body.now.items) (spec.first_point (pieces_of step.now.items)) }
{
    if any_continues(body) {
        first_point(step)
    } else {
        None
    }
}

/// Whether a piece goes on with the next iteration of the loop round it.
#[cycle(continues)]
fn continues(piece: &Piece) -> bool
    ensures { result ≡ spec.continues (piece_of piece.now) }
{
    match piece {
        Piece::Next => true,
        Piece::Fork { yes, no, .. } => any_continues(yes) || any_continues(no),
        Piece::Pick { body, .. } => any_continues(body),
        _ => false,
    }
}

#[cycle(continues)]
fn any_continues(pieces: &Vec<Piece>) -> bool
    ensures { result ≡ spec.any_continues (pieces_of pieces.now.items) }
{
    for piece in pieces {
        if continues(piece) {
            return true;
        }
    }
    false
}

/// Whether a piece is a fork that may become selects, where control may come to it.
pub fn converts(live: bool, fork: &Piece) -> bool
    ensures { result ≡ (live && is_fork_that_converts (piece_of fork.now)) }
{
    live && is_convertible(fork)
}

/// Whether a piece is a loop that may be overlapped.
pub fn may_overlap(repeat: &Piece) -> bool
    ensures { result ≡ is_loop_that_overlaps (piece_of repeat.now) }
{
    is_eligible(repeat)
}
