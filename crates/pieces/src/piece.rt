use crate::pure_expr::Pure;
use hls_base::number::{ArrayId, LoopId, VarId};
use hls_base::place::Place;
use hls_base::point::Point;

/// The number of a call that was expanded. The top function's is 0.
#[derive(Clone, Copy, PartialEq, Eq, PartialOrd, Ord, Hash)]
pub struct CallId(pub u32);

/// A piece of an expanded program. Points stand as marks where control comes to them; `Fork`, `Repeat` and `Pick` pass their `end` themselves.
#[cycle(piece)]
#[derive(Drop)]
pub enum Piece {
    Set {
        variable: VarId,
        value: Pure,
    },
    Put {
        array: ArrayId,
        subscripts: Vec<Pure>,
        value: Pure,
        at: Place,
    },
    /// A branch that has a point begins with its mark.
    Fork {
        test: Pure,
        yes: Vec<Piece>,
        no: Vec<Piece>,
        end: Point,
    },
    /// A loop. `before` begins with the mark of Test, and has what the test needs before it; `body` begins with the mark of Body, and `step`, where it is not empty, with that of Step. With `post` the body comes first.
    Repeat {
        id: LoopId,
        post: bool,
        before: Vec<Piece>,
        test: Pure,
        body: Vec<Piece>,
        step: Vec<Piece>,
        end: Point,
    },
    /// A switch: control goes to the piece of the body that the label with the value of the test names, else to that of the label without a value, else behind the switch.
    Pick {
        test: Pure,
        labels: Vec<Label>,
        body: Vec<Piece>,
        end: Point,
    },
    /// Leaves the loop or switch round it.
    Break,
    /// Goes on with the next iteration of the loop round it.
    Next,
    /// Leaves the call: control goes on at its `Land`.
    Leave(CallId),
    /// The End of a call that is left by a `Leave`.
    Land(CallId, Point),
    /// A point that control comes to.
    Mark(Point),
}

/// A label of a switch: the bit pattern of its value in the type of the test, or none for `default`, and the index of its mark in the body.
#[derive(Clone, Copy, PartialEq, Eq)]
pub struct Label {
    pub value: Option<u64>,
    pub target: u32,
}
