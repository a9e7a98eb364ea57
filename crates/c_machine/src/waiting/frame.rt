//! What a machine does next, and the frames of what waits behind it.
ghost use Rattle.std.specs.Prelude.{◌+◌, ◌*◌, ◌≤◌, drop};
ghost use Rattle.hls_base.specs.ArrayAddress.{element_count};
ghost use Rattle.c_tree.specs.View.{object_of};
ghost use Rattle.c_meaning.specs.Store.{lengths_in};

use c_meaning::value::{Completion, Value};
use c_token::ctype::CType;
use c_tree::action::Action;
use c_tree::expression::Expr;
use c_tree::function::Function;
use c_tree::object::{Init, Object};
use c_tree::operator::{Binary, Unary};
use c_tree::statement::{Else, Stmt};
use hls_base::place::Place;
use hls_base::point::PointKind;
use hls_base::refusal::UbRule;
use hls_base::text::Text;

/// Where the test of an iteration stands, and what follows the body before it.
#[derive(Clone, Copy)]
pub enum Rounds<'p> {
    TestFirst {
        test: Option<&'p Expr>,
        step: &'p [Action],
    },
    TestLast {
        test: &'p Expr,
    },
}

/// A loop, at its keyword.
#[derive(Clone, Copy)]
pub struct Loop<'p> {
    pub rounds: Rounds<'p>,
    pub body: &'p Box<Stmt>,
    pub at: Place,
}

/// The operands of `?:` of which its test chooses one.
#[derive(Clone, Copy)]
pub struct Choice<'p> {
    pub first: &'p Expr,
    pub second: &'p Expr,
    pub at: Place,
    pub colon: Place,
}

/// The branches of an `if`. The flag says whether they are in a tail position.
#[derive(Clone, Copy)]
pub struct Branches<'p> {
    pub tail: bool,
    pub body: &'p Box<Stmt>,
    pub other: Option<&'p Else>,
    pub at: Place,
}

/// An assignment: the name of its target, the operator of a compound one, and the places of both.
#[derive(Clone, Copy)]
pub struct Assignment<'p> {
    pub name: &'p Text,
    pub op: Option<Binary>,
    pub place: Place,
    pub at: Place,
}

/// What subscripts are evaluated for.
#[derive(Clone, Copy)]
pub enum Use<'p> {
    Reading {
        array: &'p Text,
        at: Place,
    },
    Assigning(Assignment<'p>, &'p Expr),
    Bumping {
        name: &'p Text,
        up: bool,
        post: bool,
        place: Place,
        at: Place,
    },
}

/// The arguments of a call that are not evaluated yet.
#[derive(Clone, Copy)]
pub struct Call<'p> {
    pub others: &'p [Expr],
    pub callee: &'p Text,
    pub used: bool,
    pub at: Place,
}

/// An initialiser of an object's elements from one on. The depth is that of the row within the array.
#[derive(Clone, Copy)]
pub struct Initialiser<'p> {
    pub object: usize,
    pub declared: &'p Object,
    pub depth: usize,
    pub init: &'p Init,
    pub element: usize,
    ghost within: { element + element_count (drop depth (lengths_in (object_of declared.now))) ≤ 65536 },
}

/// The initialisers of rows that are not reached yet, and how many rows are left for them.
#[derive(Clone, Copy)]
pub struct Rows<'p> {
    pub object: usize,
    pub declared: &'p Object,
    pub depth: usize,
    pub count: usize,
    pub others: &'p [Init],
    pub element: usize,
    ghost within: { element + count * element_count (drop depth (lengths_in (object_of declared.now))) ≤ 65536 },
}

/// What waits for the value of an expression.
#[derive(Clone, Copy)]
pub enum ValueFrame<'p> {
    Unary {
        op: Unary,
        at: Place,
    },
    Left {
        op: Binary,
        right: &'p Expr,
        at: Place,
    },
    Right {
        op: Binary,
        x: Value,
        at: Place,
    },
    Reached {
        fork: bool,
        at: Place,
    },
    Choice(Choice<'p>),
    Chosen {
        fork: bool,
        at: Place,
        kind: CType,
    },
    Cast(CType),
    Comma(&'p Expr),
    Subscript(&'p [Expr], Use<'p>),
    AssignedTo(Assignment<'p>),
    Argument(Call<'p>),
    Acting(&'p [Action]),
    Initial {
        object: usize,
        element: usize,
    },
    IfTest(Branches<'p>),
    SwitchTest {
        body: &'p [Stmt],
        at: Place,
    },
    LoopTest(Loop<'p>, u64),
    Returning {
        tail: bool,
    },
}

/// The part of an iteration that is under way: its body or its step; or the first part of a `for`, before its iterations.
#[derive(Clone, Copy)]
pub enum Stage {
    First,
    Body,
    Step,
}

/// Where control returns to from a function: to a call, whose value may be used, or to nowhere from the top function.
#[derive(Clone, Copy)]
pub enum Caller {
    Expression { used: bool },
    Nowhere,
}

/// What waits for the end of a statement, of a declaration or of actions. A loop counts the points that were passed before it began and the iterations behind it.
#[derive(Clone, Copy)]
pub enum EndFrame<'p> {
    Rows(Rows<'p>),
    Declaring(&'p [Object]),
    Items {
        tail: bool,
        others: &'p [Stmt],
        count: usize,
    },
    BehindIf(Place),
    BehindSwitch(Place),
    Leaving,
    Looping(Stage, Loop<'p>, u64),
    Calling {
        caller: Caller,
        function: &'p Function,
        count: usize,
    },
}

#[derive(Clone, Copy)]
pub enum Frame<'p> {
    OnValue(ValueFrame<'p>),
    OnEnd(EndFrame<'p>),
}

/// What is done next.
#[derive(Clone, Copy)]
pub enum Step<'p> {
    Evaluate { used: bool, e: &'p Expr },
    Give(Value),
    Execute { tail: bool, stmt: &'p Stmt },
    Complete(Completion),
    Subscripts(&'p [Expr], Use<'p>),
    Arguments(Call<'p>),
    Act(&'p [Action]),
    Initialise(Initialiser<'p>),
    Forget(usize),
    Block { tail: bool, body: &'p [Stmt] },
    Jump(Value, &'p [Stmt]),
    Finish(Option<i128>),
}

/// The kind of a point, and where it stands in its function.
#[derive(Clone, Copy)]
pub struct Spot {
    pub kind: PointKind,
    pub at: Place,
}

/// A step follows, behind a point or at once; or the run is over.
#[derive(Clone, Copy)]
pub enum Control<'p> {
    Going(Option<Spot>, Step<'p>),
    Ended(Option<i128>),
    Undefined(UbRule, Place),
    Stuck,
}
