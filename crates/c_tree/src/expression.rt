ghost use Rattle.std.specs.Prelude.{◌≡◌, IfOk, true, false};
ghost use Rattle.c_tree.specs.Tree as tree;
ghost use Rattle.c_tree.specs.View.{tree_of, target_of, trees_of};

use crate::operator::{Binary, Unary};
use c_token::ctype::CType;
use hls_base::place::Place;
use hls_base::text::Text;
use std::alloc::{AllocError, Global};

/// An expression, C11 6.5. The place of an operator is that of its token, that of a cast its `(`, and that of a name, an element or a call its name.
#[cycle(expression)]
#[derive(Drop)]
pub enum Expr {
    Number {
        value: u64,
        kind: CType,
        at: Place,
    },
    Name {
        name: Text,
        at: Place,
    },
    Index {
        array: Text,
        subscripts: Vec<Expr>,
        at: Place,
    },
    Call {
        callee: Text,
        args: Vec<Expr>,
        at: Place,
    },
    Unary {
        op: Unary,
        arg: Box<Expr>,
        at: Place,
    },
    Binary {
        op: Binary,
        left: Box<Expr>,
        right: Box<Expr>,
        at: Place,
    },
    Choice {
        test: Box<Expr>,
        yes: Box<Expr>,
        no: Box<Expr>,
        at: Place,
        colon: Place,
    },
    Cast {
        to: CType,
        arg: Box<Expr>,
        at: Place,
    },
    Assign {
        target: Target,
        op: Option<Binary>,
        value: Box<Expr>,
        at: Place,
    },
    Bump {
        target: Target,
        up: bool,
        post: bool,
        at: Place,
    },
    Comma {
        left: Box<Expr>,
        right: Box<Expr>,
        at: Place,
    },
}

/// What is assigned: a scalar, or an element with its subscripts.
#[cycle(expression)]
#[derive(Drop)]
pub struct Target {
    pub name: Text,
    pub subscripts: Vec<Expr>,
    pub at: Place,
}

impl Expr {
    pub fn number(value: u64, kind: CType, at: Place) -> Expr
        ensures { tree_of result ≡ tree.number value kind at }
    {
        Expr::Number { value, kind, at }
    }

    pub fn name(name: Text, at: Place) -> Expr
        ensures { tree_of result ≡ tree.name name at }
    {
        Expr::Name { name, at }
    }

    pub fn index(array: Text, subscripts: Vec<Expr>, at: Place) -> Expr
        ensures { tree_of result ≡ tree.index array (trees_of subscripts.items) at }
    {
        Expr::Index {
            array,
            subscripts,
            at,
        }
    }

    pub fn call(callee: Text, args: Vec<Expr>, at: Place) -> Expr
        ensures { tree_of result ≡ tree.call callee (trees_of args.items) at }
    {
        Expr::Call { callee, args, at }
    }

    pub fn unary(alloc: Global, op: Unary, arg: Expr, at: Place) -> Result<Expr, AllocError>
        ensures { IfOk result (λ e. tree_of e ≡ tree.unary op (tree_of arg) at) }
    {
        let arg = Box::new(alloc, arg)?;
        Ok(Expr::Unary { op, arg, at })
    }

    pub fn binary(
        alloc: Global,
        op: Binary,
        left: Expr,
        right: Expr,
        at: Place,
    ) -> Result<Expr, AllocError>
        ensures { IfOk result (λ e. tree_of e ≡ tree.binary op (tree_of left) (tree_of right) at) }
    {
        let left = Box::new(alloc, left)?;
        let right = Box::new(alloc, right)?;
        Ok(Expr::Binary {
            op,
            left,
            right,
            at,
        })
    }

    /// `test ? yes : no`, at the `?`.
    pub fn choice(
        alloc: Global,
        test: Expr,
        yes: Expr,
        no: Expr,
        at: Place,
        colon: Place,
    ) -> Result<Expr, AllocError>
        ensures { IfOk result (λ e. tree_of e ≡ tree.choice (tree_of test) (tree_of yes) (tree_of no) at colon) }
    {
        let test = Box::new(alloc, test)?;
        let yes = Box::new(alloc, yes)?;
        let no = Box::new(alloc, no)?;
        Ok(Expr::Choice {
            test,
            yes,
            no,
            at,
            colon,
        })
    }

    pub fn cast(alloc: Global, to: CType, arg: Expr, at: Place) -> Result<Expr, AllocError>
        ensures { IfOk result (λ e. tree_of e ≡ tree.cast to (tree_of arg) at) }
    {
        let arg = Box::new(alloc, arg)?;
        Ok(Expr::Cast { to, arg, at })
    }

    /// `target = value`, or with an operator as in `target += value`.
    pub fn assign(
        alloc: Global,
        target: Target,
        op: Option<Binary>,
        value: Expr,
        at: Place,
    ) -> Result<Expr, AllocError>
        ensures { IfOk result (λ e. tree_of e ≡ tree.assign (target_of target) op (tree_of value) at) }
    {
        let value = Box::new(alloc, value)?;
        Ok(Expr::Assign {
            target,
            op,
            value,
            at,
        })
    }

    /// `++` or `--` before the target.
    pub fn bump_before(target: Target, up: bool, at: Place) -> Expr
        ensures { tree_of result ≡ tree.bump (target_of target) up false at }
    {
        Expr::Bump {
            target,
            up,
            post: false,
            at,
        }
    }

    /// `++` or `--` behind the target.
    pub fn bump_behind(target: Target, up: bool, at: Place) -> Expr
        ensures { tree_of result ≡ tree.bump (target_of target) up true at }
    {
        Expr::Bump {
            target,
            up,
            post: true,
            at,
        }
    }

    pub fn comma(alloc: Global, left: Expr, right: Expr, at: Place) -> Result<Expr, AllocError>
        ensures { IfOk result (λ e. tree_of e ≡ tree.comma (tree_of left) (tree_of right) at) }
    {
        let left = Box::new(alloc, left)?;
        let right = Box::new(alloc, right)?;
        Ok(Expr::Comma { left, right, at })
    }
}

impl Target {
    pub fn new(name: Text, subscripts: Vec<Expr>, at: Place) -> Target
        ensures { target_of result ≡ tree.target name (trees_of subscripts.items) at }
    {
        Target {
            name,
            subscripts,
            at,
        }
    }
}
