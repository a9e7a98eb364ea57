ghost use Rattle.std.specs.Prelude.{◌≡◌, IfOk, map, Some, None};
ghost use Rattle.std.specs.Option.{option_map};
ghost use Rattle.c_tree.specs.Tree as tree;
ghost use Rattle.c_tree.specs.View.{tree_of, action_of, object_of, stmt_of, else_of, stmts_of, else_part, first_part};

use crate::action::Action;
use crate::expression::Expr;
use crate::object::Object;
use hls_base::place::Place;
use std::alloc::{AllocError, Global};

/// A statement, C11 6.8, or a declaration in a block. Its place is its keyword. A `Case` without a value is a `default`.
#[cycle(statement)]
#[derive(Drop)]
pub enum Stmt {
    Block(Vec<Stmt>),
    Declare(Vec<Object>),
    Act(Vec<Action>),
    If {
        test: Expr,
        yes: Box<Stmt>,
        no: Option<Else>,
        at: Place,
    },
    Switch {
        test: Expr,
        body: Vec<Stmt>,
        at: Place,
    },
    Case {
        value: Option<Expr>,
        body: Box<Stmt>,
        at: Place,
    },
    While {
        test: Expr,
        body: Box<Stmt>,
        at: Place,
    },
    Do {
        body: Box<Stmt>,
        test: Expr,
        at: Place,
    },
    For {
        init: Option<Box<Stmt>>,
        test: Option<Expr>,
        step: Vec<Action>,
        body: Box<Stmt>,
        at: Place,
    },
    Break(Place),
    Continue(Place),
    Return {
        value: Option<Expr>,
        at: Place,
    },
}

/// The second branch of an `if`, at its `else`.
#[cycle(statement)]
#[derive(Drop)]
pub struct Else {
    pub at: Place,
    pub body: Box<Stmt>,
}

impl Stmt {
    pub fn block(body: Vec<Stmt>) -> Stmt
        ensures { stmt_of result ≡ tree.block (stmts_of body.items) }
    {
        Stmt::Block(body)
    }

    pub fn declare(objects: Vec<Object>) -> Stmt
        ensures { stmt_of result ≡ tree.declare (map object_of objects.items) }
    {
        Stmt::Declare(objects)
    }

    pub fn act(actions: Vec<Action>) -> Stmt
        ensures { stmt_of result ≡ tree.act (map action_of actions.items) }
    {
        Stmt::Act(actions)
    }

    pub fn if_(
        alloc: Global,
        test: Expr,
        yes: Stmt,
        no: Option<Else>,
        at: Place,
    ) -> Result<Stmt, AllocError>
        ensures { IfOk result (λ s. stmt_of s ≡ tree.if_ (tree_of test) (stmt_of yes) (else_part (option_map else_of no)) at) }
    {
        let yes = Box::new(alloc, yes)?;
        Ok(Stmt::If { test, yes, no, at })
    }

    pub fn switch_(test: Expr, body: Vec<Stmt>, at: Place) -> Stmt
        ensures { stmt_of result ≡ tree.switch_ (tree_of test) (stmts_of body.items) at }
    {
        Stmt::Switch { test, body, at }
    }

    pub fn case_(
        alloc: Global,
        value: Option<Expr>,
        body: Stmt,
        at: Place,
    ) -> Result<Stmt, AllocError>
        ensures { IfOk result (λ s. stmt_of s ≡ tree.case_ (option_map tree_of value) (stmt_of body) at) }
    {
        let body = Box::new(alloc, body)?;
        Ok(Stmt::Case { value, body, at })
    }

    pub fn while_(alloc: Global, test: Expr, body: Stmt, at: Place) -> Result<Stmt, AllocError>
        ensures { IfOk result (λ s. stmt_of s ≡ tree.while_ (tree_of test) (stmt_of body) at) }
    {
        let body = Box::new(alloc, body)?;
        Ok(Stmt::While { test, body, at })
    }

    pub fn do_(alloc: Global, body: Stmt, test: Expr, at: Place) -> Result<Stmt, AllocError>
        ensures { IfOk result (λ s. stmt_of s ≡ tree.do_ (stmt_of body) (tree_of test) at) }
    {
        let body = Box::new(alloc, body)?;
        Ok(Stmt::Do { body, test, at })
    }

    pub fn for_(
        alloc: Global,
        init: Option<Stmt>,
        test: Option<Expr>,
        step: Vec<Action>,
        body: Stmt,
        at: Place,
    ) -> Result<Stmt, AllocError>
        ensures { IfOk result (λ s. stmt_of s ≡ tree.for_ (first_part (option_map stmt_of init)) (option_map tree_of test) (map action_of step.items) (stmt_of body) at) }
    {
        let init = match init {
            Some(part) => Some(Box::new(alloc, part)?),
            None => None,
        };
        let body = Box::new(alloc, body)?;
        Ok(Stmt::For {
            init,
            test,
            step,
            body,
            at,
        })
    }

    pub fn break_(at: Place) -> Stmt
        ensures { stmt_of result ≡ tree.break_ at }
    {
        Stmt::Break(at)
    }

    pub fn continue_(at: Place) -> Stmt
        ensures { stmt_of result ≡ tree.continue_ at }
    {
        Stmt::Continue(at)
    }

    pub fn return_(value: Option<Expr>, at: Place) -> Stmt
        ensures { stmt_of result ≡ tree.return_ (option_map tree_of value) at }
    {
        Stmt::Return { value, at }
    }
}

impl Else {
    pub fn new(alloc: Global, body: Stmt, at: Place) -> Result<Else, AllocError>
        ensures { IfOk result (λ e. else_of e ≡ tree.else_ at (stmt_of body)) }
    {
        let body = Box::new(alloc, body)?;
        Ok(Else { at, body })
    }
}
