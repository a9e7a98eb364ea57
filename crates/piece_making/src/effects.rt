//! What the evaluation of an expression does besides giving a value.
ghost use Rattle.std.specs.Prelude.{◌≡◌, map};
ghost use Rattle.pieces.specs.Resolved.Core.{row, argument_row};
ghost use Rattle.pieces.specs.Resolved.CoreView.{core_of, core_argument_of, core_target_of};
ghost use Rattle.piece_making.specs.Acting.{either, with_call, with_change, with_comma, acts, spoils, effects, effects_of_all, effects_of_arguments, effects_of_target};

use pieces::resolved::expression::{Argument, CoreExpr, CoreTarget};

/// Whether an expression has calls, changes (assignments, `++` and `--`) or commas in it.
#[derive(Clone, Copy, PartialEq, Eq)]
pub struct Effects {
    pub calls: bool,
    pub changes: bool,
    pub commas: bool,
}

/// Those of an expression that only gives a value.
pub const NO_EFFECTS: Effects = Effects {
    calls: false,
    changes: false,
    commas: false,
};

impl Effects {
    pub fn or(self, other: Effects) -> Effects
        ensures { result ≡ either self other }
    {
        Effects {
            calls: self.calls || other.calls,
            changes: self.changes || other.changes,
            commas: self.commas || other.commas,
        }
    }

    fn with_call(self) -> Effects
        ensures { result ≡ with_call self }
    {
        Effects {
            calls: true,
            ..self
        }
    }

    fn with_change(self) -> Effects
        ensures { result ≡ with_change self }
    {
        Effects {
            changes: true,
            ..self
        }
    }

    fn with_comma(self) -> Effects
        ensures { result ≡ with_comma self }
    {
        Effects {
            commas: true,
            ..self
        }
    }

    /// Whether something needs pieces of its own.
    pub fn is_some(self) -> bool
        ensures { result ≡ acts self }
    {
        self.calls || self.changes || self.commas
    }

    /// Whether elements that are read before have to be saved.
    pub fn spoil_elements(self) -> bool
        ensures { result ≡ spoils self }
    {
        self.calls || self.changes
    }
}

/// The effects of an expression.
#[cycle(effects)]
pub fn effects_of(e: &CoreExpr) -> Effects
    ensures { result ≡ effects (core_of e.now) }
{
    match e {
        CoreExpr::Number { .. } | CoreExpr::Scalar { .. } => NO_EFFECTS,
        CoreExpr::Element { subscripts, .. } => effects_of_all(subscripts),
        CoreExpr::Call { args, .. } => effects_of_arguments(args).with_call(),
        CoreExpr::Unary { arg, .. } | CoreExpr::Cast { arg, .. } => effects_of(arg),
        CoreExpr::Binary { left, right, .. } => effects_of(left).or(effects_of(right)),
        CoreExpr::Choice { test, yes, no, .. } => {
            effects_of(test).or(effects_of(yes)).or(effects_of(no))
        }
        CoreExpr::Assign { target, value, .. } => {
            effects_of_target(target)
                .or(effects_of(value))
                .with_change()
        }
        CoreExpr::Bump { target, .. } => effects_of_target(target).with_change(),
        CoreExpr::Comma { left, right } => effects_of(left).or(effects_of(right)).with_comma(),
    }
}

/// The effects of some expressions together.
#[cycle(effects)]
pub fn effects_of_all(es: &[CoreExpr]) -> Effects
    ensures { result ≡ effects_of_all (row (map core_of es.now)) }
{
    let mut all = NO_EFFECTS;
    for e in es {
        all = all.or(effects_of(e));
    }
    all
}

/// The effects of some arguments together.
#[cycle(effects)]
pub fn effects_of_arguments(args: &[Argument]) -> Effects
    ensures { result ≡ effects_of_arguments (argument_row (map core_argument_of args.now)) }
{
    let mut all = NO_EFFECTS;
    for arg in args {
        if let Argument::Value(e) = arg {
            all = all.or(effects_of(e));
        }
    }
    all
}

#[cycle(effects)]
fn effects_of_target(target: &CoreTarget) -> Effects
    ensures { result ≡ effects_of_target (core_target_of target.now) }
{
    effects_of_all(&target.subscripts)
}
