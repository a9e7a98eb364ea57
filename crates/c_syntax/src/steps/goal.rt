ghost use Rattle.std.specs.Prelude.{◌≡◌, ◌+◌, IfOk, List, [], ◌∷◌, ◌++◌, MatchOption};
ghost use Rattle.c_syntax.specs.Steps as spec;
ghost use Rattle.c_syntax.specs.Steps.{Steps};

use crate::sorts::words::Words;
use std::alloc::{AllocError, Global};
use std::marker::Model;

/// What is still expected. The depth is the number of constructs that hold the tokens of the goal, and `first` the index of the token with which the operand of a possible `?` begins.
#[derive(Clone, Copy)]
pub enum Goal {
    /// a unary expression
    Operand {
        depth: u8,
    },
    /// a scalar or an element behind `++` or `--`
    Target {
        depth: u8,
    },
    Subscripts {
        depth: u8,
    },
    /// what may stand behind a name or an element in an operand
    AfterOperand {
        named: bool,
        depth: u8,
    },
    /// what stands behind an opening parenthesis: a type and its operand, or an expression
    Group {
        depth: u8,
    },
    Arguments {
        depth: u8,
    },
    MoreArguments {
        depth: u8,
    },
    /// an expression, C11 6.5.17
    Expression {
        depth: u8,
    },
    /// an assignment expression
    Assign {
        depth: u8,
    },
    /// an expression without assignment and comma
    Choice {
        depth: u8,
    },
    /// commas with assignment expressions
    Commas {
        depth: u8,
    },
    /// what may stand behind a name or an element with which an assignment expression or an action begins
    AfterTarget {
        named: bool,
        action: bool,
        depth: u8,
        first: usize,
    },
    /// binary operators with their operands, and `?`
    Operators {
        depth: u8,
        first: usize,
    },
    /// the colon of `?:` with the operand behind it
    ChoiceColon {
        depth: u8,
    },
    OptionalChoice {
        depth: u8,
    },
    OptionalExpression {
        depth: u8,
    },
    Action {
        depth: u8,
    },
    Actions {
        depth: u8,
    },
    MoreActions {
        depth: u8,
    },
    /// what `++` or `--` at the beginning of an action changes
    ActionTarget {
        depth: u8,
        first: usize,
    },
    ActionSubscripts {
        depth: u8,
        first: usize,
    },
    CloseParen {
        depth: u8,
        count: u16,
    },
    CloseBracket {
        depth: u8,
        count: u16,
    },
    CloseBrace {
        depth: u8,
    },
    OpenParen {
        depth: u8,
    },
    Semicolon {
        depth: u8,
    },
    LabelColon {
        depth: u8,
    },
    /// a type that has values
    Kind {
        depth: u8,
    },
    KindWords {
        words: Words,
        depth: u8,
    },
    Object {
        depth: u8,
    },
    MoreObjects {
        depth: u8,
    },
    Lengths {
        depth: u8,
    },
    Initialiser {
        depth: u8,
    },
    Init {
        depth: u8,
    },
    MoreInits {
        depth: u8,
    },
    OptionalInit {
        depth: u8,
    },
    Statement {
        depth: u8,
    },
    Else {
        depth: u8,
    },
    /// the `while` behind the statement of `do`
    Again {
        depth: u8,
    },
    Block {
        depth: u8,
    },
    /// the rest of a block with its closing brace
    Body {
        depth: u8,
    },
    /// the first part of a `for` with its semicolon
    First {
        depth: u8,
    },
    Params,
    MoreParams,
    OptionalName {
        depth: u8,
    },
    Items,
    /// an item, behind `const` or not
    Item {
        constant: bool,
    },
    FunctionName,
    Declarator,
    AfterDeclarator,
    Definition,
}

/// Which tokens seen so far lie in one construct more than was known.
#[derive(Clone, Copy)]
pub enum Raise {
    Nothing,
    /// those from this index on
    From(usize),
    /// those behind this index
    Behind(usize),
    /// those from this index on, and those behind it once more
    Both(usize),
}

/// How a token was taken: the constructs that hold it, whether it is an operator too many, how many operators its expression has now, and what it says of the tokens before.
#[derive(Clone, Copy)]
pub struct Take {
    pub nesting: u8,
    pub surplus: bool,
    pub count: u16,
    pub raise: Raise,
}

/// Where a token stands: its index, and how many operators its expression has before it.
#[derive(Clone, Copy)]
pub struct Spot {
    pub index: usize,
    pub count: u16,
}

/// The goals, the next one last.
#[derive(Drop)]
pub struct Stack {
    goals: Vec<Goal>,
}

impl Goal {
    /// Whether nothing need be taken for the goal.
    pub fn is_optional(self) -> bool
        ensures { result ≡ spec.is_optional self }
    {
        match self {
            Goal::Subscripts { .. }
            | Goal::AfterOperand { .. }
            | Goal::Arguments { .. }
            | Goal::MoreArguments { .. }
            | Goal::Commas { .. }
            | Goal::AfterTarget { .. }
            | Goal::Operators { .. }
            | Goal::OptionalChoice { .. }
            | Goal::OptionalExpression { .. }
            | Goal::Actions { .. }
            | Goal::MoreActions { .. }
            | Goal::ActionSubscripts { .. }
            | Goal::KindWords { .. }
            | Goal::MoreObjects { .. }
            | Goal::Lengths { .. }
            | Goal::Initialiser { .. }
            | Goal::MoreInits { .. }
            | Goal::OptionalInit { .. }
            | Goal::Else { .. }
            | Goal::Params
            | Goal::MoreParams
            | Goal::OptionalName { .. }
            | Goal::Items => true,
            _ => false,
        }
    }
}

impl Goal {
    /// How many constructs are open before the first token of a goal that must be taken.
    pub fn open_before(self) -> u8
        ensures { result ≡ spec.open_before self }
    {
        match self {
            Goal::Operand { depth }
            | Goal::Target { depth }
            | Goal::Expression { depth }
            | Goal::Assign { depth }
            | Goal::Choice { depth }
            | Goal::ChoiceColon { depth }
            | Goal::Action { depth }
            | Goal::ActionTarget { depth, .. }
            | Goal::OpenParen { depth }
            | Goal::Semicolon { depth }
            | Goal::LabelColon { depth }
            | Goal::Kind { depth }
            | Goal::Object { depth }
            | Goal::Init { depth }
            | Goal::Statement { depth }
            | Goal::Again { depth }
            | Goal::Block { depth }
            | Goal::Body { depth }
            | Goal::First { depth } => depth,
            Goal::Group { depth }
            | Goal::CloseParen { depth, .. }
            | Goal::CloseBracket { depth, .. }
            | Goal::CloseBrace { depth } => deeper(depth),
            _ => 0,
        }
    }
}

impl Model for Stack {
    ghost use Rattle.std.specs.Prelude.{List, reverse};
    ghost use Rattle.c_syntax.specs.declared.steps.goal.Goal.{Goal};

    ghost Value = { List Goal };

    ghost view = { λ s. reverse s.goals.items };
}

impl Stack {
    /// One item after another.
    pub fn new(alloc: Global) -> Result<Stack, AllocError>
        ensures { IfOk result (λ stack. stack ≡ Goal.Items ∷ []) }
    {
        let mut goals = Vec::new(alloc);
        goals.push(Goal::Items)?;
        Ok(Stack { goals })
    }

    pub fn pop(&mut self) -> Option<Goal>
        ensures { MatchOption result ((self.old ≡ []) × (self.new ≡ [])) (λ goal. self.old ≡ goal ∷ self.new) }
    {
        self.goals.pop()
    }

    /// Puts these goals on the stack, the first one next.
    pub fn put(&mut self, goals: &[Goal]) -> Result<(), AllocError>
        ensures { IfOk result (λ _. self.new ≡ goals.now ++ self.old) }
    {
        let mut i = goals.len();
        while i > 0 {
            i -= 1;
            self.goals.push(goals[i])?;
        }
        Ok(())
    }
}

/// One construct more. Beyond the limits the number stands still.
#[tactic(auto, unfolding(crate::specs::Steps::deeper))]
pub fn deeper(depth: u8) -> u8
    ensures { result ≡ spec.deeper depth }
{
    if depth < 255 { depth + 1 } else { depth }
}

/// One operator more. Beyond the limits the number stands still.
#[tactic(auto, unfolding(crate::specs::Steps::more))]
pub fn more(count: u16) -> u16
    ensures { result ≡ spec.more count }
{
    if count < 65535 { count + 1 } else { count }
}

/// The most binary operators that an expression may have.
const OPERATOR_LIMIT: u16 = 256;

impl Spot {
    /// The spot outside an expression, where no operator has been counted.
    pub fn fresh(self) -> Spot
        ensures { result ≡ spec.fresh self }
    {
        self.with_count(0)
    }

    /// The spot where the expression has so many operators.
    pub fn with_count(self, count: u16) -> Spot
        ensures { result ≡ record self { count = count } }
    {
        Spot {
            index: self.index,
            count,
        }
    }

    /// Takes a token that so many constructs hold, and leaves these goals.
    pub fn take(
        self,
        stack: &mut Stack,
        depth: u8,
        goals: &[Goal],
    ) -> Result<Option<Take>, AllocError>
        ensures { IfOk result (λ taken. Steps taken stack.old stack.new (spec.take self depth goals.now)) }
    {
        self.raise(stack, depth, Raise::Nothing, goals)
    }

    /// Takes a token that says something of those before.
    pub fn raise(
        self,
        stack: &mut Stack,
        depth: u8,
        raise: Raise,
        goals: &[Goal],
    ) -> Result<Option<Take>, AllocError>
        ensures { IfOk result (λ taken. Steps taken stack.old stack.new (spec.raise self depth raise goals.now)) }
    {
        stack.put(goals)?;
        Ok(Some(Take {
            nesting: depth,
            surplus: false,
            count: self.count,
            raise,
        }))
    }

    /// Takes a binary operator of the expression.
    pub fn operate(
        self,
        stack: &mut Stack,
        depth: u8,
        raise: Raise,
        goals: &[Goal],
    ) -> Result<Option<Take>, AllocError>
        ensures { IfOk result (λ taken. Steps taken stack.old stack.new (spec.operate self depth raise goals.now)) }
    {
        stack.put(goals)?;
        Ok(Some(Take {
            nesting: depth,
            surplus: OPERATOR_LIMIT <= self.count,
            count: more(self.count),
            raise,
        }))
    }
}
