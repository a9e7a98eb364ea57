ghost use Rattle.std.specs.Prelude.{◌≡◌, ◌≤◌, length, take, MatchResult, IfOk, IfErr};
ghost use Rattle.std.specs.List.{All, Contains};
ghost use Rattle.verilog_syntax.specs.declared.token.Token.{Token};
ghost use Rattle.verilog_syntax.specs.Views.{IsProper};
ghost use Rattle.verilog_syntax.specs.Forms.{FitsAll, classes_of};
ghost use Rattle.verilog_syntax.specs.Parsing.{tokens_in, Common, FitsSome, IsReached, StopsRight, IsParsed};
ghost use Rattle.verilog_syntax.specs.ModuleViews.{module_view};

use crate::form::{Class, Form};
use crate::module::Module;
use crate::token::Token;
use std::alloc::{AllocError, Global};

/// Why the tokens are no module: none goes on with the token behind so many, or there is no memory.
pub enum Stop {
    Behind(usize),
    Memory,
}

impl From<AllocError> for Stop {
    ghost use Rattle.std.specs.Prelude.{◌≡◌};
    ghost use Rattle.verilog_syntax.specs.declared.parser.Stop.TheVariants.{Memory};

    ghost from_gives = { λ _ e. e ≡ Memory };

    fn from(_e: AllocError) -> Stop {
        Stop::Memory
    }
}

/// How many classes at the front fit the tokens.
fn fitting(classes: &[Class], tokens: &[Token]) -> usize
    requires { All (λ (x : Token). IsProper x.kind) tokens.now }
    ensures { Common classes.now (tokens_in tokens.now) result }
{
    let mut n = 0;
    while n < classes.len() && n < tokens.len() && classes[n].fits(&tokens[n]) {
        n += 1;
    }
    n
}

/// The form among these that the tokens begin with, or how many tokens some of these have in common with the tokens.
fn find_form(forms: &[Form], tokens: &[Token]) -> Result<Form, usize>
    requires { All (λ (x : Token). IsProper x.kind) tokens.now }
    ensures { MatchResult result
        (λ form. Contains forms.now form × (length (classes_of form) ≤ length tokens.now) × FitsAll (classes_of form) (take (length (classes_of form)) (tokens_in tokens.now)))
        (λ n. All (FitsSome (tokens_in tokens.now) n) forms.now × IsReached (tokens_in tokens.now) n forms.now) }
{
    let mut longest = 0;
    for form in forms {
        let classes = form.classes();
        let n = fitting(classes, tokens);
        if n == classes.len() {
            return Ok(*form);
        }
        if longest < n {
            longest = n;
        }
    }
    Err(longest)
}

pub fn parse<'a>(alloc: Global, tokens: &[Token<'a>]) -> Result<Module<'a>, Stop>
    requires { All (λ (x : Token). IsProper x.kind) tokens.now }
    ensures parsed { IfOk result (λ m. IsParsed tokens.now (module_view m)) }
    ensures stopped { IfErr result (λ s. StopsRight (tokens_in tokens.now) s) }
{
    let mut module = Module::new(alloc);
    let mut last = Form::Start;
    let mut seen = 0;
    while !last.is_module_end() {
        let (_, left) = tokens.split_at(seen);
        match find_form(last.followers(), left) {
            Ok(form) => {
                let n = form.classes().len();
                let (taken, _) = left.split_at(n);
                module.add(form, taken)?;
                seen += n;
                last = form;
            }
            Err(n) => return Err(Stop::Behind(seen + n)),
        }
    }
    if seen < tokens.len() {
        return Err(Stop::Behind(seen));
    }
    Ok(module)
}
