//! Functions and programs, C11 6.7.6.3 and 6.9.
ghost use Rattle.std.specs.Prelude.{◌≡◌, ◌<◌, ◌≤◌, ◌⊎◌, ◌∷◌, IfOk, OnOk, IfSome, IfNone, MatchBool, length, map, codes};
ghost use Rattle.std.specs.Option.{option_map};
ghost use Rattle.hls_base.specs.declared.place.Place.{Place};
ghost use Rattle.c_token.specs.declared.punct.Punct.TheVariants as p;
ghost use Rattle.c_tree.specs.Tree.{ProgramTree};
ghost use Rattle.c_tree.specs.Terminals.{terminals, word};
ghost use Rattle.c_tree.specs.Grammar.{DerivesProgram};
ghost use Rattle.c_tree.specs.View.{tree_of, param_of, function_of, item_of, program_of};
ghost use Rattle.c_parser.specs.Cursor.Readings.{Found, Never, Anywhere, Listed, LacksWord};
ghost use Rattle.c_parser.specs.Objects.{Separated};
ghost use Rattle.c_parser.specs.Functions.{AParam, ParamBehind, Params, ADefinition, AFunction, AnItem, Items, param_with, body_trees};
ghost use Rattle.c_parser.specs.Cursor.Stops.{IfAbsent};

use crate::cursor::cursor::Cursor;
use crate::cursor::stop::Stop;
use crate::cursor::types::{Kind, ValueKind, some_kind, value_kind};
use crate::object::{lengths, objects};
use crate::statement::block;
use c_token::ctype::CType;
use c_token::punct::Punct;
use c_token::token::Token;
use c_tree::expression::Expr;
use c_tree::function::{Function, Param};
use c_tree::object::Object;
use c_tree::program::{Item, Program};
use c_tree::statement::Stmt;
use hls_base::place::Place;
use hls_base::text::Text;
use std::alloc::{AllocError, Global};

/// The program that the tokens are, at this end of the source, or `None` where they are none. It is the only one. The statements, the expressions and the initialisers of the tokens may nest as deep as there is stack for.
pub fn build(alloc: Global, tokens: &[Token], end: Place) -> Result<Option<Program>, AllocError>
    ensures found { IfOk result (λ o. IfSome o (λ program. DerivesProgram (terminals tokens.now) end (program_of program))) }
    ensures only { IfOk result (λ o. IfSome o (λ program. (other : ProgramTree) → DerivesProgram (terminals tokens.now) end other → other ≡ program_of program)) }
    ensures none { IfOk result (λ o. IfNone o ((other : ProgramTree) → DerivesProgram (terminals tokens.now) end other → ⊥)) }
{
    let mut cursor = Cursor::new(tokens);
    match items(alloc, &mut cursor) {
        Ok(items) => Ok(Some(Program { items, end })),
        Err(Stop::Absent) => Ok(None),
        Err(Stop::Memory) => Err(AllocError),
    }
}

/// Reads all items, up to the end.
fn items(alloc: Global, cursor: &mut Cursor<'_>) -> Result<Vec<Item>, Stop>
    ensures found { IfOk result (λ all. Found Items Anywhere cursor.old (map item_of all.items) cursor.new) }
    ensures absent { IfAbsent result (Never Items Anywhere cursor.old) }
{
    let mut all = Vec::new(alloc);
    while let Some(_token) = cursor.peek() {
        let one = item(alloc, cursor)?;
        all.push(one)?;
    }
    Ok(all)
}

/// Reads a function or the objects of a declaration.
fn item(alloc: Global, cursor: &mut Cursor<'_>) -> Result<Item, Stop>
    ensures found { IfOk result (λ i. Found AnItem Anywhere cursor.old (item_of i) cursor.new) }
    ensures absent { IfAbsent result (Never AnItem Anywhere cursor.old) }
    ensures shorter { OnOk result (length cursor.new < length cursor.old) }
{
    while pass_over(cursor) {}
    let kind = some_kind(alloc, cursor)?;
    if cursor.opens_call() {
        let made = function(alloc, cursor, kind.kind)?;
        return Ok(Item::Function(made));
    }
    let value = object_kind(kind)?;
    let all = objects(alloc, cursor, value)?;
    Ok(Item::Objects(all))
}

/// The type of objects, which is not `void`.
fn object_kind(kind: Kind) -> Result<ValueKind, Stop>
    ensures found { IfOk result (λ value. (kind.kind ≡ Some value.kind) × (value.constant ≡ kind.constant)) }
    ensures absent { IfAbsent result (kind.kind ≡ None) }
{
    match kind.kind {
        Some(value) => Ok(ValueKind {
            kind: value,
            constant: kind.constant,
        }),
        None => Err(Stop::Absent),
    }
}

/// Takes `static` or `inline`, which change nothing, and says whether one came.
fn pass_over(cursor: &mut Cursor<'_>) -> bool
    ensures { MatchBool result ((at : Place) × ((cursor.old ≡ word (codes "static") at ∷ cursor.new) ⊎ (cursor.old ≡ word (codes "inline") at ∷ cursor.new)))
        ((cursor.new ≡ cursor.old) × LacksWord (codes "static") cursor.old × LacksWord (codes "inline") cursor.old) }
{
    if cursor.eat_word(b"static") {
        return true;
    }
    cursor.eat_word(b"inline")
}

/// Reads a function behind its result.
fn function(alloc: Global, cursor: &mut Cursor<'_>, kind: Option<CType>) -> Result<Function, Stop>
    ensures found { IfOk result (λ f. Found (AFunction kind) Anywhere cursor.old (function_of f) cursor.new) }
    ensures absent { IfAbsent result (Never (AFunction kind) Anywhere cursor.old) }
    ensures shorter { OnOk result (length cursor.new < length cursor.old) }
{
    let Some((text, at)) = cursor.name() else {
        return Err(Stop::Absent);
    };
    let name = text.copy(alloc)?;
    cursor.expect(Punct::LeftParen)?;
    let params = params(alloc, cursor)?;
    let body = definition(alloc, cursor)?;
    Ok(Function {
        name,
        at,
        result: kind,
        params,
        body,
    })
}

/// Reads what stands between the parentheses of a function, and the closing one.
fn params(alloc: Global, cursor: &mut Cursor<'_>) -> Result<Vec<Param>, Stop>
    ensures found { IfOk result (λ all. Found Params Anywhere cursor.old (map param_of all.items) cursor.new) }
    ensures absent { IfAbsent result (Never Params Anywhere cursor.old) }
    ensures shorter { OnOk result (length cursor.new < length cursor.old) }
{
    if cursor.eat(Punct::RightParen) {
        return Ok(Vec::new(alloc));
    }
    let Some(_at) = cursor.word(b"void") else {
        return param_list(alloc, cursor);
    };
    cursor.expect(Punct::RightParen)?;
    Ok(Vec::new(alloc))
}

/// Reads one parameter or more, and the closing parenthesis.
fn param_list(alloc: Global, cursor: &mut Cursor<'_>) -> Result<Vec<Param>, Stop>
    ensures found { IfOk result (λ all. Found (Listed AParam p.RightParen) Anywhere cursor.old (map param_of all.items) cursor.new) }
    ensures absent { IfAbsent result (Never (Listed AParam p.RightParen) Anywhere cursor.old) }
    ensures shorter { OnOk result (length cursor.new < length cursor.old) }
{
    let mut all = Vec::new(alloc);
    loop {
        let one = param(alloc, cursor)?;
        all.push(one)?;
        if !cursor.eat(Punct::Comma) {
            break;
        }
    }
    cursor.expect(Punct::RightParen)?;
    Ok(all)
}

/// Reads a parameter.
fn param(alloc: Global, cursor: &mut Cursor<'_>) -> Result<Param, Stop>
    ensures found { IfOk result (λ one. Found AParam Separated cursor.old (param_of one) cursor.new) }
    ensures absent { IfAbsent result (Never AParam Separated cursor.old) }
    ensures shorter { OnOk result (length cursor.new ≤ length cursor.old) }
{
    let Some(first) = cursor.peek() else {
        return Err(Stop::Absent);
    };
    let start = first.place;
    let kind = value_kind(alloc, cursor)?;
    param_behind(alloc, cursor, kind, start)
}

/// Reads a parameter behind its type, which begins at this place.
fn param_behind(
    alloc: Global,
    cursor: &mut Cursor<'_>,
    kind: ValueKind,
    start: Place,
) -> Result<Param, Stop>
    ensures found { IfOk result (λ one. Found (ParamBehind start kind) Separated cursor.old (param_of one) cursor.new) }
    ensures absent { IfAbsent result (Never (ParamBehind start kind) Separated cursor.old) }
    ensures shorter { OnOk result (length cursor.new ≤ length cursor.old) }
{
    let Some((text, at)) = cursor.name() else {
        let unnamed_lengths = lengths(alloc, cursor)?;
        let unnamed = Text::new(Vec::new(alloc));
        return Ok(make_param(kind, unnamed, start, unnamed_lengths, false));
    };
    let name = text.copy(alloc)?;
    let lengths = lengths(alloc, cursor)?;
    Ok(make_param(kind, name, at, lengths, true))
}

fn make_param(
    kind: ValueKind,
    name: Text,
    at: Place,
    lengths: Vec<Option<Expr>>,
    named: bool,
) -> Param
    ensures { param_of result ≡ param_with kind name at (map (option_map tree_of) lengths.items) named }
{
    Param {
        object: Object {
            name,
            at,
            kind: kind.kind,
            constant: kind.constant,
            lengths,
            init: None,
        },
        named,
    }
}

/// Reads the body of a function, or the semicolon of its declaration.
fn definition(alloc: Global, cursor: &mut Cursor<'_>) -> Result<Option<Vec<Stmt>>, Stop>
    ensures found { IfOk result (λ body. Found ADefinition Anywhere cursor.old (option_map body_trees body) cursor.new) }
    ensures absent { IfAbsent result (Never ADefinition Anywhere cursor.old) }
    ensures shorter { OnOk result (length cursor.new < length cursor.old) }
{
    if cursor.eat(Punct::Semicolon) {
        return Ok(None);
    }
    let body = block(alloc, cursor)?;
    Ok(Some(body))
}
