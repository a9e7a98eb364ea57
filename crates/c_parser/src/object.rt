//! Objects and their initialisers, C11 6.7.6 and 6.7.9.
ghost use Rattle.std.specs.Prelude.{◌≡◌, ◌<◌, ◌≤◌, IfOk, OnOk, length, map, true};
ghost use Rattle.std.specs.Option.{option_map};
ghost use Rattle.c_token.specs.declared.punct.Punct.TheVariants as p;
ghost use Rattle.c_tree.specs.View.{tree_of, init_of, object_of};
ghost use Rattle.c_parser.specs.Cursor.Readings.{Found, Never, Anywhere, Closed, Listed, Ends, Lacks, sign_level};
ghost use Rattle.c_parser.specs.Objects.{OptionalExpression, closes_optional, Lengths, AnInit, InitItems, AnInitialiser, AnObject, ADeclaration, Separator};
ghost use Rattle.c_parser.specs.Cursor.Stops.{IfAbsent};

use crate::cursor::cursor::Cursor;
use crate::cursor::stop::Stop;
use crate::cursor::types::{ValueKind, value_kind};
use crate::expression::{ASSIGN, CHOICE, closed, expression};
use c_token::punct::Punct;
use c_tree::expression::Expr;
use c_tree::object::{Init, Object};
use std::alloc::Global;

/// Reads an expression of this level, or none, and the sign behind it.
pub fn optional(
    alloc: Global,
    cursor: &mut Cursor<'_>,
    level: u8,
    closer: Punct,
) -> Result<Option<Expr>, Stop>
    requires level { level < sign_level closer }
    requires closer { closes_optional closer ≡ true }
    ensures found { IfOk result (λ e. Found (Closed (OptionalExpression level) closer) Anywhere cursor.old (option_map tree_of e) cursor.new) }
    ensures absent { IfAbsent result (Never (Closed (OptionalExpression level) closer) Anywhere cursor.old) }
    ensures shorter { OnOk result (length cursor.new < length cursor.old) }
{
    if cursor.eat(closer) {
        return Ok(None);
    }
    let e = closed(alloc, cursor, level, closer)?;
    Ok(Some(e))
}

/// Reads all lengths of an array that come next.
pub fn lengths(alloc: Global, cursor: &mut Cursor<'_>) -> Result<Vec<Option<Expr>>, Stop>
    ensures found { IfOk result (λ es. Found Lengths (Ends 0) cursor.old (map (option_map tree_of) es.items) cursor.new) }
    ensures absent { IfAbsent result (Never Lengths (Ends 0) cursor.old) }
    ensures shorter { OnOk result (length cursor.new ≤ length cursor.old) }
{
    let mut es = Vec::new(alloc);
    while cursor.eat(Punct::LeftBracket) {
        let e = optional(alloc, cursor, CHOICE, Punct::RightBracket)?;
        es.push(e)?;
    }
    Ok(es)
}

/// Reads an initialiser.
#[cycle(initialiser)]
fn init(alloc: Global, cursor: &mut Cursor<'_>) -> Result<Init, Stop>
    ensures found { IfOk result (λ i. Found AnInit (Ends 14) cursor.old (init_of i) cursor.new) }
    ensures absent { IfAbsent result (Never AnInit (Ends 14) cursor.old) }
    ensures shorter { OnOk result (length cursor.new < length cursor.old) }
{
    if let Some(at) = cursor.take(Punct::LeftBrace) {
        let items = inits(alloc, cursor)?;
        return Ok(Init::list(items, at));
    }
    let e = expression(alloc, cursor, ASSIGN)?;
    Ok(Init::single(e))
}

/// Reads what stands between the braces of an initialiser, and the closing one.
#[cycle(initialiser)]
fn inits(alloc: Global, cursor: &mut Cursor<'_>) -> Result<Vec<Init>, Stop>
    ensures found { IfOk result (λ items. Found InitItems Anywhere cursor.old (map init_of items.items) cursor.new) }
    ensures absent { IfAbsent result (Never InitItems Anywhere cursor.old) }
    ensures shorter { OnOk result (length cursor.new < length cursor.old) }
{
    let mut items = Vec::new(alloc);
    loop {
        let item = init(alloc, cursor)?;
        items.push(item)?;
        if !is_followed(cursor)? {
            return Ok(items);
        }
    }
}

/// Takes what stands behind an initialiser in braces, and says whether another one follows.
fn is_followed(cursor: &mut Cursor<'_>) -> Result<bool, Stop>
    ensures found { IfOk result (λ another. Separator cursor.old another cursor.new) }
    ensures absent { IfAbsent result (Lacks p.Comma cursor.old × Lacks p.RightBrace cursor.old) }
    ensures shorter { OnOk result (length cursor.new < length cursor.old) }
{
    if cursor.eat(Punct::RightBrace) {
        return Ok(false);
    }
    if !cursor.eat(Punct::Comma) {
        return Err(Stop::Absent);
    }
    if cursor.eat(Punct::RightBrace) {
        return Ok(false);
    }
    Ok(true)
}

/// Reads `=` and an initialiser, if it comes next.
fn initialiser(alloc: Global, cursor: &mut Cursor<'_>) -> Result<Option<Init>, Stop>
    ensures found { IfOk result (λ i. Found AnInitialiser (Ends 14) cursor.old (option_map init_of i) cursor.new) }
    ensures absent { IfAbsent result (Never AnInitialiser (Ends 14) cursor.old) }
    ensures shorter { OnOk result (length cursor.new ≤ length cursor.old) }
{
    if !cursor.eat(Punct::Equal) {
        return Ok(None);
    }
    let init = init(alloc, cursor)?;
    Ok(Some(init))
}

/// Reads an object of this type.
fn object(alloc: Global, cursor: &mut Cursor<'_>, kind: ValueKind) -> Result<Object, Stop>
    ensures found { IfOk result (λ o. Found (AnObject kind) (Ends 14) cursor.old (object_of o) cursor.new) }
    ensures absent { IfAbsent result (Never (AnObject kind) (Ends 14) cursor.old) }
    ensures shorter { OnOk result (length cursor.new < length cursor.old) }
{
    let Some((text, at)) = cursor.name() else {
        return Err(Stop::Absent);
    };
    let name = text.copy(alloc)?;
    let lengths = lengths(alloc, cursor)?;
    let init = initialiser(alloc, cursor)?;
    Ok(Object {
        name,
        at,
        kind: kind.kind,
        constant: kind.constant,
        lengths,
        init,
    })
}

/// Reads the objects of this type, and the semicolon behind them.
pub fn objects(alloc: Global, cursor: &mut Cursor<'_>, kind: ValueKind) -> Result<Vec<Object>, Stop>
    ensures found { IfOk result (λ all. Found (Listed (AnObject kind) p.Semicolon) Anywhere cursor.old (map object_of all.items) cursor.new) }
    ensures absent { IfAbsent result (Never (Listed (AnObject kind) p.Semicolon) Anywhere cursor.old) }
    ensures shorter { OnOk result (length cursor.new < length cursor.old) }
{
    let mut all = Vec::new(alloc);
    loop {
        let one = object(alloc, cursor, kind)?;
        all.push(one)?;
        if !cursor.eat(Punct::Comma) {
            break;
        }
    }
    cursor.expect(Punct::Semicolon)?;
    Ok(all)
}

/// Reads a type, its objects, and the semicolon behind them.
pub fn declaration(alloc: Global, cursor: &mut Cursor<'_>) -> Result<Vec<Object>, Stop>
    ensures found { IfOk result (λ all. Found ADeclaration Anywhere cursor.old (map object_of all.items) cursor.new) }
    ensures absent { IfAbsent result (Never ADeclaration Anywhere cursor.old) }
    ensures shorter { OnOk result (length cursor.new < length cursor.old) }
{
    let kind = value_kind(alloc, cursor)?;
    objects(alloc, cursor, kind)
}
