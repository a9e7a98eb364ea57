//! Where a switch jumps to.
ghost use Rattle.std.specs.Prelude.{◌≡◌, map, OnOk, OnErr};
ghost use Rattle.std.specs.Option.{option_map};
ghost use Rattle.c_tree.specs.View.{object_of, stmt_of, stmts_of};
ghost use Rattle.c_meaning.specs.Store.{all_declared, declared_by, declared_in};
ghost use Rattle.c_machine.specs.Moves.{labelled, landing, rest_behind};
ghost use Rattle.c_machine.specs.Waiting.Labels.{wanted_by, labelled_of, landing_of};
ghost use Rattle.c_value.specs.Values.{promoted, convert};
ghost use Rattle.c_meaning.specs.Statement.{target_label};

use crate::state::scopes::Scopes;
use crate::waiting::label::{Wanted, is_wanted, target_label};
use c_meaning::value::Value;
use c_tree::object::Object as Declared;
use c_tree::statement::Stmt;
use c_value::convert::convert;
use c_value::kind::promoted;
use hls_base::place::Place;
use std::alloc::{AllocError, Global};

/// A statement behind a label, at the label.
#[derive(Clone, Copy)]
pub struct Labelled<'p> {
    pub at: Place,
    pub body: &'p Stmt,
}

/// Where a switch jumps to: what is declared before it, the statement behind the label, and what follows.
#[derive(Clone, Copy)]
pub struct Landing<'p> {
    pub skipped: &'p [Stmt],
    pub target: Labelled<'p>,
    pub rest: &'p [Stmt],
}

/// The statement behind the label that is looked for, where it stands in front of this one.
pub fn find_label(wanted: Wanted, stmt: &Stmt) -> Option<Labelled<'_>>
    ensures { option_map labelled_of result ≡ labelled (wanted_by wanted) (stmt_of stmt.now) }
{
    match stmt {
        Stmt::Case { value, body, at } => {
            if is_wanted(wanted, value) {
                Some(Labelled { at: *at, body })
            } else {
                find_label(wanted, body)
            }
        }
        _ => None,
    }
}

#[tactic(auto, using(crate::proofs::WaitingLemmas::Blocks::finding))]
/// Where a switch jumps to, if it has the label that is looked for.
pub fn find_landing(wanted: Wanted, body: &[Stmt]) -> Option<Landing<'_>>
    ensures { option_map landing_of result ≡ landing (wanted_by wanted) (stmts_of body.now) }
{
    for i in 0..body.len() {
        if let Some(target) = find_label(wanted, &body[i]) {
            return Some(Landing {
                skipped: &body[..i],
                target,
                rest: &body[i + 1..],
            });
        }
    }
    None
}

#[tactic(auto, using(crate::proofs::WaitingLemmas::Blocks::naming_declared))]
/// Brings the names of declarations into scope.
pub fn declare_all(
    alloc: Global,
    declared: &[Declared],
    scopes: &mut Scopes,
) -> Result<(), AllocError>
    ensures ok { OnOk result (scopes.new ≡ record scopes.old { environment = all_declared scopes.old.environment (map object_of declared.now) }) }
    ensures err { OnErr result (scopes.new ≡ record scopes.old { environment = scopes.new.environment }) }
{
    for d in declared {
        scopes.declare(alloc, &d.name)?;
    }
    Ok(())
}

pub fn skip_one(alloc: Global, stmt: &Stmt, scopes: &mut Scopes) -> Result<(), AllocError>
    ensures ok { OnOk result (scopes.new ≡ record scopes.old { environment = all_declared scopes.old.environment (declared_by (stmt_of stmt.now)) }) }
    ensures err { OnErr result (scopes.new ≡ record scopes.old { environment = scopes.new.environment }) }
{
    match stmt {
        Stmt::Declare(declared) => declare_all(alloc, declared, scopes),
        _ => Ok(()),
    }
}

#[tactic(auto, using(crate::proofs::WaitingLemmas::Blocks::naming_declared))]
/// Brings the names of skipped declarations into scope.
pub fn skip(alloc: Global, skipped: &[Stmt], scopes: &mut Scopes) -> Result<(), AllocError>
    ensures ok { OnOk result (scopes.new ≡ record scopes.old { environment = all_declared scopes.old.environment (declared_in (stmts_of skipped.now)) }) }
    ensures err { OnErr result (scopes.new ≡ record scopes.old { environment = scopes.new.environment }) }
{
    for stmt in skipped {
        skip_one(alloc, stmt, scopes)?;
    }
    Ok(())
}

/// The label that a value chooses.
pub fn label_of(x: Value, body: &[Stmt]) -> Wanted
    ensures { wanted_by result ≡ target_label (promoted x.kind) (convert (promoted x.kind) x.number) (stmts_of body.now) }
{
    let kind = promoted(x.kind);
    target_label(kind, convert(kind, x.number), body)
}

/// What follows where a switch jumps to.
pub fn rest_behind(landing: Option<Landing<'_>>) -> &[Stmt]
    ensures { stmts_of result.now ≡ rest_behind (option_map landing_of landing.entry) }
{
    match landing {
        Some(l) => l.rest,
        None => &[],
    }
}
