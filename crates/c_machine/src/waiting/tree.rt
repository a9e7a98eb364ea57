//! What is seen of an expression without evaluating it.
ghost use Rattle.std.specs.Prelude.{◌≡◌, map};
ghost use Rattle.std.specs.Option.{option_map, option_copied};
ghost use Rattle.c_tree.specs.View.{tree_of, trees_of, item_of, function_of};
ghost use Rattle.c_meaning.specs.Expression.{acts, any_acts};
ghost use Rattle.c_meaning.specs.Run.{definition_in, function_named, result_kind};

use c_token::ctype::CType;
use c_tree::expression::Expr;
use c_tree::function::Function;
use c_tree::program::Item;
use c_value::kind::INT;

/// Whether an expression has a call, an assignment, `++`, `--` or a comma.
///
/// Operators of one chain are gone through in a loop, so that the depth of the recursion is bounded by how deep the source nests.
#[cycle(acts)]
#[tactic(auto, using(crate::proofs::WaitingLemmas::Functions::acting))]
pub fn acts(e: &Expr) -> bool
    ensures { result ≡ acts (tree_of e.now) }
{
    let mut part = e;
    'chain: loop {
        match part {
            Expr::Number { .. } | Expr::Name { .. } => return false,
            Expr::Index { subscripts, .. } => return any_acts(subscripts),
            Expr::Unary { arg, .. } | Expr::Cast { arg, .. } => part = arg,
            Expr::Binary { left, right, .. } => {
                if acts(right) {
                    return true;
                }
                part = left;
            }
            Expr::Choice { test, yes, no, .. } => return acts(test) || acts(yes) || acts(no),
            Expr::Call { .. } | Expr::Assign { .. } | Expr::Bump { .. } | Expr::Comma { .. } => {
                return true;
            }
        }
    }
}

#[cycle(acts)]
#[tactic(auto, using(crate::proofs::WaitingLemmas::Functions::acting))]
fn any_acts(es: &[Expr]) -> bool
    ensures { result ≡ any_acts (trees_of es.now) }
{
    for e in es {
        if acts(e) {
            return true;
        }
    }
    false
}

fn definition_in<'a>(item: &'a Item, name: &[u8]) -> Option<&'a Function>
    ensures { option_map function_of (option_copied result) ≡ definition_in name.now (item_of item.now) }
{
    match item {
        Item::Function(f) if f.body.is_some() && f.name.is_same(name) => Some(f),
        _ => None,
    }
}

#[tactic(auto, using(crate::proofs::WaitingLemmas::Functions::functions))]
/// The definition of a function.
pub fn function_named<'a>(items: &'a [Item], name: &[u8]) -> Option<&'a Function>
    ensures { option_map function_of (option_copied result) ≡ function_named (map item_of items.now) name.now }
{
    for item in items {
        if let Some(f) = definition_in(item, name) {
            return Some(f);
        }
    }
    None
}

/// The type of a function's result, and int where there is none.
pub fn result_kind(items: &[Item], name: &[u8]) -> CType
    ensures { result ≡ result_kind (function_named (map item_of items.now) name.now) }
{
    match function_named(items, name) {
        Some(f) => f.result.unwrap_or(INT),
        None => INT,
    }
}
