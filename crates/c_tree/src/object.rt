ghost use Rattle.std.specs.Prelude.{◌≡◌};
ghost use Rattle.c_tree.specs.Tree as tree;
ghost use Rattle.c_tree.specs.View.{tree_of, init_of, inits_of};

use crate::expression::Expr;
use c_token::ctype::CType;
use hls_base::place::Place;
use hls_base::text::Text;

/// An initialiser, C11 6.7.9. The place of a list is its `{`.
#[derive(Drop)]
pub enum Init {
    Single(Expr),
    List(Vec<Init>, Place),
}

/// An object: its type, the lengths of its dimensions, and its initialiser. Its place is its name.
#[derive(Drop)]
pub struct Object {
    pub name: Text,
    pub at: Place,
    pub kind: CType,
    pub constant: bool,
    pub lengths: Vec<Option<Expr>>,
    pub init: Option<Init>,
}

impl Init {
    pub fn single(value: Expr) -> Init
        ensures { init_of result ≡ tree.single (tree_of value) }
    {
        Init::Single(value)
    }

    /// Initialisers in braces.
    pub fn list(items: Vec<Init>, at: Place) -> Init
        ensures { init_of result ≡ tree.braced (inits_of items.items) at }
    {
        Init::List(items, at)
    }
}
