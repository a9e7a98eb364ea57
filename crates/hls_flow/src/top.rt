ghost use Rattle.std.specs.Prelude.{◌≡◌, true, map, slice_get, is_some, Some, IsSome};
ghost use Rattle.c_tree.specs.Tree as tree;
ghost use Rattle.c_tree.specs.View.{program_of, item_of, function_of};
ghost use Rattle.c_meaning.specs.Checks.Programs.{body_name_of};

use c_meaning::checks::Checked;
use c_tree::function::Function;
use c_tree::program::Item;

/// The function with a body that is the item with this index.
fn function_at(items: &[Item], index: usize) -> &Function
    requires { IsSome (body_name_of (slice_get (map item_of items.now) index)) }
    ensures item { slice_get (map item_of items.now) index ≡ Some (tree.function (function_of result.now)) }
    ensures body { is_some (function_of result.now).body ≡ true }
{
    match &items[index] {
        Item::Function(function) => function,
        Item::Objects(_) => unreachable!(),
    }
}

/// The top function, with its body.
pub fn top_of(checked: &Checked) -> &Function
    requires { IsSome (body_name_of (slice_get (program_of checked.now.program).items checked.now.top)) }
    ensures item { slice_get (program_of checked.now.program).items checked.now.top ≡ Some (tree.function (function_of result.now)) }
    ensures body { is_some (function_of result.now).body ≡ true }
{
    function_at(&checked.program.items, checked.top as usize)
}
