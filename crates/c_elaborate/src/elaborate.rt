//! The core program of a program.
ghost use Rattle.std.specs.Prelude.{◌≡◌, IfOk};
ghost use Rattle.c_tree.specs.View.{program_of};
ghost use Rattle.pieces.specs.Resolved.CoreView.{core_program_of};
ghost use Rattle.c_elaborate.specs.Programs.{program_elaborated};

use crate::blocks::Scene;
use crate::file::{file_names, file_objects};
use crate::functions::{all_functions, first_items, signatures};
use crate::numbers::number_behind;
use c_meaning::checks::Checked;
use c_meaning::file_scope::declarations;
use pieces::resolved::program::CoreProgram;
use std::alloc::{AllocError, Global};

/// The core program of a checked program.
pub fn elaborate(alloc: Global, checked: &Checked) -> Result<CoreProgram, AllocError>
    ensures { IfOk result (λ core. core_program_of core ≡ program_elaborated (program_of checked.now.program) checked.now.top) }
{
    let items = checked.program.items.as_slice();
    let declared = declarations(alloc, items)?;
    let file = file_objects(alloc, &declared)?;
    let mut scene = Scene::of_file(file_names(alloc, &declared)?);
    let known = signatures(alloc, items)?;
    let functions = all_functions(alloc, &known, &mut scene, items)?;
    let before = signatures(alloc, first_items(items, checked.top))?;
    let top = number_behind(before.len())?;
    Ok(CoreProgram {
        file,
        functions,
        top,
    })
}
