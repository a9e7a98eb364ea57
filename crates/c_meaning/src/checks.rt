ghost use Rattle.std.specs.Prelude.{IsTrue};
ghost use Rattle.c_tree.specs.View.{program_of};
ghost use Rattle.c_meaning.specs.Checks.Programs.{is_well_formed};

use c_tree::program::Program;

/// A program without faults, and the index of the item that is its top function with its body.
#[derive(Drop)]
pub struct Checked {
    pub program: Program,
    pub top: u32,
    ghost well_formed: { IsTrue (is_well_formed (program_of program) top) },
}
