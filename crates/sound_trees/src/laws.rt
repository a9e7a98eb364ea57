//! Laws of programs that are laid out from lowered, numbered and converted trees.
ghost use Rattle.sound_trees.specs.Laws.{TreesBecomeSound};

/// The nodes that pieces are lowered, numbered, converted and laid out to are sound, where the expressions have the types of what they name and each element has as many subscripts as its array has dimensions.
pub fn trees_become_sound()
    ensures { TreesBecomeSound }
{}
