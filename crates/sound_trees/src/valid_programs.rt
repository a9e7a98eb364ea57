//! Laws of valid programs: they are what schedules take for granted.
ghost use Rattle.sound_trees.specs.ValidPrograms.{SoundProgramsSetOnce, ValidProgramsAreSound, ValidProgramsReturnResults};

/// A valid program is sound where no two outs of a loop set one variable.
pub fn valid_programs_are_sound()
    ensures { ValidProgramsAreSound }
{}

/// In a sound program no two outs of a loop set one variable.
pub fn sound_programs_set_once()
    ensures { SoundProgramsSetOnce }
{}

/// A block of a valid program returns a word only where the program has a result.
pub fn valid_programs_return_results()
    ensures { ValidProgramsReturnResults }
{}
