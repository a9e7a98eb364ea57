//! Laws of what programs without faults begin and end with.
ghost use Rattle.compile_steps.specs.BegunPrograms.{SoundProgramsBegin, SoundInputsFill, CheckedProgramsBegin, CheckedInputsFill};

/// The expansion of a sound program, whose objects of file scope have first contents that fill them, has first contents, keeps its variables, and has one for its result.
pub fn sound_programs_begin()
    ensures { SoundProgramsBegin }
{}

/// Inputs that fit a sound program fill the parameters of its expansion, the arrays that the host reaches, and what file scope keeps.
pub fn sound_inputs_fill()
    ensures { SoundInputsFill }
{}

/// So it is of the expansion of a program without faults, none of whose arrays has a length above 65,536.
pub fn checked_programs_begin()
    ensures { CheckedProgramsBegin }
{}

/// Inputs that fit such a program fill the parameters of its expansion, the arrays that the host reaches, and what file scope keeps.
pub fn checked_inputs_fill()
    ensures { CheckedInputsFill }
{}
