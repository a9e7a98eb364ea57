//! Laws of the machines of sources.
ghost use Rattle.source_validity.specs.SourceMachines.{SourceProgramsAreReady, SourceFramesAreNamed, EndedSourcesEndMachines};

use crate::source_machines::whole_programs::scheduled_is_ready;

/// A program that is laid out and scheduled from a source without faults has all that a clock machine takes for granted.
pub fn source_programs_are_ready()
    ensures { SourceProgramsAreReady }
{
    scheduled_is_ready();
}

/// The parameters and the scalars of file scope of a source without faults are variables of the program that it becomes.
pub fn source_frames_are_named()
    ensures { SourceFramesAreNamed }
{}

/// Where the clocked run of a source ends as its run in C does, so does each machine in it, and no sooner.
pub fn ended_sources_end_machines()
    ensures { EndedSourcesEndMachines }
{}
