//! Laws of the machines of programs whose runs in C end.
ghost use Rattle.promises.specs.EndedMachines.{FlatRunsEndInTime, ClockedRunsEndInTime};

use source_validity::source_machines::laws::source_programs_are_ready;

/// Where the run in C ends within a billion points, so does the run of the flat program, block by block, and a machine that counts its steps in 64 bits comes to its end.
pub fn flat_runs_end_in_time()
    ensures { FlatRunsEndInTime }
{}

/// So does the clocked run, and a machine that counts its edges in 64 bits comes to its end.
pub fn clocked_runs_end_in_time()
    ensures { ClockedRunsEndInTime }
{
    source_programs_are_ready();
}
