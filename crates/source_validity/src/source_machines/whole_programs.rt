//! Laws of compiled programs and of the machines that run them cycle by cycle.
ghost use Rattle.source_validity.specs.SourceMachines.WholePrograms.{WellTimedIsReady, ScheduledIsReady};
ghost use Rattle.source_validity.specs.SourceMachines.WholePrograms.Machines.{MachineHaltsAtEnd, EndedRunsEndMachines, RunsEndOnce, ScheduledMachinesKeepRuns};

/// A sound program that names what is there has, with times that keep its rules, all that a clock machine takes for granted.
pub fn well_timed_is_ready()
    ensures { WellTimedIsReady }
{}

/// So has each program that is laid out and scheduled from fine pieces, where each element has as many subscripts as its array has dimensions.
pub fn scheduled_is_ready()
    ensures { ScheduledIsReady }
{}

/// A machine that stands in a clocked run has halted exactly where the run has ended.
pub fn machine_halts_at_end()
    ensures { MachineHaltsAtEnd }
{}

/// Where a clocked run ends after some edges and no sooner, a machine in it is at its end from then on, with the run's word and contents, and runs before.
pub fn ended_runs_end_machines()
    ensures { EndedRunsEndMachines }
{}

/// A clocked run that ends does so after one number of edges, with one word and contents.
pub fn runs_end_once()
    ensures { RunsEndOnce }
{}

/// Where a run of fine pieces ends, the machine of the program that is laid out and scheduled from them ends, with the word of its result, after exactly the cycles of its nodes and one more; where that run never ends, neither does the machine.
pub fn scheduled_machines_keep_runs()
    ensures { ScheduledMachinesKeepRuns }
{}
