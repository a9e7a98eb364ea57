//! The machine that runs a compiled program, cycle by cycle.
ghost use Rattle.std.specs.Prelude.{ℕ, IfOk, List, Option};
ghost use Rattle.pieces.specs.Program.{ExpandedTree};
ghost use Rattle.promises.specs.EndedMachines.{EndsInEdges};
ghost use Rattle.hls_flow.specs.Clocked.{EndsAfter};
ghost use Rattle.hls_flow.specs.Ending.{EndsInTime};

use clock_machine::machine::ClockMachine;
use hls_base::inputs::Inputs;
use ir_core::cfg::Cfg;
use ir_core::timed::Timed;
use std::alloc::{AllocError, Global};

/// Runs a compiled program to its end, and answers after how many edges of the clock that comes.
pub fn clocked_steps(alloc: Global, timed: &Cfg<Timed>, inputs: &Inputs) -> Result<u64, AllocError>
    requires { EndsInTime timed.now inputs.now }
    ensures { (e : ExpandedTree) (value : Option ℕ) (arrays : List (List ℕ)) → EndsInEdges e timed.now inputs.now value arrays → IfOk result (λ edges. EndsAfter e timed.now inputs.now edges value arrays) }
{
    let mut machine = ClockMachine::new(alloc, timed, inputs)?;
    match machine.steps_to_end(u64::MAX) {
        Some(steps) => Ok(steps),
        None => unreachable!(),
    }
}
