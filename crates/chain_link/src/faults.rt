//! The first fault of the stages. Called by `link`.
ghost use Rattle.std.specs.Prelude.{◌≡◌, ◌↔◌, ◌≤◌, ℕ, IsTrue, IfSome, None, Some, List, map, length, codes, slice_get};
ghost use Rattle.rtl_core.specs.Netlist.{netlist_of};
ghost use Rattle.rtl_core.specs.Interface.{pin, outer};
ghost use Rattle.chain_link.specs.Faults.{AreFew, AreStages, AreStageInputs, AreStageOutputs, HaveStageInputs, HaveStageOutputs, HasStagePins, IsFirstFault, IsLinkFault, IsStage, IsStageFault, Joins, refusal_at};

use crate::numbers::{argument_bits, result_bits};
use hls_base::place::Place;
use hls_base::refusal::Refusal;
use rtl_core::design::{Design, OutPin, Pin};

fn is_input(pins: &[Pin], k: usize, name: &[u8], bits: u8) -> bool
    ensures { IsTrue result ↔ (slice_get pins.now k ≡ Some (pin name.now bits)) }
{
    k < pins.len() && is_pin(&pins[k], name, bits)
}

fn is_pin(p: &Pin, name: &[u8], bits: u8) -> bool
    ensures { IsTrue result ↔ (p.now ≡ pin name.now bits) }
{
    p.name.is_same(name) && p.bits == bits
}

fn is_argument(pins: &[Pin], k: usize) -> bool
    ensures { IsTrue result ↔ ((bits : ℕ) × (slice_get pins.now k ≡ Some (pin (codes "arg_0") bits))) }
{
    k < pins.len() && pins[k].name.is_same(b"arg_0")
}

fn begin_as_controls(pins: &[Pin]) -> bool
    ensures { IsTrue result ↔ (slice_get pins.now 0 ≡ Some (pin (codes "reset") 1)) × (slice_get pins.now 1 ≡ Some (pin (codes "start") 1))
        × (slice_get pins.now 2 ≡ Some (pin (codes "h_en") 1)) × (slice_get pins.now 3 ≡ Some (pin (codes "h_we") 1)) }
{
    is_input(pins, 0, b"reset", 1)
        && is_input(pins, 1, b"start", 1)
        && is_input(pins, 2, b"h_en", 1)
        && is_input(pins, 3, b"h_we", 1)
}

fn go_on_as_host(pins: &[Pin]) -> bool
    ensures { IsTrue result ↔ (slice_get pins.now 4 ≡ Some (pin (codes "h_sel") 5)) × (slice_get pins.now 5 ≡ Some (pin (codes "h_addr") 16))
        × (slice_get pins.now 6 ≡ Some (pin (codes "h_wdata") 64)) }
{
    is_input(pins, 4, b"h_sel", 5)
        && is_input(pins, 5, b"h_addr", 16)
        && is_input(pins, 6, b"h_wdata", 64)
}

fn have_stage_inputs(pins: &[Pin]) -> bool
    ensures { IsTrue result ↔ HaveStageInputs pins.now }
{
    pins.len() == 8 && begin_as_controls(pins) && go_on_as_host(pins) && is_argument(pins, 7)
}

/// Whether the inputs are those of a function with one scalar parameter.
fn are_stage_inputs(pins: &[Pin]) -> bool
    ensures { IsTrue result ↔ AreStageInputs pins.now }
{
    have_stage_inputs(pins)
}

fn is_output(pins: &[OutPin], k: usize, name: &[u8], bits: u8) -> bool
    ensures { IsTrue result ↔ (slice_get (map outer pins.now) k ≡ Some (pin name.now bits)) }
{
    k < pins.len() && is_out_pin(&pins[k], name, bits)
}

fn is_out_pin(p: &OutPin, name: &[u8], bits: u8) -> bool
    ensures { IsTrue result ↔ (outer p.now ≡ pin name.now bits) }
{
    p.name.is_same(name) && p.bits == bits
}

fn is_result(pins: &[OutPin], k: usize) -> bool
    ensures { IsTrue result ↔ ((bits : ℕ) × (slice_get (map outer pins.now) k ≡ Some (pin (codes "ret") bits))) }
{
    k < pins.len() && pins[k].name.is_same(b"ret")
}

fn begin_as_state(pins: &[OutPin]) -> bool
    ensures { IsTrue result ↔ (slice_get (map outer pins.now) 0 ≡ Some (pin (codes "ready") 1)) × (slice_get (map outer pins.now) 1 ≡ Some (pin (codes "done") 1))
        × (slice_get (map outer pins.now) 2 ≡ Some (pin (codes "h_rdata") 64)) }
{
    is_output(pins, 0, b"ready", 1)
        && is_output(pins, 1, b"done", 1)
        && is_output(pins, 2, b"h_rdata", 64)
}

fn have_stage_outputs(pins: &[OutPin]) -> bool
    ensures { IsTrue result ↔ HaveStageOutputs (map outer pins.now) }
{
    pins.len() == 4 && begin_as_state(pins) && is_result(pins, 3)
}

/// Whether the outputs are those of a function with a result.
fn are_stage_outputs(pins: &[OutPin]) -> bool
    ensures { IsTrue result ↔ AreStageOutputs (map outer pins.now) }
{
    have_stage_outputs(pins)
}

fn has_stage_pins(stage: &Design) -> bool
    ensures { IsTrue result ↔ HasStagePins (netlist_of stage.now) }
{
    are_stage_inputs(&stage.inputs) && are_stage_outputs(&stage.outputs)
}

/// Whether the parameter has the width of the result before it, if there is one.
fn joins(before: Option<u8>, stage: &Design) -> bool
    ensures { IsTrue result ↔ Joins before (netlist_of stage.now) }
{
    match before {
        Some(bits) => argument_bits(stage) == bits,
        None => true,
    }
}

/// The first rule that the stage breaks.
fn stage_fault(before: Option<u8>, stage: &Design) -> Option<u8>
    ensures found { IfSome result (λ rule. IsStageFault before (netlist_of stage.now) rule) }
    ensures none { result ≡ None → IsStage before (netlist_of stage.now) }
{
    if !has_stage_pins(stage) {
        return Some(83);
    }
    if !stage.mems.is_empty() {
        return Some(81);
    }
    if !joins(before, stage) {
        return Some(80);
    }
    None
}

/// Stage K is reported at place K:1.
fn refusal_at(rule: u8, stage: u32) -> Refusal
    ensures { result ≡ refusal_at rule stage }
{
    Refusal {
        rule,
        place: Place {
            line: stage,
            column: 1,
            part: 0,
        },
    }
}

fn first_fault(stages: &[Design]) -> Option<Refusal>
    requires { length stages.now ≤ 16 }
    ensures found { IfSome result (λ r. IsFirstFault 1 None (map netlist_of stages.now) r) }
    ensures none { result ≡ None → AreStages None (map netlist_of stages.now) }
{
    let mut before = None;
    for k in 0..stages.len() {
        if let Some(rule) = stage_fault(before, &stages[k]) {
            return Some(refusal_at(rule, k as u32 + 1));
        }
        before = Some(result_bits(&stages[k]));
    }
    None
}

/// Why the stages cannot be linked, if they cannot: too few or too many of them, or the first stage that breaks a rule.
pub fn fault(stages: &[Design]) -> Option<Refusal>
    ensures found { IfSome result (λ r. IsLinkFault (map netlist_of stages.now) r) }
    ensures few { result ≡ None → AreFew (map netlist_of stages.now) }
    ensures none { result ≡ None → AreStages None (map netlist_of stages.now) }
{
    if stages.is_empty() || stages.len() > 16 {
        return Some(refusal_at(82, 1));
    }
    first_fault(stages)
}
