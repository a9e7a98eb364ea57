//! The address of an element: the low bits of its subscripts side by side.
ghost use Rattle.std.specs.Prelude.{◌≡◌, ◌<◌, ◌+◌, ◌*◌, ◌%◌, ◌^◌, ℕ, List, IfOk, IsSome, length};
ghost use Rattle.hls_base.specs.ArrayAddress as address;
ghost use Rattle.rtl_logic.specs.Making.{circuit};
ghost use Rattle.datapath.specs.Plans.{Plan, depth};
ghost use Rattle.datapath.specs.Cycles.{Register, Cycle};
ghost use Rattle.datapath.specs.Reading as reading;
ghost use Rattle.datapath.specs.CircuitWires.Carrying.{IsBegun, Carries, MakesCarrying};
ghost use Rattle.circuit_context.specs.Contexts.{IsContext, HasDimensions, subscripted, MayCarry, MakesAddress};

use crate::context::{Context, Reading};
use datapath::plan_sizes::sizes::{dimension_bits, memory_at};
use hls_base::number::ArrayId;
use hls_base::refusal::impossible;
use ir_core::body::Operand;
use rtl_core::design::Atom;
use rtl_logic::logic::Logic;
use std::alloc::AllocError;

/// A number with others above it, if there are any.
fn joined(logic: &mut Logic, high: Option<Atom>, low: Atom) -> Result<Atom, AllocError>
    ensures { (p : Plan) (names : List Register) (m k : ℕ) (H L : Cycle → ℕ) → IsBegun p names (circuit logic.old)
        → MayCarry p names (circuit logic.old) m high H → Carries p names (circuit logic.old) k low L
        → IfOk result (λ a. MakesCarrying p names (circuit logic.old) (circuit logic.new) (m + k) a (λ (c : Cycle). H c * 2 ^ k + L c)) }
{
    let Some(high) = high else {
        return Ok(low);
    };
    let bits = logic.width(high).saturating_add(logic.width(low));
    if bits == 0 || bits > 128 {
        return Err(impossible());
    }
    logic.join(high, low)
}

impl<'a> Context<'a> {
    /// The low bits of a subscript of a dimension of this size.
    fn subscript(
        &self,
        logic: &mut Logic,
        at: Reading,
        size: u32,
        subscript: Operand,
    ) -> Result<Atom, AllocError>
        requires { at.node.0 < length self.now.cfg.now.nodes.items }
        ensures { (p : Plan) (names : List Register) → IsContext p names self.now → IsBegun p names (circuit logic.old)
            → IfOk result (λ a. MakesCarrying p names (circuit logic.old) (circuit logic.new) (address.subscript_bits size) a
            (λ (c : Cycle). reading.operand p c at.node.0 at.time subscript % 2 ^ address.subscript_bits size)) }
    {
        let word = self.operand_of_any_width(logic, at, subscript, 64)?;
        let bits = logic.width(word);
        if bits == 0 || bits > 128 {
            return Err(impossible());
        }
        logic.resized(word, dimension_bits(size))
    }

    /// The subscripts side by side, each with the bits of its dimension.
    fn side_by_side(
        &self,
        logic: &mut Logic,
        at: Reading,
        dims: &[u32],
        subscripts: &[Operand],
    ) -> Result<Option<Atom>, AllocError>
        requires node { at.node.0 < length self.now.cfg.now.nodes.items }
        requires count { length dims.now ≡ length subscripts.now }
        ensures some { IfOk result (λ o. 0 < length dims.now → IsSome o) }
        ensures made { (p : Plan) (names : List Register) → IsContext p names self.now → IsBegun p names (circuit logic.old)
            → IfOk result (λ o. MakesAddress p names (circuit logic.old) (circuit logic.new) at.node.0 at.time dims.now subscripts.now o) }
    {
        let mut address: Option<Atom> = None;
        for (k, size) in dims.iter().enumerate() {
            let low = self.subscript(logic, at, *size, subscripts[k])?;
            address = Some(joined(logic, address, low)?);
        }
        Ok(address)
    }

    /// The address of an element of an array.
    pub fn address(
        &self,
        logic: &mut Logic,
        at: Reading,
        array: ArrayId,
        subscripts: &[Operand],
    ) -> Result<Atom, AllocError>
        requires node { at.node.0 < length self.now.cfg.now.nodes.items }
        requires array { HasDimensions self.now.cfg.now.frame array.0 (length subscripts.now) }
        ensures { (p : Plan) (names : List Register) → IsContext p names self.now → IsBegun p names (circuit logic.old)
            → IfOk result (λ a. MakesCarrying p names (circuit logic.old) (circuit logic.new) (depth p array.0) a (subscripted p at.node.0 at.time array.0 subscripts.now)) }
    {
        let Some(memory) = memory_at(self.cfg, array) else {
            unreachable!()
        };
        match self.side_by_side(logic, at, &memory.dims, subscripts)? {
            Some(address) => Ok(address),
            None => unreachable!(),
        }
    }
}
