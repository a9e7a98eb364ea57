//! What a program has beside its blocks.
ghost use Rattle.std.specs.Prelude.{◌≡◌, IfOk, map};
ghost use Rattle.c_value.specs.Values as values;
ghost use Rattle.ir_lower.specs.Frames as spec;
ghost use Rattle.ir_lower.specs.Frames.{memory_view, frame_view};

use c_token::ctype::CType;
use c_value::kind::width;
use hls_base::text::Text;
use hls_base::words::Words;
use ir_core::cfg::{Frame, Memory};
use pieces::expanded::{ArrayInfo, Expanded};
use std::alloc::{AllocError, Global};

fn copy_words(alloc: Global, words: &Option<Words>) -> Result<Option<Words>, AllocError>
    ensures { IfOk result (λ w. w ≡ words.now) }
{
    match words {
        Some(words) => Ok(Some(words.copy(alloc)?)),
        None => Ok(None),
    }
}

fn memory_of(alloc: Global, array: &ArrayInfo) -> Result<Memory, AllocError>
    ensures { IfOk result (λ m. memory_view m ≡ spec.memory_of array.now) }
{
    Ok(Memory {
        name: array.name.copy(alloc)?,
        bits: width(array.kind),
        dims: Vec::from_slice(alloc, array.dims.as_slice())?,
        table: copy_words(alloc, &array.table)?,
        initial: copy_words(alloc, &array.initial)?,
        host: array.host,
    })
}

fn memories_of(alloc: Global, arrays: &[ArrayInfo]) -> Result<Vec<Memory>, AllocError>
    ensures { IfOk result (λ m. map memory_view m.items ≡ map spec.memory_of arrays.now) }
{
    let mut memories = Vec::new(alloc);
    for array in arrays {
        memories.push(memory_of(alloc, array)?)?;
    }
    Ok(memories)
}

fn widths_of(alloc: Global, kinds: &[CType]) -> Result<Vec<u8>, AllocError>
    ensures { IfOk result (λ w. w.items ≡ map values.width kinds.now) }
{
    let mut widths = Vec::new(alloc);
    for kind in kinds {
        widths.push(width(*kind))?;
    }
    Ok(widths)
}

fn result_width(ret: Option<CType>) -> u8
    ensures { result ≡ spec.result_width ret }
{
    match ret {
        Some(kind) => width(kind),
        None => 0,
    }
}

/// The name, the parameters, the widths of the variables, the memories, and what stays from one run to the next.
pub fn frame_of(alloc: Global, expanded: &Expanded) -> Result<Frame, AllocError>
    ensures { IfOk result (λ f. frame_view f ≡ spec.frame_of expanded.now) }
{
    Ok(Frame {
        name: Text::from_slice(alloc, expanded.name.items())?,
        params: Vec::from_slice(alloc, expanded.params.as_slice())?,
        variables: widths_of(alloc, expanded.variables.as_slice())?,
        memories: memories_of(alloc, expanded.arrays.as_slice())?,
        kept: Vec::from_slice(alloc, expanded.kept.as_slice())?,
        ret: result_width(expanded.ret),
    })
}
