//! A copy of what stands beside the blocks of a program.
ghost use Rattle.std.specs.Prelude.{◌≡◌, IfOk, map};
ghost use Rattle.ir_lower.specs.Frames.{memory_view, frame_view};

use hls_base::words::Words;
use ir_core::cfg::{Frame, Memory};
use std::alloc::{AllocError, Global};

fn copy_words(alloc: Global, words: &Option<Words>) -> Result<Option<Words>, AllocError>
    ensures { IfOk result (λ copy. copy ≡ words.now) }
{
    match words {
        Some(words) => Ok(Some(words.copy(alloc)?)),
        None => Ok(None),
    }
}

fn copy_memory(alloc: Global, memory: &Memory) -> Result<Memory, AllocError>
    ensures { IfOk result (λ copy. memory_view copy ≡ memory_view memory.now) }
{
    Ok(Memory {
        name: memory.name.copy(alloc)?,
        bits: memory.bits,
        dims: Vec::from_slice(alloc, memory.dims.as_slice())?,
        table: copy_words(alloc, &memory.table)?,
        initial: copy_words(alloc, &memory.initial)?,
        host: memory.host,
    })
}

fn copy_memories(alloc: Global, memories: &[Memory]) -> Result<Vec<Memory>, AllocError>
    ensures { IfOk result (λ copies. map memory_view copies.items ≡ map memory_view memories.now) }
{
    let mut copies = Vec::with_capacity(alloc, memories.len())?;
    for memory in memories {
        copies.push(copy_memory(alloc, memory)?)?;
    }
    Ok(copies)
}

/// Another owner of the same frame.
pub fn copy_frame(alloc: Global, frame: &Frame) -> Result<Frame, AllocError>
    ensures { IfOk result (λ copy. frame_view copy ≡ frame_view frame.now) }
{
    Ok(Frame {
        name: frame.name.copy(alloc)?,
        params: Vec::from_slice(alloc, frame.params.as_slice())?,
        variables: Vec::from_slice(alloc, frame.variables.as_slice())?,
        memories: copy_memories(alloc, frame.memories.as_slice())?,
        kept: Vec::from_slice(alloc, frame.kept.as_slice())?,
        ret: frame.ret,
    })
}
