//! The stack of what waits.
use crate::waiting::frame::Frame;
use std::alloc::{AllocError, Global};

/// The frames of what waits, of which the last is the next that goes on.
#[derive(Drop)]
pub struct Stack<'p> {
    pub frames: Vec<Frame<'p>>,
}

impl<'p> Stack<'p> {
    ghost use Rattle.std.specs.Prelude.{◌≡◌, [], ◌∷◌, ◌<◌, length, OnOk, OnErr};
    ghost use Rattle.std.specs.Option.{option_map};
    ghost use Rattle.c_machine.specs.State.Lists.{tail};
    ghost use Rattle.c_machine.specs.Waiting.Shown.{frame_of, first_of};
    ghost use Rattle.c_machine.specs.Waiting.Stacks.{stack_of};

    pub fn new(alloc: Global) -> Stack<'p>
        ensures { stack_of result ≡ [] }
    {
        Stack {
            frames: Vec::new(alloc),
        }
    }

    pub fn push(&mut self, frame: Frame<'p>) -> Result<(), AllocError>
        ensures ok { OnOk result (stack_of self.new ≡ frame_of frame.entry ∷ stack_of self.old) }
        ensures err { OnErr result (stack_of self.new ≡ stack_of self.old) }
    {
        self.frames.push(frame)?;
        Ok(())
    }

    pub fn pop(&mut self)
        ensures { stack_of self.new ≡ tail (stack_of self.old) }
    {
        self.frames.pop();
    }

    /// Puts a frame in the place of the uppermost.
    pub fn replace(&mut self, frame: Frame<'p>)
        requires { 0 < length (stack_of self.old) }
        ensures { stack_of self.new ≡ frame_of frame.entry ∷ tail (stack_of self.old) }
    {
        self.frames.pop();
        self.frames.push_reserved(frame);
    }

    /// The uppermost frame.
    pub fn top(&self) -> Option<Frame<'p>>
        ensures { option_map frame_of result ≡ first_of (stack_of self.now) }
    {
        let count = self.frames.len();
        if count == 0 {
            None
        } else {
            Some(self.frames[count - 1])
        }
    }
}
