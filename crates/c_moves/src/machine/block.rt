//! Blocks and their objects.
ghost use Rattle.std.specs.Prelude.{◌≡◌, ◌&&◌, OnOk};
ghost use Rattle.c_meaning.specs.Statement.{is_last};
ghost use Rattle.c_tree.specs.View.{stmts_of};
ghost use Rattle.c_meaning.specs.Store.{unwritten};

use crate::machine::Machine;
use c_machine::state::store::unwritten;
use c_machine::waiting::frame::{EndFrame, Frame, Step};
use c_machine::waiting::objects::block_objects;
use c_meaning::object::Object;
use c_meaning::value::Completion;
use c_tree::statement::Stmt;
use std::alloc::{AllocError, Global};

/// Whether the last item of a block in a tail position is at hand.
fn is_last(tail: bool, others: &[Stmt]) -> bool
    ensures { result ≡ (tail && is_last (stmts_of others.now)) }
{
    if !tail {
        return false;
    }
    match others.split_first() {
        None => true,
        Some(_) => false,
    }
}

impl<'p> Machine<'p> {
    ghost use Rattle.std.specs.Prelude.{◌≡◌, ◌<◌, length, OnOk, OnErr};
    ghost use Rattle.c_tree.specs.View.{stmts_of};
    ghost use Rattle.c_machine.specs.Moves.{block_opened, block_begun, block_left, items_resumed, popped};
    ghost use Rattle.c_machine.specs.Waiting.Shown.{end_frame_of};
    ghost use Rattle.c_machine.specs.Waiting.Stacks.{stack_of};
    ghost use Rattle.c_moves.specs.Machines.{configuration_of};

    /// The lifetimes of these objects begin, which end with this frame.
    pub fn enter_block(&mut self, made: Vec<Object>, frame: EndFrame<'p>) -> Result<(), AllocError>
        ensures ok { OnOk result (configuration_of self.new ≡ block_opened (end_frame_of frame.entry) made.items (configuration_of self.old)) }
        ensures err { OnErr result (configuration_of self.new ≡ configuration_of self.old) }
    {
        let count = self.objects.len();
        let mut made = made;
        self.open_scope(frame)?;
        if let Err(e) = self.objects.append(&mut made) {
            self.scopes.leave();
            self.stack.pop();
            return Err(e);
        }
        self.scopes.number_from(count);
        Ok(())
    }

    /// Begins a block. The flag says whether it is in a tail position.
    pub fn begin_block(
        &mut self,
        alloc: Global,
        tail: bool,
        body: &'p [Stmt],
    ) -> Result<(), AllocError>
        ensures ok { OnOk result (configuration_of self.new ≡ block_begun tail (stmts_of body.now) (configuration_of self.old)) }
        ensures err { OnErr result (configuration_of self.new ≡ configuration_of self.old) }
    {
        let made = block_objects(alloc, body)?;
        let count = self.objects.len();
        let frame = EndFrame::Items {
            tail,
            others: body,
            count,
        };
        self.enter_block(made, frame)?;
        self.go(Step::Complete(Completion::Normal));
        Ok(())
    }

    /// Ends the lifetimes and the names of a block.
    pub fn leave_block(&mut self, count: usize)
        ensures { configuration_of self.new ≡ block_left count (configuration_of self.old) }
    {
        self.objects.truncate(count);
        self.scopes.leave();
    }

    /// The items of a block behind one that ends so.
    pub fn next_item(&mut self, tail: bool, others: &'p [Stmt], count: usize, r: Completion)
        requires { 0 < length (stack_of self.old.stack) }
        ensures { configuration_of self.new ≡ items_resumed tail (stmts_of others.now) count r (popped (configuration_of self.old)) }
    {
        match (r, others.split_first()) {
            (Completion::Normal, Some((first, rest))) => {
                self.stack.replace(Frame::OnEnd(EndFrame::Items {
                    tail,
                    others: rest,
                    count,
                }));
                self.go(Step::Execute {
                    tail: is_last(tail, rest),
                    stmt: first,
                });
            }
            _ => {
                self.leave_block(count);
                self.go_on(Step::Complete(r));
            }
        }
    }
}
