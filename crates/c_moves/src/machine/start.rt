//! The beginning of a machine.
use crate::machine::Machine;
use c_machine::state::lists::Lists;
use c_machine::state::meter::Meter;
use c_machine::state::scopes::Scopes;
use c_machine::waiting::binding::{bind_all, body_items};
use c_machine::waiting::frame::{Caller, Control, EndFrame, Frame, Spot, Step};
use c_machine::waiting::stack::Stack;
use c_meaning::names::Binding;
use c_meaning::object::Object;
use c_meaning::value::Argument;
use c_tree::function::Function;
use c_tree::program::Item;
use hls_base::point::PointKind;
use std::alloc::{AllocError, Global};

impl<'p> Machine<'p> {
    ghost use Rattle.std.specs.Prelude.{◌≡◌, ◌<◌, IfOk, map};
    ghost use Rattle.c_tree.specs.View.{function_of, item_of};
    ghost use Rattle.c_machine.specs.Moves.{top_begun};
    ghost use Rattle.c_machine.specs.Frames as f;
    ghost use Rattle.c_moves.specs.Machines.{configuration_of};

    #[tactic(auto, using(c_machine::proofs::WaitingLemmas::BoundParameters::binding))]
    /// A machine before the first point of a call of the top function, with these names of file scope and these objects.
    pub fn start(
        alloc: Global,
        items: &'p [Item],
        f: &'p Function,
        names: Vec<Binding>,
        objects: Vec<Object>,
        given: &[Argument],
    ) -> Result<Machine<'p>, AllocError>
        ensures { IfOk result (λ m. configuration_of m ≡ top_begun (map item_of items.now) names.items (function_of f.now) given.now objects.items) }
    {
        let mut objects = objects;
        let mut scopes = Scopes::new(alloc, names, f.result);
        let count = objects.len();
        let mut made = bind_all(alloc, &f.params, given, &mut scopes, objects.as_slice())?;
        objects.append(&mut made)?;
        let mut stack = Stack::new(alloc);
        let caller = Caller::Nowhere;
        stack.push(Frame::OnEnd(EndFrame::Calling {
            caller,
            function: f,
            count,
        }))?;
        let spot = Spot {
            kind: PointKind::Begin,
            at: f.at,
        };
        let step = Step::Block {
            tail: true,
            body: body_items(f),
        };
        Ok(Machine {
            items,
            control: Control::Going(Some(spot), step),
            stack,
            scopes,
            numbers: Lists::new(alloc),
            given: Lists::new(alloc),
            objects,
            meter: Meter::new(alloc),
        })
    }
}
