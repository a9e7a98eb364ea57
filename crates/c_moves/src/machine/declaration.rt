//! Declarations and initialisers.
ghost use Rattle.std.specs.Prelude.{◌≡◌, ◌<◌, drop};
ghost use Rattle.hls_base.specs.ArrayAddress.{element_count};
ghost use Rattle.c_tree.specs.View.{object_of};
ghost use Rattle.c_meaning.specs.Store.{lengths_in};

use crate::machine::Machine;
use c_machine::state::store::write_zeros;
use c_machine::waiting::frame::{EndFrame, Frame, Initialiser, Rows, Step, ValueFrame};
use c_machine::waiting::rows::{dimension, row_size};
use c_meaning::object::element_count;
use c_meaning::value::Completion;
use c_tree::object::{Init, Object as Declared};
use std::alloc::{AllocError, Global};

impl<'p> Machine<'p> {
    ghost use Rattle.std.specs.Prelude.{◌≡◌, ◌<◌, length, map, drop, OnOk, OnErr};
    ghost use Rattle.c_tree.specs.Tree as tree;
    ghost use Rattle.c_tree.specs.View.{object_of, init_of, inits_of};
    ghost use Rattle.c_meaning.specs.Store.{lengths_in};
    ghost use Rattle.hls_base.specs.ArrayAddress.{element_count};
    ghost use Rattle.c_machine.specs.Moves.{next_object, next_row, rows_begun, initialised, popped};
    ghost use Rattle.c_machine.specs.Waiting.Stacks.{stack_of};
    ghost use Rattle.c_moves.specs.Machines.{configuration_of};

    #[tactic(auto, using(c_machine::proofs::WaitingLemmas::RowSizes::rowing))]
    /// The declarations behind one that is done.
    pub fn next_object(&mut self, alloc: Global, others: &'p [Declared]) -> Result<(), AllocError>
        requires { 0 < length (stack_of self.old.stack) }
        ensures ok { OnOk result (configuration_of self.new ≡ next_object (map object_of others.now) (popped (configuration_of self.old))) }
        ensures err { OnErr result (configuration_of self.new ≡ configuration_of self.old) }
    {
        let Some((declared, rest)) = others.split_first() else {
            self.go_on(Step::Complete(Completion::Normal));
            return Ok(());
        };
        let object = self.scopes.next();
        self.scopes.declare(alloc, &declared.name)?;
        self.stack.replace(Frame::OnEnd(EndFrame::Declaring(rest)));
        let step = match &declared.init {
            None => Step::Forget(object),
            Some(init) => Step::Initialise(Initialiser {
                object,
                declared,
                depth: 0,
                init,
                element: 0,
            }),
        };
        self.go(step);
        Ok(())
    }

    /// Begins an initialiser.
    pub fn initialise(&mut self, alloc: Global, i: Initialiser<'p>) -> Result<(), AllocError>
        ensures ok { OnOk result (configuration_of self.new ≡ initialised i.entry.object (drop i.entry.depth (lengths_in (object_of i.entry.declared.now))) (init_of i.entry.init.now) i.entry.element (configuration_of self.old)) }
        ensures err { OnErr result (configuration_of self.new ≡ configuration_of self.old) }
    {
        match i.init {
            Init::Single(e) => {
                let frame = ValueFrame::Initial {
                    object: i.object,
                    element: i.element,
                };
                self.evaluate_for(frame, true, e)
            }
            Init::List(items, _) => self.begin_rows(alloc, i, items),
        }
    }

    #[tactic(auto, using(c_machine::proofs::WaitingLemmas::RowSizes::rowing))]
    fn begin_rows(
        &mut self,
        alloc: Global,
        i: Initialiser<'p>,
        items: &'p [Init],
    ) -> Result<(), AllocError>
        ensures ok { OnOk result (configuration_of self.new ≡ rows_begun i.entry.object (drop i.entry.depth (lengths_in (object_of i.entry.declared.now))) (inits_of items.now) i.entry.element (configuration_of self.old)) }
        ensures err { OnErr result (configuration_of self.new ≡ configuration_of self.old) }
    {
        match dimension(alloc, i.declared, i.depth)? {
            Some(count) => {
                let rows = Rows {
                    object: i.object,
                    declared: i.declared,
                    depth: i.depth + 1,
                    count,
                    others: items,
                    element: i.element,
                };
                self.stack.push(Frame::OnEnd(EndFrame::Rows(rows)))?;
                self.go(Step::Complete(Completion::Normal));
                Ok(())
            }
            None => {
                self.go(Step::Complete(Completion::Normal));
                Ok(())
            }
        }
    }

    #[tactic(auto, using(c_machine::proofs::WaitingLemmas::RowSizes::rowing))]
    /// The rows of an initialiser behind one that is done.
    pub fn next_row(&mut self, alloc: Global, rows: Rows<'p>) -> Result<(), AllocError>
        requires { 0 < length (stack_of self.old.stack) }
        ensures ok { OnOk result (configuration_of self.new ≡ next_row rows.entry.object rows.entry.count (drop rows.entry.depth (lengths_in (object_of rows.entry.declared.now))) (inits_of rows.entry.others.now) rows.entry.element (popped (configuration_of self.old))) }
        ensures err { OnErr result (configuration_of self.new ≡ configuration_of self.old) }
    {
        let size = row_size(alloc, rows.declared, rows.depth)?;
        match rows.others.split_first() {
            None => {
                let count = rows.count * size;
                write_zeros(&mut self.objects, rows.object, rows.element, count);
                self.go_on(Step::Complete(Completion::Normal));
            }
            Some((first, others)) => self.begin_row(rows, size, first, others),
        }
        Ok(())
    }

    #[tactic(auto, using(c_machine::proofs::WaitingLemmas::RowSizes::rowing))]
    fn begin_row(&mut self, rows: Rows<'p>, size: usize, first: &'p Init, others: &'p [Init])
        requires top { 0 < length (stack_of self.old.stack) }
        requires size { size ≡ element_count (drop rows.depth (lengths_in (object_of rows.declared.now))) }
        ensures { configuration_of self.new ≡ next_row rows.entry.object rows.entry.count (drop rows.entry.depth (lengths_in (object_of rows.entry.declared.now))) (tree.more_inits (init_of first.now) (inits_of others.now)) rows.entry.element (popped (configuration_of self.old)) }
    {
        if rows.count == 0 {
            self.go_on(Step::Complete(Completion::Normal));
            return;
        }
        let behind = Rows {
            object: rows.object,
            declared: rows.declared,
            depth: rows.depth,
            count: rows.count - 1,
            others,
            element: rows.element + size,
        };
        self.stack.replace(Frame::OnEnd(EndFrame::Rows(behind)));
        self.go(Step::Initialise(Initialiser {
            object: rows.object,
            declared: rows.declared,
            depth: rows.depth,
            init: first,
            element: rows.element,
        }));
    }
}
