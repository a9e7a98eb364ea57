//! Switches.
ghost use Rattle.std.specs.Prelude.{◌≡◌, OnOk, OnErr};
ghost use Rattle.std.specs.Option.{option_map};
ghost use Rattle.c_tree.specs.View.{stmts_of};
ghost use Rattle.c_machine.specs.Moves.{landing, rest_behind};
ghost use Rattle.c_machine.specs.Waiting.Labels.{landing_of};
ghost use Rattle.c_value.specs.Values.{promoted, convert};
ghost use Rattle.c_meaning.specs.Statement.{target_label};

use crate::machine::Machine;
use c_machine::waiting::frame::{EndFrame, Step};
use c_machine::waiting::label::target_label;
use c_machine::waiting::landing::{Landing, find_landing, label_of, rest_behind, skip};
use c_machine::waiting::objects::block_objects;
use c_meaning::value::{Completion, Value};
use c_tree::statement::Stmt;
use c_value::convert::convert;
use c_value::kind::promoted;
use hls_base::point::PointKind;
use std::alloc::{AllocError, Global};

impl<'p> Machine<'p> {
    ghost use Rattle.std.specs.Prelude.{◌≡◌, OnOk, OnErr};
    ghost use Rattle.std.specs.Option.{option_map};
    ghost use Rattle.c_tree.specs.View.{stmts_of};
    ghost use Rattle.c_machine.specs.Waiting.Labels.{landing_of};
    ghost use Rattle.c_machine.specs.Frames.{in_environment};
    ghost use Rattle.c_machine.specs.Moves.{jumped, landed, holding};
    ghost use Rattle.c_moves.specs.Machines.{configuration_of};

    /// Jumps to the label of a value in a switch.
    pub fn jump(&mut self, alloc: Global, x: Value, body: &'p [Stmt]) -> Result<(), AllocError>
        ensures ok { OnOk result (configuration_of self.new ≡ jumped x (stmts_of body.now) (configuration_of self.old)) }
        ensures err { OnErr result (configuration_of self.new ≡ configuration_of self.old) }
    {
        let made = block_objects(alloc, body)?;
        let count = self.objects.len();
        let landing = find_landing(label_of(x, body), body);
        let rest = rest_behind(landing);
        let frame = EndFrame::Items {
            tail: false,
            others: rest,
            count,
        };
        self.enter_block(made, frame)?;
        let landed = self.land(alloc, landing);
        if landed.is_err() {
            self.stack.pop();
            self.leave_block(count);
        }
        landed
    }

    fn land(&mut self, alloc: Global, landing: Option<Landing<'p>>) -> Result<(), AllocError>
        ensures ok { OnOk result (configuration_of self.new ≡ landed (option_map landing_of landing.entry) (configuration_of self.old)) }
        ensures err { OnErr result (configuration_of self.new ≡ holding (in_environment self.new.scopes.environment (configuration_of self.old).held) (configuration_of self.old)) }
    {
        let Some(l) = landing else {
            self.go(Step::Complete(Completion::Normal));
            return Ok(());
        };
        skip(alloc, l.skipped, &mut self.scopes)?;
        self.open_scope(EndFrame::Leaving)?;
        let step = Step::Execute {
            tail: false,
            stmt: l.target.body,
        };
        self.go_behind(PointKind::Arm, l.target.at, step);
        Ok(())
    }
}
