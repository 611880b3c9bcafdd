ghost use Rattle.std.specs.Prelude.{◌≤◌, length, IfOk};
ghost use Rattle.core_syntax.specs.WellFormed.{IsTurnAt};
ghost use Rattle.program_plan.specs.Emitted.{emitted, turn_of};
ghost use Rattle.program_plan.specs.Made.{Makes};

use crate::emitter::Emitter;
use crate::frame::Frame;
use core_syntax::{BuildNo, Node, NodeId};
use resolved_forms::Expr;
use std::alloc::Global;
use value_core::Place;

impl Emitter {
    /// Appends the nodes of a behaviour's body, and the turn that takes so many values round it.
    pub fn emit_turn(
        &mut self,
        alloc: Global,
        frame: &Frame,
        at: Place,
        takes: u32,
        expr: &Expr,
    ) -> Result<NodeId, BuildNo>
        ensures makes { Makes (turn_of at takes (emitted expr.now frame.now)) self.old result self.new }
        ensures turn { IfOk result (λ id. IsTurnAt self.new.rows id) }
        ensures kept { length self.old.rows ≤ length self.new.rows }
    {
        let id = self.emit(alloc, frame, expr)?;
        self.push(at, Node::Turn(takes, id))
    }
}
