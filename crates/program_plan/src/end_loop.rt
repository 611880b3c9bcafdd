ghost use Rattle.std.specs.Prelude.{◌≡◌, ◌≤◌, map, length, All, IfOk};
ghost use Rattle.core_syntax.specs.WellFormed.{IsBelow};
ghost use Rattle.program_plan.specs.Emitted.{each, local as local_of, loop_end, loop_function as function_of};
ghost use Rattle.program_plan.specs.Made.{Makes};

use crate::emitter::Emitter;
use crate::frame::{Frame, count_hidden};
use core_syntax::{BuildNo, Function, Node, NodeId, NodeIds, as_number, sum_of};
use resolved_forms::Looping;
use std::alloc::{AllocError, Global};
use value_core::lists::add;
use value_core::{Place, Seq};

impl Emitter {
    /// Appends the call of a loop's function, and the let that binds these initial values round it.
    pub fn end_loop(
        &mut self,
        alloc: Global,
        frame: &Frame,
        at: Place,
        looping: &Looping,
        values: NodeIds,
    ) -> Result<NodeId, BuildNo>
        requires { All (IsBelow (length self.old.rows)) values }
        ensures makes { Makes (loop_end at frame.now looping.now values) self.old result self.new }
        ensures below { IfOk result (λ id. IsBelow (length self.new.rows) id) }
        ensures kept { length self.old.rows ≤ length self.new.rows }
    {
        let arguments = self.push_locals(alloc, frame, at, looping.arguments.items())?;
        let hidden = frame.function_places(alloc, looping.number)?;
        let call = self.push(at, Node::Call(looping.number, hidden, arguments))?;
        self.push(at, Node::Let(values, call))
    }

    // Appends the locals of these levels.
    fn push_locals(
        &mut self,
        alloc: Global,
        frame: &Frame,
        at: Place,
        levels: &[u32],
    ) -> Result<NodeIds, BuildNo>
        ensures makes { Makes (each frame.now (map (local_of at) levels.now)) self.old result self.new }
        ensures below { IfOk result (λ ids. All (IsBelow (length self.new.rows)) ids) }
        ensures kept { length self.old.rows ≤ length self.new.rows }
    {
        let mut ids = Seq::new(alloc);
        for level in levels {
            let id = self.push_local(at, frame, *level)?;
            add(&mut ids, id)?;
        }
        Ok(ids)
    }
}

/// The function of a loop with that body.
pub(crate) fn loop_function(
    frame: &Frame,
    at: Place,
    looping: &Looping,
    body: NodeId,
) -> Result<Function, AllocError>
    ensures { IfOk result (λ function. function ≡ function_of at frame.now looping.now body) }
{
    let hidden = count_hidden(frame.function(looping.number)?)?;
    let own = as_number(looping.arguments.items().len())?;
    let takes = sum_of(hidden, own)?;
    Ok(Function { at, takes, body })
}
