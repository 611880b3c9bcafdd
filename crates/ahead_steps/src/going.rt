ghost use Rattle.std.specs.Arc.{arc_value};
ghost use Rattle.ahead_steps.specs.Leads.{LeadComes};
ghost use Rattle.eval_step.specs.Evaluation.{IsAsk, IsAsking};
ghost use Rattle.serial_model.specs.declared.halt.Halt.TheVariants as halts;
ghost use Rattle.shared_world.specs.Stands.{Stands};
ghost use Rattle.world_steps.specs.Kept.{shared_of, IsUnitOf};
ghost use Rattle.world_steps.specs.Rows.{IsBodyThere};

use crate::holding::hold;
use crate::sending::send_ahead;
use crate::trying::begin_ahead;
use crate::waiting::wait_ahead;
use eval_step::Machine;
use serial_model::{Halt, Request};
use shared_world::Given;
use std::alloc::{AllocError, Global};
use value_core::{Name, Place};
use world_steps::Kept;

/// What a turn comes to that runs ahead of the history, whose machine was moved to that halt: it holds the effect for which it asks,
/// begins an attempt, or waits until it is definite and holds nothing. Where it is definite and holds something it is ready to settle
/// then. What no run can meet, as a turn that does not run ahead, is taken for want of memory. For want of memory nothing changes but
/// room.
pub fn go_ahead(
    kept: &mut Kept,
    alloc: Global,
    name: &Name,
    moved: Machine,
    halt: Halt,
) -> Result<Given, AllocError>
    requires stands { Stands (shared_of kept.old) }
    requires unit { IsUnitOf (shared_of kept.old) name.now moved }
    requires asks { IsAsk halt → IsAsking moved }
    requires body { IsBodyThere (arc_value kept.old.program) halt }
    ensures { LeadComes (shared_of kept.old) name.now halt (shared_of kept.new) result }
{
    match halt {
        Halt::Ask(request, at) => ask_ahead(kept, alloc, name, moved, request, at),
        Halt::Value(_) => wait_ahead(kept, alloc, name, moved),
        Halt::Fault(_, _) => wait_ahead(kept, alloc, name, moved),
        Halt::Spent => wait_ahead(kept, alloc, name, moved),
    }
}

/// The turn asks for that.
fn ask_ahead(
    kept: &mut Kept,
    alloc: Global,
    name: &Name,
    moved: Machine,
    request: Request,
    at: Place,
) -> Result<Given, AllocError>
    requires stands { Stands (shared_of kept.old) }
    requires unit { IsUnitOf (shared_of kept.old) name.now moved }
    requires asks { IsAsking moved }
    requires body { IsBodyThere (arc_value kept.old.program) (halts.Ask request at) }
    ensures { LeadComes (shared_of kept.old) name.now (halts.Ask request at) (shared_of kept.new) result }
{
    match request {
        Request::Deref(_) => wait_ahead(kept, alloc, name, moved),
        Request::RefSet(_, _) => wait_ahead(kept, alloc, name, moved),
        Request::Join(_) => wait_ahead(kept, alloc, name, moved),
        Request::Dosync(body, values) => begin_ahead(kept, alloc, name, moved, body, values, at),
        Request::Send(to, args) => send_ahead(kept, alloc, name, moved, to, args),
        Request::Print(text) => hold(kept, alloc, name, moved, Request::Print(text)),
        Request::NewRef(content) => hold(kept, alloc, name, moved, Request::NewRef(content)),
        Request::Fork(body, values) => hold(kept, alloc, name, moved, Request::Fork(body, values)),
        Request::Spawn(behaviour, state) => {
            hold(kept, alloc, name, moved, Request::Spawn(behaviour, state))
        }
        Request::Become(behaviour, state) => {
            hold(kept, alloc, name, moved, Request::Become(behaviour, state))
        }
        Request::SelfActor => hold(kept, alloc, name, moved, Request::SelfActor),
    }
}
