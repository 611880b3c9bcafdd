// What a unit comes to, by where its machine halts.
ghost use Rattle.std.specs.Arc.{arc_value};
ghost use Rattle.eval_step.specs.Evaluation.{IsAsk, IsAsking};
ghost use Rattle.serial_model.specs.declared.halt.Halt.TheVariants as halts;
ghost use Rattle.shared_world.specs.Stands.{Stands};
ghost use Rattle.world_steps.specs.Kept.{shared_of, IsUnitOf};
ghost use Rattle.world_steps.specs.Rows.{Comes, IsBodyThere};

use crate::kept::Kept;
use crate::units::drop_machine;
use eval_step::Machine;
use serial_model::{Halt, Request};
use shared_world::Given;
use std::alloc::{AllocError, Global};
use value_core::{Code, Name, Place};

impl Kept {
    /// The unit, whose machine was moved to that halt, comes to what its row says.
    pub fn give_unit(
        &mut self,
        alloc: Global,
        name: &Name,
        moved: Machine,
        halt: Halt,
    ) -> Result<Given, AllocError>
        requires stands { Stands (shared_of self.old) }
        requires unit { IsUnitOf (shared_of self.old) name.now moved }
        requires asks { IsAsk halt → IsAsking moved }
        requires body { IsBodyThere (arc_value self.old.program) halt }
        ensures { Comes (shared_of self.old) name.now halt (shared_of self.new) result }
    {
        match halt {
            Halt::Ask(request, at) => self.give_request(alloc, name, moved, request, at),
            Halt::Value(value) => self.finish_unit(alloc, name, moved, value),
            Halt::Fault(code, at) => {
                drop_machine(moved);
                self.fail(alloc, name, code, at)
            }
            Halt::Spent => {
                drop_machine(moved);
                self.spend(alloc, name)
            }
        }
    }

    /// The unit asks for that.
    fn give_request(
        &mut self,
        alloc: Global,
        name: &Name,
        moved: Machine,
        request: Request,
        at: Place,
    ) -> Result<Given, AllocError>
        requires stands { Stands (shared_of self.old) }
        requires unit { IsUnitOf (shared_of self.old) name.now moved }
        requires asks { IsAsking moved }
        requires body { IsBodyThere (arc_value self.old.program) (halts.Ask request at) }
        ensures { Comes (shared_of self.old) name.now (halts.Ask request at) (shared_of self.new) result }
    {
        match request {
            Request::Print(text) => self.print(alloc, name, moved, &text, at),
            Request::NewRef(content) => self.new_ref(alloc, name, moved, content, at),
            Request::Deref(asked) => self.deref(alloc, name, moved, &asked, at),
            Request::RefSet(_, _) => {
                drop_machine(moved);
                self.fail(alloc, name, Code::NoTransaction, at)
            }
            Request::Fork(body, values) => self.fork(alloc, name, moved, body, values, at),
            Request::Join(future) => self.join(alloc, name, moved, future, at),
            Request::Dosync(body, values) => self.begin(alloc, name, moved, body, values, at),
            Request::Spawn(behaviour, state) => {
                self.spawn(alloc, name, moved, behaviour, state, at)
            }
            Request::Send(to, args) => self.send(alloc, name, moved, &to, args, at),
            Request::Become(behaviour, state) => {
                self.turn_into(alloc, name, moved, behaviour, state, at)
            }
            Request::SelfActor => self.self_actor(alloc, name, moved, at),
        }
    }
}
