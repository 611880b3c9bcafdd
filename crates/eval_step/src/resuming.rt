ghost use Rattle.std.specs.Prelude.{◌≡◌, [], ◌∷◌, ◌++◌, length, if◌then◌else◌, IfOk, OnOk};
ghost use Rattle.value_core.specs.primitives.Kinds.{is_false as is_false_of};
ghost use Rattle.eval_frames.specs.Control.{standing};
ghost use Rattle.eval_step.specs.Resume.{with_value};
ghost use Rattle.eval_step.specs.Steps.{Resumes, Delivers};
ghost use Rattle.eval_step.specs.Walk.{ItemIn, ItemsIn};

use crate::context::Context;
use crate::item::Item;
use core_syntax::{NodeId, Program};
use eval_frames::{At, Known, Registers, is_false};
use std::alloc::AllocError;
use std::mem;
use value_core::Value;

impl Context {
    /// Does what comes next with the value of the register. With nothing left to do it is the value of the whole, and the frame's
    /// room is given back.
    pub fn deliver(
        &mut self,
        program: &Program,
        registers: &mut Registers,
    ) -> Result<At, AllocError>
        requires { ItemsIn program.now self.old }
        ensures { IfOk result (λ next. Delivers program.now registers.old.value self.old self.new (standing next registers.new)) }
    {
        let is_there = self.stack.fetch()?;
        if !is_there {
            self.frame.free();
            return Ok(registers.finish());
        }
        match self.stack.pop() {
            Some(item) => self.resume(program, item, registers),
            None => Err(AllocError),
        }
    }

    // Does with the value of the register what the item says.
    fn resume(
        &mut self,
        program: &Program,
        item: Item,
        registers: &mut Registers,
    ) -> Result<At, AllocError>
        requires item { ItemIn (length program.now.nodes) item }
        requires items { ItemsIn program.now self.old }
        ensures { IfOk result (λ next. Resumes program.now item registers.old.value self.old self.new (standing next registers.new)) }
    {
        match item {
            Item::Back(frame) => {
                self.frame = frame;
                Ok(At::Deliver)
            }
            Item::Shrink(count) => {
                self.frame.shrink(count);
                Ok(At::Deliver)
            }
            Item::Arguments(id, values, next) => {
                registers.add_to(values)?;
                Ok(At::Arguments(id, next))
            }
            Item::Choose(taken, other) => {
                let chosen = branch(registers.value.value(), taken, other);
                registers.forget();
                Ok(At::Enter(chosen))
            }
            Item::Do(id, next) => {
                registers.forget();
                self.take_part(program, id, next, registers)
            }
            Item::Let(id, next) => {
                self.bind(registers)?;
                self.take_bound(program, id, next, registers)
            }
            Item::Steps(id, next, binds) => {
                self.bind_if(binds, registers)?;
                self.take_step(program, id, next, registers)
            }
        }
    }

    // Appends the value of the register to the frame, if that is so, and else lets it go.
    fn bind_if(&mut self, binds: bool, registers: &mut Registers) -> Result<(), AllocError>
        ensures frame { OnOk result (self.new.frame ≡ with_value binds self.old.frame registers.old.value) }
        ensures stack { self.new.stack ≡ self.old.stack }
    {
        if binds {
            return self.bind(registers);
        }
        registers.forget();
        Ok(())
    }

    // Appends the value of the register to the frame.
    fn bind(&mut self, registers: &mut Registers) -> Result<(), AllocError>
        ensures frame { OnOk result (self.new.frame ≡ self.old.frame ++ registers.old.value ∷ []) }
        ensures stack { self.new.stack ≡ self.old.stack }
    {
        self.frame
            .push(mem::replace(&mut registers.value, Known::nil()))
    }
}

// The first branch of an if whose condition has that value, and the second one where the value is nil or false.
fn branch(condition: &Value, taken: NodeId, other: NodeId) -> NodeId
    ensures { result ≡ (if is_false_of condition.now then other else taken) }
{
    if is_false(condition) { other } else { taken }
}
