ghost use Rattle.std.specs.Prelude.{◌≡◌, ◌<◌, true, false, length, IsTrue, IfOk, OnOk, OnErr};
ghost use Rattle.eval_frames.specs.Answered.{answered};
ghost use Rattle.eval_frames.specs.Control.{Halted, standing};
ghost use Rattle.eval_step.specs.Steps.{EntersWithFuel, TakesLeaf};
ghost use Rattle.eval_step.specs.Walk.{FailedAt, Goes, IsIn, IsThere, ItemsIn, Moves, MovesAnyhow, StopsAt, control_of, goes_on};
ghost use Rattle.eval_frames.specs.declared.at.At.TheVariants as stand;

use crate::context::Context;
use core_syntax::{NodeId, Program};
use eval_frames::{At, Registers, argument, push_leaf};
use serial_model::{Answer, Halt};
use std::alloc::{AllocError, Global};
use std::mem;

/// Where a machine stands, in what context, and the fuel that it has left.
#[derive(Drop)]
pub struct Walk {
    pub at: At,
    pub registers: Registers,
    pub context: Context,
    pub left: u64,
}

impl Walk {
    /// Goes on to where the machine stops, and says where that is.
    pub fn run(
        &mut self,
        alloc: Global,
        program: &Program,
        inside: bool,
    ) -> Result<Halt, AllocError>
        requires { Goes (control_of self.old) → IsThere program.now self.old }
        ensures ok { IfOk result (StopsAt program.now inside self.old self.new) }
        ensures err { OnErr result (FailedAt (control_of self.new)) }
    {
        while self.goes_on() {
            self.step(alloc, program, inside)?;
        }
        self.halt(alloc)
    }

    // Where the machine stops. For want of memory it has failed.
    fn halt(&mut self, alloc: Global) -> Result<Halt, AllocError>
        ensures same { OnOk result (self.new ≡ self.old) }
        ensures at { IfOk result (λ stop. control_of self.old ≡ Halted stop) }
        ensures err { OnErr result (FailedAt (control_of self.new)) }
    {
        let copied = self.copied_halt(alloc);
        if copied.is_err() {
            self.at = At::Failed;
        }
        copied
    }

    // An equal halt to that where the machine stops.
    fn copied_halt(&self, alloc: Global) -> Result<Halt, AllocError>
        ensures { IfOk result (λ halt. control_of self.now ≡ Halted halt) }
    {
        match self.at {
            At::Halted => self.registers.stop.halt.copy(alloc),
            _ => Err(AllocError),
        }
    }

    /// Goes on behind the request, with its answer.
    pub fn go_on(&mut self, answer: Answer)
        ensures control { control_of self.new ≡ answered (control_of self.old) answer }
        ensures context { self.new.context ≡ self.old.context }
        ensures left { self.new.left ≡ self.old.left }
    {
        self.at = self.registers.answered(self.at, answer);
    }

    /// Fails, since memory is wanting.
    pub fn fail(&mut self)
        ensures { FailedAt (control_of self.new) }
    {
        self.at = At::Failed;
    }

    // Whether there is a step to do.
    fn goes_on(&self) -> bool
        ensures { result ≡ goes_on (control_of self.now) }
    {
        !matches!(self.at, At::Halted | At::Failed)
    }

    // Does one step. For want of memory the machine has failed.
    fn step(&mut self, alloc: Global, program: &Program, inside: bool) -> Result<(), AllocError>
        requires there { IsThere program.now self.old }
        requires goes_on { IsTrue (goes_on (control_of self.old)) }
        ensures ok { OnOk result (Moves program.now inside self.old self.new) }
        ensures err { OnErr result (FailedAt (control_of self.new)) }
    {
        let at = mem::replace(&mut self.at, At::Failed);
        self.at = self.go(alloc, program, inside, at)?;
        Ok(())
    }

    // Does the step from there, and says where it leads.
    fn go(
        &mut self,
        alloc: Global,
        program: &Program,
        inside: bool,
        at: At,
    ) -> Result<At, AllocError>
        requires there { IsIn (length program.now.nodes) self.old.context.stack (standing at self.old.registers) }
        requires goes_on { IsTrue (goes_on (standing at self.old.registers)) }
        ensures moved { IfOk result (λ next. Moves program.now inside (record self.old { at = at }) (record self.new { at = next })) }
        ensures failed { OnErr result (self.new.at ≡ self.old.at) }
    {
        match at {
            At::Begin(body) => self.context.begin(program, body, &mut self.registers),
            At::Enter(id) => self.enter(alloc, program, inside, id),
            At::Deliver => self.context.deliver(program, &mut self.registers),
            At::Arguments(id, number) => self.take_arguments(alloc, program, id, number),
            done => Ok(done),
        }
    }

    // Enters the node, which costs one unit of fuel.
    fn enter(
        &mut self,
        alloc: Global,
        program: &Program,
        inside: bool,
        id: NodeId,
    ) -> Result<At, AllocError>
        requires there { id.index < length program.now.nodes }
        requires items { ItemsIn program.now self.old.context }
        ensures entered { IfOk result (λ next. EntersWithFuel program.now inside id self.old self.new (standing next self.new.registers)) }
        ensures failed { OnErr result (self.new.at ≡ self.old.at) }
    {
        if self.left == 0 {
            return Ok(self.registers.spend());
        }
        self.left -= 1;
        self.context
            .enter(alloc, program, inside, id, &mut self.registers)
    }

    // Takes the arguments of the node from that number on, as long as their values show at once, and enters the next one; where
    // there is none it does the operation of the node. An argument that is not entered costs its unit of fuel nonetheless.
    fn take_arguments(
        &mut self,
        alloc: Global,
        program: &Program,
        id: NodeId,
        from: usize,
    ) -> Result<At, AllocError>
        requires there { id.index < length program.now.nodes }
        requires items { ItemsIn program.now self.old.context }
        ensures taken { IfOk result (λ next. MovesAnyhow program.now (record self.old { at = stand.Arguments id from }) (record self.new { at = next })) }
        ensures failed { OnErr result (self.new.at ≡ self.old.at) }
    {
        let node = program.node(id);
        let mut number = from;
        while let Some(argument) = argument(node, number) {
            if !self.take_leaf(alloc, program, argument)? {
                self.context
                    .keep_arguments(alloc, id, number + 1, &mut self.registers)?;
                return Ok(At::Enter(argument));
            }
            number += 1;
        }
        self.context
            .operate(alloc, program, id, &mut self.registers)
    }

    // Takes the value of the node as that of an argument, if it shows at once and there is fuel for it.
    fn take_leaf(
        &mut self,
        alloc: Global,
        program: &Program,
        id: NodeId,
    ) -> Result<bool, AllocError>
        requires there { id.index < length program.now.nodes }
        ensures taken { IfOk result (λ shows. shows ≡ true → TakesLeaf program.now id self.old self.new) }
        ensures stays { IfOk result (λ shows. shows ≡ false → self.new ≡ self.old) }
        ensures at { self.new.at ≡ self.old.at }
    {
        if self.left == 0 {
            return Ok(false);
        }
        let leaf = program.node(id);
        if push_leaf(alloc, leaf, &self.context.frame, &mut self.registers.values)? {
            self.left -= 1;
            return Ok(true);
        }
        Ok(false)
    }
}
