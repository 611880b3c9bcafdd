ghost use Rattle.std.specs.Prelude.{◌≡◌, ◌<◌, [], ◌∷◌, length, IfOk, OnOk, Some};
ghost use Rattle.core_syntax.specs.declared.node.Node.TheVariants as node;
ghost use Rattle.core_syntax.specs.Table.{node_at, steps_of as main_steps};
ghost use Rattle.eval_step.specs.declared.item.Item.TheVariants as item;
ghost use Rattle.eval_frames.specs.Control.{Enter, standing};
ghost use Rattle.eval_step.specs.Resume.{parts_of as do_parts};
ghost use Rattle.eval_step.specs.Steps.{Begins, Enters, EntersArguments, Operates, CallsBody, TakesPart, TakesBound, TakesStep};
ghost use Rattle.serial_model.specs.Operation.{local_value};
ghost use Rattle.eval_step.specs.Unread.{GoesOnAlike};
ghost use Rattle.eval_step.specs.Walk.{ItemsIn};

use crate::context::Context;
use crate::item::Item;
use core_syntax::{Node, NodeId, Program, Step};
use eval_frames::{At, Frame, Known, Registers, act, apply, push_hidden};
use std::alloc::{AllocError, Global};
use std::mem;
use value_core::{Code, Op};

impl Context {
    /// Begins the body: the steps of a main, a turn that has as many values as it takes, or an expression.
    pub fn begin(
        &mut self,
        program: &Program,
        body: NodeId,
        registers: &mut Registers,
    ) -> Result<At, AllocError>
        requires there { body.index < length program.now.nodes }
        requires empty { self.old.stack ≡ [] }
        ensures { IfOk result (λ next. Begins program.now body self.old self.new (standing next registers.new)) }
    {
        match program.node(body) {
            Node::Main(_) => self.take_step(program, body, 0, registers),
            Node::Turn(takes, inner) => {
                if self.frame.values().len() == *takes as usize {
                    return Ok(At::Enter(*inner));
                }
                Ok(registers.fault(Code::MessageArity, program.place(body)))
            }
            _ => Ok(At::Enter(body)),
        }
    }

    /// Enters the node, in or outside a transaction.
    pub fn enter(
        &mut self,
        alloc: Global,
        program: &Program,
        inside: bool,
        id: NodeId,
        registers: &mut Registers,
    ) -> Result<At, AllocError>
        requires there { id.index < length program.now.nodes }
        requires items { ItemsIn program.now self.old }
        ensures { IfOk result (λ next. Enters program.now inside id self.old self.new (standing next registers.new)) }
    {
        match program.node(id) {
            Node::Do(_) => self.take_part(program, id, 0, registers),
            Node::If(condition, taken, other) => {
                self.choose_behind(*taken, *other)?;
                Ok(At::Enter(*condition))
            }
            Node::Let(_, _) => self.take_bound(program, id, 0, registers),
            Node::Dosync(body) => self.enter_transaction(
                alloc, program, inside, id, *body, registers,
            ),
            Node::Local(place) => {
                self.read(alloc, program, *place, registers)?;
                Ok(At::Deliver)
            }
            _ => self.enter_arguments(alloc, program, id, registers),
        }
    }

    // Chooses one of the branches once there is a value.
    fn choose_behind(&mut self, taken: NodeId, other: NodeId) -> Result<(), AllocError>
        ensures stack { OnOk result (self.new.stack ≡ item.Choose taken other ∷ self.old.stack) }
        ensures frame { self.new.frame ≡ self.old.frame }
    {
        self.stack.push(Item::Choose(taken, other))
    }

    // Takes the value at that place of the frame into the register.
    fn read(
        &mut self,
        alloc: Global,
        program: &Program,
        place: u32,
        registers: &mut Registers,
    ) -> Result<(), AllocError>
        requires { ItemsIn program.now self.old }
        ensures value { OnOk result (registers.new.value ≡ local_value self.old.frame place) }
        ensures alike { OnOk result (GoesOnAlike program.now self.old self.new) }
    {
        registers.value = self.local(alloc, program, place)?;
        Ok(())
    }

    // The value at that place of the frame, and nil outside it. A collection or a text that nothing reads again is taken
    // out of the frame, so that it can be changed where it lies.
    fn local(&mut self, alloc: Global, program: &Program, place: u32) -> Result<Known, AllocError>
        requires { ItemsIn program.now self.old }
        ensures value { IfOk result (λ value. value ≡ local_value self.old.frame place) }
        ensures alike { OnOk result (GoesOnAlike program.now self.old self.new) }
    {
        if self.frame.owns_memory(place) && self.is_unread(program, place) {
            return Ok(self.frame.take(place));
        }
        self.frame.local(alloc, place)
    }

    // Enters the transaction with this body, which inside one is its body alone.
    fn enter_transaction(
        &mut self,
        alloc: Global,
        program: &Program,
        inside: bool,
        id: NodeId,
        body: NodeId,
        registers: &mut Registers,
    ) -> Result<At, AllocError>
        requires there { id.index < length program.now.nodes }
        requires transaction { node_at program.now.nodes id ≡ Some (node.Dosync body) }
        requires body { body.index < length program.now.nodes }
        requires items { ItemsIn program.now self.old }
        ensures { IfOk result (λ next. Enters program.now inside id self.old self.new (standing next registers.new)) }
    {
        if inside {
            return Ok(At::Enter(body));
        }
        self.enter_arguments(alloc, program, id, registers)
    }

    // Enters a node that has arguments and an operation.
    fn enter_arguments(
        &mut self,
        alloc: Global,
        program: &Program,
        id: NodeId,
        registers: &mut Registers,
    ) -> Result<At, AllocError>
        requires there { id.index < length program.now.nodes }
        requires items { ItemsIn program.now self.old }
        ensures { IfOk result (λ next. EntersArguments program.now id self.old self.new (standing next registers.new)) }
    {
        registers.values.clear();
        push_hidden(alloc, program.node(id), &self.frame, &mut registers.values)?;
        Ok(At::Arguments(id, 0))
    }

    /// Keeps the values of the register for the argument of the node with that number.
    pub fn keep_arguments(
        &mut self,
        alloc: Global,
        id: NodeId,
        number: usize,
        registers: &mut Registers,
    ) -> Result<(), AllocError>
        ensures stack { OnOk result (self.new.stack ≡ item.Arguments id registers.old.values number ∷ self.old.stack) }
        ensures frame { self.new.frame ≡ self.old.frame }
    {
        let values = mem::replace(&mut registers.values, Frame::new(alloc));
        self.stack.push(Item::Arguments(id, values, number))
    }

    /// Does the operation of the node with the values of the register.
    pub fn operate(
        &mut self,
        alloc: Global,
        program: &Program,
        id: NodeId,
        registers: &mut Registers,
    ) -> Result<At, AllocError>
        requires there { id.index < length program.now.nodes }
        requires items { ItemsIn program.now self.old }
        ensures { IfOk result (λ next. Operates program.now id registers.old.values self.old self.new (standing next registers.new)) }
    {
        let node = program.node(id);
        match node {
            Node::Op(op, _) => apply(alloc, *op, program.place(id), registers),
            Node::Vector(_) => apply(alloc, Op::Vector, program.place(id), registers),
            Node::Call(number, _, _) => {
                let body = program.function(*number).body;
                self.call(alloc, program, body, registers)?;
                Ok(At::Enter(body))
            }
            _ => act(alloc, node, program.place(id), &self.frame, registers),
        }
    }

    // Takes the values of the register as the frame of a function whose body is to be entered. The current frame is kept
    // where it is looked at again.
    fn call(
        &mut self,
        alloc: Global,
        program: &Program,
        body: NodeId,
        registers: &mut Registers,
    ) -> Result<(), AllocError>
        requires there { body.index < length program.now.nodes }
        requires items { ItemsIn program.now self.old }
        ensures { OnOk result (CallsBody program.now body registers.old.values self.old self.new (Enter body)) }
    {
        mem::swap(&mut self.frame, &mut registers.values);
        if self.stack.needs_frame() {
            let outer = mem::replace(&mut registers.values, Frame::new(alloc));
            return self.stack.push(Item::Back(outer));
        }
        registers.values.clear();
        Ok(())
    }

    /// Enters the part of the do with that number. The last one leaves nothing on the stack.
    pub fn take_part(
        &mut self,
        program: &Program,
        id: NodeId,
        number: usize,
        registers: &mut Registers,
    ) -> Result<At, AllocError>
        requires there { id.index < length program.now.nodes }
        requires items { ItemsIn program.now self.old }
        ensures { IfOk result (λ next. TakesPart program.now id number self.old self.new (standing next registers.new)) }
    {
        let parts = parts_of(program.node(id));
        if number >= parts.len() {
            registers.forget();
            return Ok(At::Deliver);
        }
        if number + 1 < parts.len() {
            self.stack.push(Item::Do(id, number + 1))?;
        }
        Ok(At::Enter(parts[number]))
    }

    /// Enters the expression with that number that the let binds, or its body behind them. The names go once its value
    /// is there, if the frame is looked at again.
    pub fn take_bound(
        &mut self,
        program: &Program,
        id: NodeId,
        number: usize,
        registers: &mut Registers,
    ) -> Result<At, AllocError>
        requires there { id.index < length program.now.nodes }
        requires items { ItemsIn program.now self.old }
        ensures { IfOk result (λ next. TakesBound program.now id number self.old self.new (standing next registers.new)) }
    {
        let Node::Let(bound, body) = program.node(id) else {
            registers.forget();
            return Ok(At::Deliver);
        };
        let bound = bound.items();
        if number < bound.len() {
            self.stack.push(Item::Let(id, number + 1))?;
            return Ok(At::Enter(bound[number]));
        }
        if self.stack.needs_frame() {
            self.stack.push(Item::Shrink(number))?;
        }
        Ok(At::Enter(*body))
    }

    /// Enters the step of main with that number. Behind the last one main is done, and gives nil.
    pub fn take_step(
        &mut self,
        program: &Program,
        id: NodeId,
        number: usize,
        registers: &mut Registers,
    ) -> Result<At, AllocError>
        requires there { id.index < length program.now.nodes }
        requires items { ItemsIn program.now self.old }
        ensures { IfOk result (λ next. TakesStep program.now id number self.old self.new (standing next registers.new)) }
    {
        let steps = steps_of(program.node(id));
        if number >= steps.len() {
            registers.forget();
            return Ok(registers.finish());
        }
        let step = steps[number];
        self.stack.push(Item::Steps(id, number + 1, step.binds))?;
        Ok(At::Enter(step.node))
    }
}

// The parts of a do; another node has none.
fn parts_of(node: &Node) -> &[NodeId]
    ensures { result.now ≡ do_parts (Some node.now) }
{
    match node {
        Node::Do(parts) => parts.items(),
        _ => &[],
    }
}

// The steps of a main; another node has none.
fn steps_of(node: &Node) -> &[Step]
    ensures { result.now ≡ main_steps (Some node.now) }
{
    match node {
        Node::Main(steps) => steps.items(),
        _ => &[],
    }
}
