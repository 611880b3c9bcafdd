ghost use Rattle.std.specs.Prelude.{◌<◌, ◌++◌, OnOk, IfOk, Some, length};
ghost use Rattle.value_core.specs.declared.value.Value.TheVariants as value;
ghost use Rattle.value_core.specs.declared.code.Code.TheVariants as code;
ghost use Rattle.value_core.specs.Named.{named, with_named};
ghost use Rattle.serial_model.specs.declared.answer.Answer.TheVariants as answer;
ghost use Rattle.serial_model.specs.Ahead.{of_turn, self_of};
ghost use Rattle.serial_model.specs.State.{Setup, new_unit};
ghost use Rattle.serial_model.specs.Step as row;
ghost use Rattle.serial_machine.specs.Now.{Does, Tries};
ghost use Rattle.serial_units.specs.Units.{AsksAt};

use crate::now::Now;
use core_syntax::{NodeId, Program};
use serial_model::{End, Limits};
use serial_units::Becoming;
use std::alloc::{AllocError, Global};
use unit_limit::are_units_spent;
use value_core::name_map::find;
use value_core::{Code, Name, Place, Text, Value, Values};

impl Now {
    /// A print.
    pub(crate) fn print(
        &mut self,
        alloc: Global,
        name: &Name,
        text: &Text,
    ) -> Result<(), AllocError>
        requires { AsksAt name.now self.old.units }
        ensures { OnOk result ((setup : Setup) → Does setup name.now self.old self.new (λ s unit. row.gets (record s { bytes = s.bytes ++ text.now }) name.now unit value.Nil)) }
    {
        self.print_bytes(text.items())?;
        self.reply(alloc, name, false, None, Value::Nil)
    }

    /// A new ref.
    pub(crate) fn new_ref(
        &mut self,
        alloc: Global,
        name: &Name,
        content: Value,
    ) -> Result<(), AllocError>
        requires { AsksAt name.now self.old.units }
        ensures { OnOk result ((setup : Setup) → Does setup name.now self.old self.new (λ s unit.
            row.gets (record s { refs = with_named s.refs (row.next_made name.now unit) content }) name.now (row.with_made unit) (value.Ref (row.next_made name.now unit)))) }
    {
        let made = self.next_made(alloc, name)?;
        self.put_ref(made.copy(alloc)?, content)?;
        self.reply(alloc, name, true, None, Value::Ref(made))
    }

    /// The value of a ref.
    pub(crate) fn deref(
        &mut self,
        alloc: Global,
        name: &Name,
        asked: &Name,
    ) -> Result<bool, AllocError>
        requires { AsksAt name.now self.old.units }
        ensures { IfOk result (λ done. (setup : Setup) → Tries setup name.now self.old self.new done (λ s unit. row.gets_if_there s name.now unit (named asked.now s.refs))) }
    {
        match find(&self.refs, asked) {
            Some(content) => {
                let content = content.copy(alloc)?;
                self.reply(alloc, name, false, None, content)?;
                Ok(true)
            }
            None => Ok(false),
        }
    }

    /// A new unit, where the limit allows one more.
    pub(crate) fn fork(
        &mut self,
        alloc: Global,
        program: &Program,
        limits: Limits,
        name: &Name,
        body: NodeId,
        values: Values,
    ) -> Result<(), AllocError>
        requires asks { AsksAt name.now self.old.units }
        requires there { body.index < length program.now.nodes }
        ensures { OnOk result (Does (record { program = program.now; limits = limits }) name.now self.old self.new (λ s unit.
            row.if_allowed (record { program = program.now; limits = limits }) s (λ s. row.gets (row.with_unit s (row.next_made name.now unit) (new_unit None body values)) name.now (row.with_made unit) (value.Future (row.next_made name.now unit))))) }
    {
        if are_units_spent(limits, self.made) {
            self.end_with(End::UnitsSpent);
            return Ok(());
        }
        let made = self.next_made(alloc, name)?;
        self.start(
            alloc,
            program,
            limits,
            made.copy(alloc)?,
            None,
            body,
            values,
        )?;
        self.reply(alloc, name, true, None, Value::Future(made))
    }

    /// The value of a unit.
    pub(crate) fn join(
        &mut self,
        alloc: Global,
        name: &Name,
        future: &Name,
    ) -> Result<bool, AllocError>
        requires { AsksAt name.now self.old.units }
        ensures { IfOk result (λ done. (setup : Setup) → Tries setup name.now self.old self.new done (λ s unit. row.gets_if_there s name.now unit (row.value_of s future.now))) }
    {
        match self.value_of(future) {
            Some(found) => {
                let found = found.copy(alloc)?;
                self.reply(alloc, name, false, None, found)?;
                Ok(true)
            }
            None => Ok(false),
        }
    }

    /// A new actor.
    pub(crate) fn spawn(
        &mut self,
        alloc: Global,
        name: &Name,
        behaviour: u32,
        state: Values,
    ) -> Result<(), AllocError>
        requires { AsksAt name.now self.old.units }
        ensures { OnOk result ((setup : Setup) → Does setup name.now self.old self.new (λ s unit.
            row.gets (row.spawned s (row.next_made name.now unit) behaviour state) name.now (row.with_made unit) (value.Actor (row.next_made name.now unit)))) }
    {
        let made = self.next_made(alloc, name)?;
        self.put_actor(made.copy(alloc)?, behaviour, state)?;
        self.reply(alloc, name, true, None, Value::Actor(made))
    }

    /// A message.
    pub(crate) fn send(
        &mut self,
        alloc: Global,
        name: &Name,
        actor: Name,
        message: Values,
    ) -> Result<(), AllocError>
        requires { AsksAt name.now self.old.units }
        ensures { OnOk result ((setup : Setup) → Does setup name.now self.old self.new (λ s unit. row.gets (row.sent s actor name.now message) name.now unit value.Nil)) }
    {
        self.deliver(alloc, actor, name, message)?;
        self.reply(alloc, name, false, None, Value::Nil)
    }

    /// What the actor of a turn becomes at its end.
    pub(crate) fn turn_into(
        &mut self,
        alloc: Global,
        name: &Name,
        at: Place,
        behaviour: u32,
        state: Values,
    ) -> Result<(), AllocError>
        requires { AsksAt name.now self.old.units }
        ensures { OnOk result ((setup : Setup) → Does setup name.now self.old self.new (λ s unit.
            row.gives s name.now (row.becoming unit behaviour state) at (of_turn unit.actor (answer.Value value.Nil)))) }
    {
        match self.actor_of(name) {
            Some(_) => self.reply(
                alloc,
                name,
                false,
                Some(Becoming { behaviour, state }),
                Value::Nil,
            ),
            None => self.fail(alloc, name, Code::NoTurn, at),
        }
    }

    /// The actor of a turn.
    pub(crate) fn own_actor(
        &mut self,
        alloc: Global,
        name: &Name,
        at: Place,
    ) -> Result<(), AllocError>
        requires { AsksAt name.now self.old.units }
        ensures { OnOk result ((setup : Setup) → Does setup name.now self.old self.new (λ s unit.
            row.gives s name.now unit at (self_of unit.actor))) }
    {
        match self.actor_of(name) {
            Some(actor) => {
                let actor = actor.copy(alloc)?;
                self.reply(alloc, name, false, None, Value::Actor(actor))
            }
            None => self.fail(alloc, name, Code::NoTurn, at),
        }
    }
}
