ghost use Rattle.std.specs.Prelude.{◌≡◌, OnOk, IfOk, None};
ghost use Rattle.value_core.specs.Named.{over};
ghost use Rattle.serial_model.specs.State.{Setup};
ghost use Rattle.serial_model.specs.Step as row;
ghost use Rattle.serial_machine.specs.Now.{Does, TakesEffects};
ghost use Rattle.serial_units.specs.Units.{AsksAt};

use crate::now::Now;
use serial_model::{Effect, What};
use serial_units::Becoming;
use shared_map::SharedMap;
use std::alloc::{AllocError, Global};
use std::collections::BTreeMap;
use task_log::{TaskLog, list_effects};
use value_core::name_map::put;
use value_core::{Name, Value};

/// The refs, with what is written.
fn put_over(refs: &mut BTreeMap<Name, Value>, writes: &SharedMap<Value>) -> Result<(), AllocError>
    ensures { OnOk result (refs.new.entries ≡ over writes.now refs.old.entries) }
{
    for (name, value) in writes.entries()? {
        put(refs, name, value)?;
    }
    Ok(())
}

impl Now {
    /// An effect of a transaction of that unit.
    fn take_effect(
        &mut self,
        alloc: Global,
        name: &Name,
        what: What,
        becomes: &mut Option<Becoming>,
    ) -> Result<(), AllocError>
        ensures units { self.new.units ≡ self.old.units }
        ensures taken { OnOk result (TakesEffects self.old becomes.old self.new becomes.new (λ s unit. row.takes_effect name.now s unit what)) }
    {
        match what {
            What::Bytes(text) => self.print_bytes(text.items()),
            What::Send(actor, message) => self.deliver(alloc, actor, name, message),
            What::Spawn(actor, behaviour, state) => self.put_actor(actor, behaviour, state),
            What::Become(behaviour, state) => {
                *becomes = Some(Becoming { behaviour, state });
                Ok(())
            }
        }
    }

    /// The effects of a transaction of that unit, in order.
    fn take_effects(
        &mut self,
        alloc: Global,
        name: &Name,
        effects: Vec<Effect>,
    ) -> Result<Option<Becoming>, AllocError>
        ensures units { OnOk result (self.new.units ≡ self.old.units) }
        ensures taken { IfOk result (λ becomes. TakesEffects self.old None self.new becomes (λ s unit. row.take_effects name.now effects.items s unit)) }
    {
        let mut becomes = None;
        for effect in effects {
            self.take_effect(alloc, name, effect.what, &mut becomes)?;
        }
        Ok(becomes)
    }

    /// A commit: the written and new refs are set, and the effects are done in order. It is answered with the value.
    pub(crate) fn commit(
        &mut self,
        alloc: Global,
        name: &Name,
        log: TaskLog,
        value: Value,
    ) -> Result<(), AllocError>
        requires { AsksAt name.now self.old.units }
        ensures { OnOk result ((setup : Setup) → Does setup name.now self.old self.new (λ s unit. row.commits s name.now unit log value)) }
    {
        put_over(&mut self.refs, log.writes())?;
        let effects = list_effects(alloc, log.effects())?;
        drop(log);
        let becomes = self.take_effects(alloc, name, effects)?;
        self.reply(alloc, name, true, becomes, value)
    }
}
