ghost use Rattle.std.specs.Prelude.{◌≡◌, ◌<◌, ◌++◌, OnOk, IfOk, Some, length, suc};
ghost use Rattle.std.specs.Option.{option_copied, option_and_then};
ghost use Rattle.value_core.specs.Named.{Name as Naming, made_by, named, with_named};
ghost use Rattle.serial_model.specs.State.{Setup, UnitState, new_unit};
ghost use Rattle.serial_model.specs.Step.{sent, spawned, with_unit};
ghost use Rattle.serial_machine.specs.Now.{Comes};
ghost use Rattle.serial_units.specs.Units.{units_of};

use crate::now::Now;
use core_syntax::{NodeId, Program};
use eval_step::Machine;
use serial_model::{ActorState, Limits};
use serial_units::Unit;
use std::alloc::{AllocError, Global};
use value_core::name_map::put;
use value_core::{Name, Value, Values};

impl Now {
    /// The bytes are printed.
    pub(crate) fn print_bytes(&mut self, bytes: &[u8]) -> Result<(), AllocError>
        ensures comes { OnOk result ((setup : Setup) → Comes setup self.old self.new (λ s. record s { bytes = s.bytes ++ bytes.now })) }
        ensures units { self.new.units ≡ self.old.units }
    {
        self.text.extend_from_slice(bytes)
    }

    /// The ref is set.
    pub(crate) fn put_ref(&mut self, name: Name, value: Value) -> Result<(), AllocError>
        ensures comes { OnOk result ((setup : Setup) → Comes setup self.old self.new (λ s. record s { refs = with_named s.refs name value })) }
        ensures units { self.new.units ≡ self.old.units }
    {
        put(&mut self.refs, name, value)
    }

    /// The actor is sent the message.
    pub(crate) fn deliver(
        &mut self,
        alloc: Global,
        actor: Name,
        sender: &Name,
        message: Values,
    ) -> Result<(), AllocError>
        ensures comes { OnOk result ((setup : Setup) → Comes setup self.old self.new (λ s. sent s actor sender.now message)) }
        ensures units { self.new.units ≡ self.old.units }
    {
        let sender = sender.copy(alloc)?;
        self.queues.send(alloc, actor, sender, message)
    }

    /// An actor of that name begins.
    pub(crate) fn put_actor(
        &mut self,
        name: Name,
        behaviour: u32,
        state: Values,
    ) -> Result<(), AllocError>
        ensures comes { OnOk result ((setup : Setup) → Comes setup self.old self.new (λ s. spawned s name behaviour state)) }
        ensures units { self.new.units ≡ self.old.units }
    {
        put(
            &mut self.actors,
            name,
            ActorState {
                behaviour,
                state,
                turns: 0,
                busy: false,
            },
        )
    }

    /// A unit of that name begins, and counts.
    pub(crate) fn start(
        &mut self,
        alloc: Global,
        program: &Program,
        limits: Limits,
        name: Name,
        actor: Option<Name>,
        body: NodeId,
        values: Values,
    ) -> Result<(), AllocError>
        requires { body.index < length program.now.nodes }
        ensures comes { OnOk result (Comes (record { program = program.now; limits = limits }) self.old self.new
            (λ s. with_unit (record s { made = suc s.made }) name (new_unit actor body values))) }
        ensures kept { OnOk result ((other : Naming) → ¬ (other ≡ name) → named other self.new.units ≡ named other self.old.units) }
    {
        let machine = Machine::start(alloc, body, values, false, limits.fuel())?;
        self.units.begin(
            alloc,
            name,
            Unit {
                actor,
                machine,
                made: 0,
                becomes: None,
                value: None,
            },
        )?;
        self.count()
    }

    fn count(&mut self) -> Result<(), AllocError>
        ensures counted { OnOk result (self.new ≡ record self.old { made = suc self.old.made }) }
    {
        self.made = self.made.checked_add(1).ok_or(AllocError)?;
        Ok(())
    }

    /// The name of the next thing that the unit makes.
    pub(crate) fn next_made(&self, alloc: Global, name: &Name) -> Result<Name, AllocError>
        ensures value { IfOk result (λ made. (unit : UnitState) → named name.now (units_of self.now.units) ≡ Some unit → made ≡ made_by name.now unit.made) }
        ensures other { IfOk result (λ made. ¬ (name.now ≡ made)) }
    {
        match self.units.get(name) {
            Some(unit) => name.child(alloc, unit.made),
            None => Err(AllocError),
        }
    }

    /// The actor whose turn the unit is.
    pub(crate) fn actor_of(&self, name: &Name) -> Option<&Name>
        ensures { (unit : UnitState) → named name.now (units_of self.now.units) ≡ Some unit → option_copied result ≡ unit.actor }
    {
        match self.units.get(name) {
            Some(unit) => unit.actor.as_ref(),
            None => None,
        }
    }

    /// The value of the unit of that name, where it is there and finished.
    pub(crate) fn value_of(&self, name: &Name) -> Option<&Value>
        ensures { option_copied result ≡ option_and_then (λ unit. unit.finished) (named name.now (units_of self.now.units)) }
    {
        match self.units.get(name) {
            Some(unit) => unit.value.as_ref(),
            None => None,
        }
    }
}
