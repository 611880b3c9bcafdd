ghost use Rattle.std.specs.Prelude.{◌≡◌, OnOk, IfOk, Some, suc, if◌then◌else◌};
ghost use Rattle.std.specs.Option.{option_or};
ghost use Rattle.serial_model.specs.State.{Setup};
ghost use Rattle.eval_step.specs.Evaluation.{IsAsking};
ghost use Rattle.serial_units.specs.Units.{unit_of, settled, IsGone, IsUnit};

use core_syntax::Program;
use eval_step::Machine;
use serial_model::{Answer, Halt, Limits};
use std::alloc::{AllocError, Global};
use value_core::{Name, Value, Values};

/// A behaviour by its number, and a state.
#[derive(Drop)]
pub struct Becoming {
    pub behaviour: u32,
    pub state: Values,
}

/// A unit: the actor whose turn it is, where it is one; its evaluation; how many things it has made; what its actor
/// becomes at its end, where that is said; and its value, where it is finished.
pub struct Unit {
    pub actor: Option<Name>,
    pub machine: Machine,
    pub made: u32,
    pub becomes: Option<Becoming>,
    pub value: Option<Value>,
}

impl Drop for Unit {
    fn drop(self) {
        let Unit {
            actor: _actor,
            machine: _machine,
            made: _,
            becomes: _becomes,
            value: _value,
        } = self;
    }
}

impl Unit {
    /// Goes on to where it stops, where it is not finished.
    pub(crate) fn go_on(
        &mut self,
        alloc: Global,
        program: &Program,
        limits: Limits,
    ) -> Result<Option<Halt>, AllocError>
        requires { IsUnit (record { program = program.now; limits = limits }) self.old }
        ensures gone { IfOk result (λ halt. IsGone (record { program = program.now; limits = limits }) self.old self.new halt self.old.value) }
        ensures value { self.new.value ≡ self.old.value }
    {
        if self.value.is_some() {
            return Ok(None);
        }
        let halt = self.machine.run_to_ask(alloc, program)?;
        Ok(Some(halt))
    }

    /// Counts one thing made where that is said, keeps what the actor becomes where that is said, and answers the request.
    pub(crate) fn settle(
        &mut self,
        alloc: Global,
        made: bool,
        becomes: Option<Becoming>,
        value: Value,
    ) -> Result<(), AllocError>
        requires { IsAsking self.old.machine }
        ensures unit { OnOk result (unit_of self.new ≡ settled made becomes (unit_of self.old) value) }
        ensures keeps { (setup : Setup) → IsUnit setup self.old → IsUnit setup self.new }
        ensures value { self.new.value ≡ self.old.value }
    {
        self.count(made)?;
        self.turn_into(becomes);
        self.machine.answer(alloc, Answer::Value(value))
    }

    fn count(&mut self, made: bool) -> Result<(), AllocError>
        ensures made { OnOk result (self.new.made ≡ (if made then suc self.old.made else self.old.made)) }
        ensures others { self.new ≡ record self.old { made = self.new.made } }
    {
        if made {
            self.made = self.made.checked_add(1).ok_or(AllocError)?;
        }
        Ok(())
    }

    fn turn_into(&mut self, becomes: Option<Becoming>)
        ensures becomes { self.new.becomes ≡ option_or becomes self.old.becomes }
        ensures others { self.new ≡ record self.old { becomes = self.new.becomes } }
    {
        if becomes.is_some() {
            self.becomes = becomes;
        }
    }

    /// Is finished with that value.
    pub(crate) fn finish(&mut self, value: Value)
        ensures { self.new ≡ record self.old { value = Some value } }
    {
        self.value = Some(value);
    }
}
