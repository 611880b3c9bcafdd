ghost use Rattle.std.specs.Prelude.{◌≡◌, ◌<◌, ℕ, List, OnOk, IfOk, Some, None, length, true, false, IsOk};
ghost use Rattle.std.specs.Option.{option_map};
ghost use Rattle.core_syntax.specs.WellFormed.{IsWellFormed};
ghost use Rattle.eval_step.specs.Evaluation.{IsAsk};
ghost use Rattle.serial_model.specs.Carried.{IsThere};
ghost use Rattle.serial_model.specs.declared.request.Request.TheVariants as request;
ghost use Rattle.value_core.specs.Named.{named};
ghost use Rattle.serial_model.specs.State.{Setup, UnitState};
ghost use Rattle.serial_model.specs.Task.{root_task};
ghost use Rattle.serial_model.specs.Step as row;
ghost use Rattle.serial_machine.specs.Now.{state_after, IsResult, Does, Tries, Steps};
ghost use Rattle.serial_units.specs.Units.{AreUnits, AsksAt, becoming_of, units_of};
ghost use Rattle.serial_machine.specs.Actors.{IsFreed};
ghost use Rattle.serial_units.specs.Asking.{IsThereAt};

use crate::now::Now;
use core_syntax::{NodeId, Program};
use serial_model::{ActorState, Halt, Limits, Request};
use serial_units::{Around, Becoming, Done, TaskEnd, transact};
use std::alloc::{AllocError, Global};
use std::collections::BTreeMap;
use value_core::{Code, Name, Place, Value, Values};

impl Now {
    /// A transaction: it is committed, or its end is the run's, or it waits.
    fn dosync(
        &mut self,
        alloc: Global,
        program: &Program,
        limits: Limits,
        name: &Name,
        at: Place,
        body: NodeId,
        values: Values,
    ) -> Result<bool, AllocError>
        requires asks { AsksAt name.now self.old.units }
        requires there { body.index < length program.now.nodes }
        ensures { IfOk result (λ done. Tries (record { program = program.now; limits = limits }) name.now self.old self.new done
            (λ s unit. row.transacts (record { program = program.now; limits = limits }) s name.now unit at body values)) }
    {
        let Done { end, task } = self.transacted(alloc, program, limits, name, body, values)?;
        match end {
            TaskEnd::Value(value) => {
                if value.holds_future() {
                    drop(value);
                    drop(task);
                    self.fail(alloc, name, Code::FutureEscapes, at)?;
                } else {
                    self.commit(alloc, name, task.log, value)?;
                }
                Ok(true)
            }
            TaskEnd::Fault(code, place) => {
                drop(task);
                self.fail(alloc, name, code, place)?;
                Ok(true)
            }
            TaskEnd::Spent => {
                drop(task);
                self.spend(alloc, name)?;
                Ok(true)
            }
            TaskEnd::Blocked => {
                drop(task);
                Ok(false)
            }
        }
    }

    /// What the transaction comes to.
    fn transacted(
        &self,
        alloc: Global,
        program: &Program,
        limits: Limits,
        name: &Name,
        body: NodeId,
        values: Values,
    ) -> Result<Done, AllocError>
        requires { body.index < length program.now.nodes }
        ensures { IfOk result (λ done. (before : List ℕ) (unit : UnitState) → named name.now (units_of self.now.units) ≡ Some unit
            → IsResult done (root_task (row.around (record { program = program.now; limits = limits }) (state_after before self.now) unit) (row.next_made name.now unit) body values)) }
    {
        let made = self.next_made(alloc, name)?;
        let around = Around {
            program,
            fuel: limits.fuel(),
            actor: self.actor_of(name),
            refs: &self.refs,
            units: &self.units,
        };
        transact(alloc, &around, made, body, values)
    }

    /// What the unit's request does.
    fn serve(
        &mut self,
        alloc: Global,
        program: &Program,
        limits: Limits,
        name: &Name,
        at: Place,
        request: Request,
    ) -> Result<bool, AllocError>
        requires asks { AsksAt name.now self.old.units }
        requires there { IsThere program.now false request }
        ensures { IfOk result (λ done. Tries (record { program = program.now; limits = limits }) name.now self.old self.new done
            (λ s unit. row.does (record { program = program.now; limits = limits }) s name.now unit at request)) }
    {
        match request {
            Request::Print(text) => done(self.print(alloc, name, &text)),
            Request::NewRef(content) => done(self.new_ref(alloc, name, content)),
            Request::Deref(asked) => self.deref(alloc, name, &asked),
            Request::RefSet(_asked, _content) => done(self.fail(
                alloc,
                name,
                Code::NoTransaction,
                at,
            )),
            Request::Fork(body, values) => done(self.fork(
                alloc, program, limits, name, body, values,
            )),
            Request::Join(future) => self.join(alloc, name, &future),
            Request::Dosync(body, values) => self.dosync(
                alloc, program, limits, name, at, body, values,
            ),
            Request::Spawn(behaviour, state) => done(self.spawn(alloc, name, behaviour, state)),
            Request::Send(actor, message) => done(self.send(alloc, name, actor, message)),
            Request::Become(behaviour, state) => done(self.turn_into(
                alloc, name, at, behaviour, state,
            )),
            Request::SelfActor => done(self.own_actor(alloc, name, at)),
        }
    }
}

impl Now {
    /// The unit does its next effect, or is finished at its value. A fault and a spent budget end the run.
    pub(crate) fn run(
        &mut self,
        alloc: Global,
        program: &Program,
        limits: Limits,
        name: &Name,
    ) -> Result<bool, AllocError>
        requires well_formed { IsWellFormed program.now }
        requires units { AreUnits (record { program = program.now; limits = limits }) self.old.units }
        ensures { IfOk result (λ done. Steps (record { program = program.now; limits = limits }) self.old self.new done
            (λ s. row.run_step (record { program = program.now; limits = limits }) s name.now)) }
    {
        match self.units.go_on(alloc, program, limits, name)? {
            Some(halt) => self.follow(alloc, program, limits, name, halt),
            None => Ok(false),
        }
    }

    /// What the unit's halt does.
    fn follow(
        &mut self,
        alloc: Global,
        program: &Program,
        limits: Limits,
        name: &Name,
        halt: Halt,
    ) -> Result<bool, AllocError>
        requires asks { IsAsk halt → AsksAt name.now self.old.units }
        requires there { IsThereAt program.now false halt }
        ensures { IfOk result (λ done. Tries (record { program = program.now; limits = limits }) name.now self.old self.new done
            (λ s unit. row.goes_on (record { program = program.now; limits = limits }) s name.now unit halt)) }
    {
        match halt {
            Halt::Ask(request, at) => self.serve(alloc, program, limits, name, at, request),
            Halt::Value(value) => done(self.end_unit(name, value)),
            Halt::Fault(code, at) => done(self.fail(alloc, name, code, at)),
            Halt::Spent => done(self.spend(alloc, name)),
        }
    }

    /// At its value a unit is finished, and the actor of a turn is idle.
    fn end_unit(&mut self, name: &Name, value: Value) -> Result<(), AllocError>
        ensures { OnOk result ((setup : Setup) → Does setup name.now self.old self.new (λ s unit. row.finishes s name.now unit value)) }
    {
        self.units.finish(name, value);
        self.release(name)
    }

    /// The actor of the unit's turn is idle, and becomes what is said.
    fn release(&mut self, name: &Name) -> Result<(), AllocError>
        ensures units { self.new.units ≡ self.old.units }
        ensures released { OnOk result ((setup : Setup) → Does setup name.now self.old self.new (λ s unit. row.released unit.actor s unit.becomes)) }
    {
        match self.units.get(name) {
            Some(unit) => match &unit.actor {
                Some(actor) => free(&mut self.actors, actor, &unit.becomes),
                None => Ok(()),
            },
            None => Ok(()),
        }
    }
}

/// The actor of that name is idle, and becomes what is said.
fn free(
    actors: &mut BTreeMap<Name, ActorState>,
    name: &Name,
    becomes: &Option<Becoming>,
) -> Result<(), AllocError>
    ensures { OnOk result (IsFreed name.now actors.old.entries actors.new.entries (named name.now actors.old.entries) (option_map becoming_of becomes.now)) }
{
    let becomes = copy_becoming(becomes)?;
    if let Some(actor) = actors.get_mut(name) {
        rest(actor, becomes);
    }
    Ok(())
}

fn copy_becoming(becomes: &Option<Becoming>) -> Result<Option<Becoming>, AllocError>
    ensures { IfOk result (λ copied. copied ≡ becomes.now) }
{
    match becomes {
        Some(next) => {
            let state = next.state.copy()?;
            Ok(Some(Becoming {
                behaviour: next.behaviour,
                state,
            }))
        }
        None => Ok(None),
    }
}

fn rest(actor: &mut ActorState, becomes: Option<Becoming>)
    ensures { actor.new ≡ row.after_turn (option_map becoming_of becomes) actor.old }
{
    actor.busy = false;
    if let Some(next) = becomes {
        actor.behaviour = next.behaviour;
        actor.state = next.state;
    }
}

/// It is done, where there was memory.
pub(crate) fn done(did: Result<(), AllocError>) -> Result<bool, AllocError>
    ensures done { IfOk result (λ done. done ≡ true) }
    ensures did { IsOk result → IsOk did }
{
    did?;
    Ok(true)
}
