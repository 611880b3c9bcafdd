ghost use Rattle.std.specs.Prelude.{◌≡◌, ◌++◌, ◌<◌, length, true, IfOk, OnOk, Some, None, if◌then◌else◌};
ghost use Rattle.std.specs.Option.{option_and_then};
ghost use Rattle.value_core.specs.Named.{named, IsChanged};
ghost use Rattle.serial_model.specs.Step as row;
ghost use Rattle.serial_model.specs.declared.actor_state.ActorState.{ActorState as Acting};
ghost use Rattle.serial_machine.specs.Now.{Steps, BeginsTurn, IsTurn};
ghost use Rattle.serial_machine.specs.Actors.{idle_of, turning};

use crate::now::Now;
use crate::run::done;
use core_syntax::{NodeId, Program};
use serial_model::{ActorState, End, Limits};
use std::alloc::{AllocError, Global};
use std::collections::BTreeMap;
use unit_limit::are_units_spent;
use value_core::name_map::find;
use value_core::{Name, Values};

/// The actor begins a turn: its number.
fn begin(actors: &mut BTreeMap<Name, ActorState>, name: &Name) -> Result<(), AllocError>
    ensures { OnOk result (IsChanged name.now actors.old.entries actors.new.entries (λ actor after. after ≡ turning actor)) }
{
    match actors.get_mut(name) {
        Some(actor) => turn(actor),
        None => Ok(()),
    }
}

fn turn(actor: &mut ActorState) -> Result<(), AllocError>
    ensures { OnOk result (actor.new ≡ turning actor.old) }
{
    actor.turns = actor.turns.checked_add(1).ok_or(AllocError)?;
    actor.busy = true;
    Ok(())
}

/// The values, and behind them the message.
fn joined(state: &Values, message: &Values) -> Result<Values, AllocError>
    ensures { IfOk result (λ values. values ≡ state.now ++ message.now) }
{
    let mut values = state.copy()?;
    values.append(message)?;
    Ok(values)
}

impl Now {
    /// The behaviour of the actor, where it is there and idle.
    fn idle_behaviour(&self, name: &Name) -> Option<u32>
        ensures { result ≡ option_and_then idle_of (named name.now self.now.actors.entries) }
    {
        match find(&self.actors, name) {
            Some(actor) => {
                if actor.busy {
                    None
                } else {
                    Some(actor.behaviour)
                }
            }
            None => None,
        }
    }

    /// The actor, which is idle and has a message of that sender, begins a turn on the first one.
    fn begin_turn(
        &mut self,
        alloc: Global,
        program: &Program,
        limits: Limits,
        actor: &Name,
        sender: &Name,
    ) -> Result<(), AllocError>
        requires { (acting : Acting) → named actor.now self.old.actors.entries ≡ Some acting → acting.behaviour < length program.now.behaviours }
        ensures { OnOk result (BeginsTurn (record { program = program.now; limits = limits }) self.old self.new actor.now sender.now) }
    {
        let (name, body, state) = self.next_turn(alloc, program, actor)?;
        let Some(message) = self.queues.take(actor, sender) else {
            return Err(AllocError);
        };
        let values = joined(&state, &message)?;
        let turner = actor.copy(alloc)?;
        self.start(alloc, program, limits, name, Some(turner), body, values)?;
        begin(&mut self.actors, actor)
    }

    /// The name, the body and the state of the actor's next turn.
    fn next_turn(
        &self,
        alloc: Global,
        program: &Program,
        actor: &Name,
    ) -> Result<(Name, NodeId, Values), AllocError>
        requires { (acting : Acting) → named actor.now self.now.actors.entries ≡ Some acting → acting.behaviour < length program.now.behaviours }
        ensures turn { IfOk result (λ turn. (acting : Acting) → named actor.now self.now.actors.entries ≡ Some acting
            → IsTurn acting actor.now turn.0 turn.1 turn.2 program.now) }
        ensures below { IfOk result (λ turn. turn.1.index < length program.now.nodes) }
    {
        match find(&self.actors, actor) {
            Some(found) => {
                let name = actor.child(alloc, found.turns)?;
                let state = found.state.copy()?;
                Ok((name, program.behaviour(found.behaviour).body, state))
            }
            None => Err(AllocError),
        }
    }

    /// An idle actor begins a turn on the first message of that sender, where the limit allows one unit more.
    pub(crate) fn take(
        &mut self,
        alloc: Global,
        program: &Program,
        limits: Limits,
        actor: &Name,
        sender: &Name,
    ) -> Result<bool, AllocError>
        ensures { IfOk result (λ done. Steps (record { program = program.now; limits = limits }) self.old self.new done
            (λ s. option_and_then (row.take_step (record { program = program.now; limits = limits }) s actor.now sender.now) (named actor.now s.actors))) }
    {
        let Some(behaviour) = self.idle_behaviour(actor) else {
            return Ok(false);
        };
        if program.behaviours() <= behaviour {
            return Ok(false);
        }
        if !self.queues.has_message(actor, sender) {
            return Ok(false);
        }
        if are_units_spent(limits, self.made) {
            self.end_with(End::UnitsSpent);
            return Ok(true);
        }
        done(self.begin_turn(alloc, program, limits, actor, sender))
    }
}
