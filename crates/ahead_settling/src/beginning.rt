// The begin of a turn is settled.
ghost use Rattle.std.specs.Prelude.{◌≡◌, IfOk, OnOk, suc};
ghost use Rattle.ahead_settling.specs.Beginning.{BeginComes, HasBegunAhead, HoldsIts, IsEntryOf, IsNextTurn, IsTakeEntry};
ghost use Rattle.ahead_settling.specs.First.{IsOpen};
ghost use Rattle.ahead_settling.specs.Leaving.{CanLeave};
ghost use Rattle.shared_world.specs.Marks.{AreMarked};
ghost use Rattle.value_core.specs.Named.{made_by, same_name};
ghost use Rattle.value_core.specs.Placed.{filled};
ghost use Rattle.world_model.specs.rows.Turns.{busy_with};
ghost use Rattle.world_steps.specs.Kept.{shared_of};

use crate::leaving::{Leave, leave_by, leave_turn, settle_take};
use actor_mailbox::Message;
use serial_model::{ActorState, End, Entry};
use shared_world::Given;
use std::alloc::{AllocError, Global};
use unit_table::Units;
use value_core::{Name, Places};
use world_steps::Kept;

/// The begin of the turn, where it is held, is settled, where the limit allows one unit more. What no run can meet, as a turn that
/// is not the next one of the actor, is taken for want of memory.
pub(crate) fn settle_begin(
    kept: &mut Kept,
    alloc: Global,
    name: &Name,
    actor: &Name,
) -> Result<Given, AllocError>
    requires opened { IsOpen (shared_of kept.old) name.now }
    requires marks { AreMarked (shared_of kept.old) }
    requires holds { HoldsIts (shared_of kept.old).aheads name.now }
    ensures { BeginComes (shared_of kept.old) name.now actor.now (shared_of kept.new) result }
{
    let entry = take_entry(&kept.taken, alloc, actor)?;
    let busy = next_turn(&kept.units, alloc, name, actor)?;
    let leave = leave_by(kept, alloc, name, entry)?;
    if kept.made == kept.limits.units() {
        return Ok(kept.end_with(leave.marks, End::UnitsSpent));
    }
    let units = kept.made.checked_add(1).ok_or(AllocError)?;
    Ok(begin_turn(kept, name, actor, leave, Busy { state: busy, units }))
}

/// An actor in its turn, and the number of units with that.
#[derive(Drop)]
pub(crate) struct Busy {
    pub(crate) state: ActorState,
    pub(crate) units: u32,
}

/// The entry of the begin of the actor's turn, where the message that it took is settled.
fn take_entry(taken: &Places<Message>, alloc: Global, actor: &Name) -> Result<Entry, AllocError>
    ensures { IfOk result (IsTakeEntry (filled taken.now) actor.now) }
{
    match taken.get(actor) {
        Some(message) => entry_of(alloc, actor, message),
        None => Err(AllocError),
    }
}

/// The entry of the begin of the actor's turn on that message, where it is settled.
fn entry_of(alloc: Global, actor: &Name, message: &Message) -> Result<Entry, AllocError>
    ensures { IfOk result (IsEntryOf actor.now message.now) }
{
    match &message.depends {
        Some(_) => Err(AllocError),
        None => Ok(Entry::Take(actor.copy(alloc)?, message.sender.copy(alloc)?)),
    }
}

/// The actor in its next turn, where the turn is that.
fn next_turn(
    units: &Units,
    alloc: Global,
    name: &Name,
    actor: &Name,
) -> Result<ActorState, AllocError>
    ensures { IfOk result (IsNextTurn units.now name.now actor.now) }
{
    match units.actor(actor) {
        Some(state) => turn_of(alloc, name, actor, state),
        None => Err(AllocError),
    }
}

/// The actor of that state in its next turn, where the turn is that.
fn turn_of(
    alloc: Global,
    name: &Name,
    actor: &Name,
    state: &ActorState,
) -> Result<ActorState, AllocError>
    ensures called { OnOk result (name.now ≡ made_by actor.now state.now.turns) }
    ensures busy { IfOk result (λ busy. busy ≡ busy_with state.now) }
{
    let next = actor.child(alloc, state.turns)?;
    if is_same(&next, name) {
        in_turn(state)
    } else {
        Err(AllocError)
    }
}

/// Whether the names are the same.
fn is_same(one: &Name, other: &Name) -> bool
    ensures { result ≡ same_name one.now other.now }
{
    one == other
}

/// The actor in its next turn.
fn in_turn(actor: &ActorState) -> Result<ActorState, AllocError>
    ensures { IfOk result (λ busy. busy ≡ busy_with actor.now) }
{
    let turns = actor.turns.checked_add(1).ok_or(AllocError)?;
    Ok(ActorState {
        behaviour: actor.behaviour,
        state: actor.state.copy()?,
        turns,
        busy: true,
    })
}

/// The actor is busy with the turn, which begins. It takes no memory.
fn begin_turn(kept: &mut Kept, name: &Name, actor: &Name, leave: Leave, busy: Busy) -> Given
    requires opened { IsOpen (shared_of kept.old) name.now }
    requires marks { AreMarked (shared_of kept.old) }
    requires holds { HoldsIts (shared_of kept.old).aheads name.now }
    requires leave { CanLeave kept.old.history.room kept.old.units kept.old.attempts.entries name.now leave.marks.entry leave }
    requires entry { IsTakeEntry (filled kept.old.taken) actor.now leave.marks.entry }
    requires next { IsNextTurn kept.old.units name.now actor.now busy.state }
    requires units { busy.units ≡ suc kept.old.made }
    ensures { HasBegunAhead (shared_of kept.old) name.now actor.now (shared_of kept.new) result }
{
    let Busy { state, units } = busy;
    kept.units.set_actor(actor, state);
    message_goes(kept.taken.take(actor));
    kept.made = units;
    let still = settle_take(&mut kept.aheads, name);
    leave_turn(kept, name, leave, still)
}

/// Drops a message.
fn message_goes(_message: Option<Message>) {}
