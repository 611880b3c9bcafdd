ghost use Rattle.std.specs.Prelude.{◌≡◌, ◌<◌, ◌++◌, IfOk, None, OnErr, OnOk, Some, length, true};
ghost use Rattle.std.specs.Arc.{arc_value};
ghost use Rattle.std.specs.List.{slice_get};
ghost use Rattle.std.specs.Option.{IsSome};
ghost use Rattle.core_syntax.specs.declared.behaviour.Behaviour.{Behaviour as Behaving};
ghost use Rattle.serial_model.specs.declared.entry.Entry.TheVariants.{Take};
ghost use Rattle.shared_world.specs.Stands.{Stands};
ghost use Rattle.unit_table.specs.Board.{actor_at, piece_at, HasPlace, IsPutAt, IsUnlent, SameClaims};
ghost use Rattle.unit_table.specs.declared.mark.Mark.TheVariants as mark;
ghost use Rattle.unit_table.specs.declared.piece.Piece.TheVariants as pieces;
ghost use Rattle.value_core.specs.Named.{Name as Called};
ghost use Rattle.world_model.specs.rows.Turns.{busy_with};
ghost use Rattle.world_steps.specs.Kept.{shared_of, IsSameBut};
ghost use Rattle.actor_turns.specs.Turning.{due_by, turn_of, CanBegin, HasBegunTurn, IsAtFront, IsDue, IsDueSo, IsTurning, TurnComes};

use actor_mailbox::Message;
use eval_step::Machine;
use serial_model::{ActorState, End, Entry};
use shared_world::Given;
use std::alloc::{AllocError, Global};
use unit_table::{Actor, Mark, Piece, UnitKind, Units};
use value_core::{Name, Values};
use world_steps::{Kept, Marks, append};

/// A turn that can begin: its name; its actor, as the actor of the unit; its machine; the actor as it is in the turn; and the
/// number of units with it.
#[derive(Drop)]
pub(crate) struct Turning {
    pub(crate) name: Name,
    pub(crate) actor: Name,
    pub(crate) machine: Machine,
    pub(crate) busy: ActorState,
    pub(crate) units: u32,
}

/// Whether the message is settled on which a turn begins.
#[derive(Drop)]
pub(crate) enum Due {
    Settled,
    Ahead,
}

/// An idle actor takes the first message of its mail, which is settled, and its turn on that can go on, where the limit allows one
/// unit more. What no run can meet, as an actor that has a turn, is taken for want of memory. Then nothing changes but room.
pub fn give_actor(kept: &mut Kept, alloc: Global, name: &Name) -> Result<Given, AllocError>
    requires stands { Stands (shared_of kept.old) }
    ensures { TurnComes (shared_of kept.old) name.now (shared_of kept.new) result }
{
    match due_of(kept, name)? {
        Due::Settled => take_settled(kept, alloc, name),
        Due::Ahead => Err(AllocError),
    }
}

/// The actor takes the first message of its mail, which is settled, where the limit allows one unit more.
fn take_settled(kept: &mut Kept, alloc: Global, name: &Name) -> Result<Given, AllocError>
    requires due { IsDue (shared_of kept.old) name.now }
    ensures { TurnComes (shared_of kept.old) name.now (shared_of kept.new) result }
{
    let marks = take_marks(kept, alloc, name)?;
    kept.make_room()?;
    if kept.made == kept.limits.units() {
        return Ok(kept.end_with(marks, End::UnitsSpent));
    }
    let turning = prepare_turn(kept, alloc, name)?;
    Ok(begin_turn(kept, alloc, name, marks, turning))
}

/// How the actor begins its turn, which is idle and has mail.
pub(crate) fn due_of(kept: &Kept, name: &Name) -> Result<Due, AllocError>
    ensures { IfOk result (IsDueSo (shared_of kept.now) name.now) }
{
    match kept.units.piece(name) {
        Some(Piece::Actor(actor)) => due_at(kept, name, actor),
        _ => Err(AllocError),
    }
}

/// How the actor of that name begins its turn.
fn due_at(kept: &Kept, name: &Name, actor: &Actor) -> Result<Due, AllocError>
    requires { piece_at kept.now.units name.now ≡ Some (pieces.Actor actor.now) }
    ensures { IfOk result (IsDueSo (shared_of kept.now) name.now) }
{
    check_begin(kept, name, &actor.state)?;
    match kept.mails.front(name) {
        Some(message) => Ok(due_on(message)),
        None => Err(AllocError),
    }
}

/// The actor of that name can begin a turn.
fn check_begin(kept: &Kept, name: &Name, actor: &ActorState) -> Result<(), AllocError>
    ensures { OnOk result (CanBegin (shared_of kept.now) name.now actor.now) }
{
    if actor.busy || kept.taken.get(name).is_some() {
        return Err(AllocError);
    }
    if actor.behaviour < kept.program.behaviours() {
        Ok(())
    } else {
        Err(AllocError)
    }
}

/// How a turn on the message begins.
fn due_on(message: &Message) -> Due
    ensures { result ≡ due_by message.now.depends }
{
    match &message.depends {
        None => Due::Settled,
        Some(_) => Due::Ahead,
    }
}

/// The entry of the actor's turn on the first message of its mail, twice.
fn take_marks(kept: &Kept, alloc: Global, name: &Name) -> Result<Marks, AllocError>
    ensures entry { IfOk result (λ marks. (due : IsDue (shared_of kept.now) name.now) → marks.entry ≡ Take name.now due.front.first.sender) }
    ensures told { IfOk result (λ marks. marks.told ≡ marks.entry) }
{
    match kept.mails.front(name) {
        Some(message) => {
            let entry = Entry::Take(name.copy(alloc)?, message.sender.copy(alloc)?);
            let told = entry.copy(alloc)?;
            Ok(Marks { entry, told })
        }
        None => Err(AllocError),
    }
}

/// The actor's next turn, and room for it.
fn prepare_turn(kept: &mut Kept, alloc: Global, name: &Name) -> Result<Turning, AllocError>
    requires due { IsDue (shared_of kept.old) name.now }
    ensures same { IsSameBut (shared_of kept.old) (shared_of kept.new) }
    ensures others { kept.new ≡ record kept.old { units = kept.new.units } }
    ensures turning { IfOk result (λ turning. (front : IsAtFront (shared_of kept.old) name.now) → IsTurning (shared_of kept.old) name.now front.actor.state front.first front.can.behaviour turning) }
    ensures none { IfOk result (λ turning. piece_at kept.new.units turning.name ≡ None) }
    ensures place { IfOk result (λ turning. HasPlace kept.new.units turning.name) }
{
    let turning = next_turn(kept, alloc, name)?;
    kept.reserve_new(alloc, &turning.name)?;
    Ok(turning)
}

/// The actor's next turn.
pub(crate) fn next_turn(kept: &Kept, alloc: Global, name: &Name) -> Result<Turning, AllocError>
    requires front { IsAtFront (shared_of kept.now) name.now }
    ensures { IfOk result (λ turning. (front : IsAtFront (shared_of kept.now) name.now) → IsTurning (shared_of kept.now) name.now front.actor.state front.first front.can.behaviour turning) }
{
    match (kept.units.actor(name), kept.mails.front(name)) {
        (Some(actor), Some(message)) => turn_on(kept, alloc, name, actor, message),
        _ => Err(AllocError),
    }
}

/// The turn of that actor on that message.
fn turn_on(
    kept: &Kept,
    alloc: Global,
    name: &Name,
    actor: &ActorState,
    message: &Message,
) -> Result<Turning, AllocError>
    requires { actor.now.behaviour < length (arc_value kept.now.program).behaviours }
    ensures { IfOk result (λ turning. (behaviour : Behaving) → slice_get (arc_value kept.now.program).behaviours actor.now.behaviour ≡ Some behaviour → IsTurning (shared_of kept.now) name.now actor.now message.now behaviour turning) }
{
    let units = kept.made.checked_add(1).ok_or(AllocError)?;
    let body = kept.program.behaviour(actor.behaviour).body;
    let values = joined(&actor.state, &message.args)?;
    let turn = name.child(alloc, actor.turns)?;
    let turner = name.copy(alloc)?;
    let busy = in_turn(actor)?;
    let machine = Machine::start(alloc, body, values, false, kept.limits.fuel())?;
    Ok(Turning {
        name: turn,
        actor: turner,
        machine,
        busy,
        units,
    })
}

/// The turn begins. It takes no memory.
fn begin_turn(kept: &mut Kept, alloc: Global, name: &Name, marks: Marks, turning: Turning) -> Given
    requires room { 0 < kept.old.history.room }
    requires told { marks.told ≡ marks.entry }
    requires actor { IsSome (actor_at kept.old.units name.now) }
    requires none { piece_at kept.old.units turning.name ≡ None }
    requires place { HasPlace kept.old.units turning.name }
    ensures { HasBegunTurn (shared_of kept.old) name.now marks.entry turning (shared_of kept.new) result }
{
    let Turning {
        name: turn,
        actor,
        machine,
        busy,
        units,
    } = turning;
    begin_work(&mut kept.units, name, busy);
    add_turn(&mut kept.units, alloc, turn, actor, machine);
    message_goes(kept.mails.take(name));
    kept.made = units;
    append(&mut kept.history, marks.entry);
    Given::Settled(marks.told)
}

/// The state of an actor, and behind it the arguments of a message.
fn joined(state: &Values, message: &Values) -> Result<Values, AllocError>
    ensures { IfOk result (λ values. values ≡ state.now ++ message.now) }
{
    let mut values = state.copy()?;
    values.append(message)?;
    Ok(values)
}

/// The actor in its next turn.
fn in_turn(actor: &ActorState) -> Result<ActorState, AllocError>
    ensures { IfOk result (λ busy. busy ≡ busy_with actor.now) }
{
    let turns = actor.turns.checked_add(1).ok_or(AllocError)?;
    Ok(ActorState {
        behaviour: actor.behaviour,
        state: actor.state.copy()?,
        turns,
        busy: true,
    })
}

/// The actor has that state, rests, and is lent no more. It takes no memory.
fn begin_work(units: &mut Units, name: &Name, busy: ActorState)
    requires { IsSome (actor_at units.old name.now) }
    ensures busy { IsPutAt name.now (Some (pieces.Actor (record { state = busy; mark = mark.Resting }))) units.old units.new }
    ensures unlent { IsUnlent name.now units.old units.new }
    ensures places { (other : Called) → HasPlace units.old other → HasPlace units.new other }
{
    units.set_actor(name, busy);
    units.mark(name, Mark::Resting);
}

/// Adds the turn of an actor under the name, for which there is a place. It takes no memory.
pub(crate) fn add_turn(units: &mut Units, alloc: Global, name: Name, actor: Name, machine: Machine)
    requires none { piece_at units.old name ≡ None }
    requires place { HasPlace units.old name }
    ensures added { IsPutAt name (Some (pieces.Unit (turn_of name actor machine))) units.old units.new }
    ensures claims { SameClaims units.old units.new }
{
    match units.add_unit(alloc, name, UnitKind::Turn(actor), machine) {
        Ok(()) => {}
        Err(_) => unreachable!(),
    }
}

/// Drops a message.
fn message_goes(_message: Option<Message>) {}

/// Drops a turn that does not begin.
pub(crate) fn turning_goes(_turning: Turning) {}
