// How an actor begins its turn on a message that is not settled.
ghost use Rattle.std.specs.Prelude.{◌≡◌, ◌∷◌, IfOk, List, OnErr, OnOk, Some};
ghost use Rattle.std.specs.Option.{IsSome};
ghost use Rattle.actor_turns.specs.Leading.{HasBegunAhead, HasNoted, HasRoomFor};
ghost use Rattle.actor_mailbox.specs.declared.message.Message.{Message as Letter};
ghost use Rattle.actor_mails.specs.Mails.{held, mail_at, IsMailed};
ghost use Rattle.actor_turns.specs.Turning.{AheadComes, IsDueAhead};
ghost use Rattle.shared_world.specs.rows.Leading.{IsChanged, begun_by};
ghost use Rattle.tentative_turn.specs.Turn.{IsTake, IsTakeOf};
ghost use Rattle.turns_ahead.specs.Leading.{ahead_of};
ghost use Rattle.unit_table.specs.Board.{actor_at};
ghost use Rattle.value_core.specs.Named.{each_as, Name as Called};
ghost use Rattle.value_core.specs.Placed.{filled, HasPlace as HasItemPlace};
ghost use Rattle.world_steps.specs.Kept.{shared_of, IsSameBut};

use crate::turns::{Due, Turning, add_turn, due_of, next_turn, turning_goes};
use actor_mailbox::Message;
use actor_mails::Mails;
use serial_model::Entry;
use shared_world::Given;
use std::alloc::{AllocError, Global};
use std::collections::BTreeMap;
use turns_ahead::TurnAhead;
use unit_table::Mark;
use value_core::name_map::put;
use value_core::{Name, Places};
use world_steps::Kept;

/// An idle actor takes the first message of its mail, which is not settled. Its turn on that runs ahead of the history, and can go
/// on; the actor rests. What no run can meet, as an actor that has a turn, is taken for want of memory. Then nothing changes but room.
pub fn take_ahead(kept: &mut Kept, alloc: Global, name: &Name) -> Result<Given, AllocError>
    ensures { AheadComes (shared_of kept.old) name.now (shared_of kept.new) result }
{
    match due_of(kept, name)? {
        Due::Ahead => take_due(kept, alloc, name),
        Due::Settled => Err(AllocError),
    }
}

/// The actor takes the first message of its mail, which is not settled.
fn take_due(kept: &mut Kept, alloc: Global, name: &Name) -> Result<Given, AllocError>
    requires due { IsDueAhead (shared_of kept.old) name.now }
    ensures { AheadComes (shared_of kept.old) name.now (shared_of kept.new) result }
{
    let turning = next_turn(kept, alloc, name)?;
    match note_ahead(kept, alloc, name, &turning.name) {
        Ok(()) => Ok(begin_ahead(kept, alloc, name, turning)),
        Err(error) => {
            turning_goes(turning);
            Err(error)
        }
    }
}

/// The turn is noted as one that runs ahead, and there is room for its unit and for the message that its actor takes. For want of
/// memory nothing changes but room.
fn note_ahead(kept: &mut Kept, alloc: Global, name: &Name, turn: &Name) -> Result<(), AllocError>
    ensures noted { OnOk result (HasNoted (shared_of kept.old) name.now turn.now kept.new) }
    ensures same { OnErr result (IsSameBut (shared_of kept.old) (shared_of kept.new)) }
{
    room_ahead(kept, alloc, name, turn)?;
    let take = take_entry(&kept.mails, alloc, name)?;
    let number = number_next(&mut kept.begun, alloc, turn)?;
    match put_ahead(&mut kept.aheads, alloc, take, turn, number) {
        Ok(()) => Ok(()),
        Err(error) => {
            number_goes(kept.begun.remove(&number));
            Err(error)
        }
    }
}

/// The turn is the last to have begun, and has a number in that order behind each other one.
fn number_next(
    begun: &mut BTreeMap<u64, Name>,
    alloc: Global,
    turn: &Name,
) -> Result<u64, AllocError> {
    let last = begun.last_key_value().map_or(0, |(last, _)| *last);
    let number = last.checked_add(1).ok_or(AllocError)?;
    match begun.insert(number, turn.copy(alloc)?) {
        Ok(_) => Ok(number),
        Err(_) => Err(AllocError),
    }
}

/// Drops a name that had a number.
fn number_goes(_name: Option<Name>) {}

/// The turn, which is begun by the entry, runs ahead. For want of memory all stays.
fn put_ahead(
    aheads: &mut BTreeMap<Name, TurnAhead>,
    alloc: Global,
    take: Entry,
    turn: &Name,
    number: u64,
) -> Result<(), AllocError>
    requires { IsTake take }
    ensures begun { OnOk result ((actor : Called) → IsTakeOf take actor → IsChanged turn.now (Some (begun_by actor)) (each_as ahead_of aheads.old.entries) (each_as ahead_of aheads.new.entries)) }
    ensures same { OnErr result (aheads.new.entries ≡ aheads.old.entries) }
{
    let ahead = TurnAhead::begin(alloc, take, turn.copy(alloc)?, number)?;
    put(aheads, turn.copy(alloc)?, ahead)
}

/// Room for the turn, under whose name nothing stands, and for the message that its actor takes.
fn room_ahead(kept: &mut Kept, alloc: Global, name: &Name, turn: &Name) -> Result<(), AllocError>
    ensures same { IsSameBut (shared_of kept.old) (shared_of kept.new) }
    ensures others { kept.new ≡ record kept.old { units = kept.new.units; taken = kept.new.taken } }
    ensures room { OnOk result (HasRoomFor name.now turn.now kept.new) }
{
    kept.reserve_new(alloc, turn)?;
    kept.taken.prepare(name.copy(alloc)?)
}

/// The entry that begins the actor's turn on the first message of its mail.
fn take_entry(mails: &Mails, alloc: Global, name: &Name) -> Result<Entry, AllocError>
    ensures { IfOk result (λ entry. IsTakeOf entry name.now) }
{
    match mails.front(name) {
        Some(message) => Ok(Entry::Take(name.copy(alloc)?, message.sender.copy(alloc)?)),
        None => Err(AllocError),
    }
}

/// The turn begins, which is noted. It takes no memory.
fn begin_ahead(kept: &mut Kept, alloc: Global, name: &Name, turning: Turning) -> Given
    requires actor { IsSome (actor_at kept.old.units name.now) }
    requires room { HasRoomFor name.now turning.name kept.old }
    ensures { HasBegunAhead (shared_of kept.old) name.now turning (shared_of kept.new) result }
{
    let Turning {
        name: turn,
        actor,
        machine,
        ..
    } = turning;
    kept.units.mark(name, Mark::Resting);
    add_turn(&mut kept.units, alloc, turn, actor, machine);
    take_message(&mut kept.mails, &mut kept.taken, name);
    Given::Held
}

/// The first message of the actor's mail is taken, where there is one.
fn take_message(mails: &mut Mails, taken: &mut Places<Message>, name: &Name)
    requires place { HasItemPlace name.now taken.old }
    ensures mailed { (m : Letter) (rest : List Letter) → mail_at (held mails.old) name.now ≡ m ∷ rest → IsMailed name.now rest (held mails.old) (held mails.new) }
    ensures taken { (m : Letter) (rest : List Letter) → mail_at (held mails.old) name.now ≡ m ∷ rest → IsChanged name.now (Some m) (filled taken.old) (filled taken.new) }
{
    if let Some(message) = mails.take(name) {
        taken.fill(name, message);
    }
}
