// Turns whose begin is held, and the messages that they took.
ghost use Rattle.std.specs.Prelude.{◌≡◌, IfOk, Some};
ghost use Rattle.actor_mailbox.specs.declared.message.Message.{Message as Mailed};
ghost use Rattle.actor_mailbox.specs.Messages.{definite};
ghost use Rattle.message_settling.specs.Settling.{changes, changes_mark, IsBegunTurn, MarksSettled};
ghost use Rattle.shared_world.specs.rows.Commits.{hangs_on};
ghost use Rattle.shared_world.specs.rows.Leading.{IsChanged};
ghost use Rattle.unit_table.specs.Board.{is_ready, unit_at, HasPlace, SameClaims};
ghost use Rattle.value_core.specs.Named.{named, Name as Called};
ghost use Rattle.value_core.specs.Placed.{filled};

use actor_mailbox::Message;
use std::alloc::{AllocError, Global};
use unit_table::{Mark, Units, Work};
use value_core::{Name, Places};

/// Whether the message that the actor's turn took, whose begin is held, depends on that name.
pub fn was_taken(taken: &Places<Message>, to: &Name, on: &Name) -> bool
    ensures { result ≡ hangs_on on.now (named to.now (filled taken.now)) }
{
    match taken.get(to) {
        Some(message) => depends_on(message, on),
        None => false,
    }
}

/// Whether the message depends on that name.
fn depends_on(message: &Message, on: &Name) -> bool
    ensures { result ≡ hangs_on on.now (Some message.now) }
{
    match &message.depends {
        Some(other) => on == other,
        None => false,
    }
}

/// The turn of the actor whose begin is held.
pub fn begun_turn(units: &Units, alloc: Global, to: &Name) -> Result<Name, AllocError>
    ensures { IfOk result (IsBegunTurn units.now to.now) }
{
    match units.actor(to) {
        Some(actor) => to.child(alloc, actor.turns),
        None => Err(AllocError),
    }
}

/// The message that the actor's turn took, where it did, is definite. It takes no memory.
pub fn make_definite(taken: &mut Places<Message>, to: &Name)
    ensures { (message : Mailed) → named to.now (filled taken.old) ≡ Some message → IsChanged to.now (Some (definite message)) (filled taken.old) (filled taken.new) }
{
    if let Some(mut message) = taken.take(to) {
        message.depends = None;
        taken.fill(to, message);
    }
}

/// A turn that has become definite is ready to settle, unless a claim on it is out and it is ready for what that is for. It takes
/// no memory.
pub fn settle_now(units: &mut Units, turn: &Name)
    ensures settles { MarksSettled turn.now units.old units.new }
    ensures claims { SameClaims units.old units.new }
    ensures places { (other : Called) → HasPlace units.old other → HasPlace units.new other }
{
    if must_settle(units, turn) {
        units.claims_are_tied();
        units.lent_are_ready();
        units.mark(turn, Mark::Ready(Work::Settle));
    }
}

/// Whether a turn stands there that waits, or can go on and is not lent.
fn must_settle(units: &Units, turn: &Name) -> bool
    ensures { result ≡ changes (is_ready units.now turn.now) (unit_at units.now turn.now) }
{
    match units.unit(turn) {
        Some(unit) => marks_settled(&unit.mark, units.is_ready(turn)),
        None => false,
    }
}

/// Whether a turn of that mark has another one once it is definite, where it is free or not.
fn marks_settled(mark: &Mark, free: bool) -> bool
    ensures { result ≡ changes_mark free mark.now }
{
    match mark {
        Mark::Waiting(_) => true,
        Mark::Ready(Work::Eval) => free,
        Mark::Ready(Work::Settle) => false,
        Mark::Ready(Work::Begin) => false,
        Mark::Resting | Mark::Finished(_) | Mark::Dropped => false,
    }
}
