// A turn that runs ahead and sends something.
ghost use Rattle.std.specs.Prelude.{◌≡◌, ◌↔◌, [], IfOk, IsTrue, Some};
ghost use Rattle.ahead_steps.specs.Leads.{SendsOr};
ghost use Rattle.ahead_steps.specs.Sending.{CanPut};
ghost use Rattle.eval_step.specs.Evaluation.{IsAsking};
ghost use Rattle.shared_world.specs.Ahead.{Ahead as Leading};
ghost use Rattle.shared_world.specs.rows.Leading.{kept_of_turn};
ghost use Rattle.shared_world.specs.Stands.{Stands};
ghost use Rattle.turns_ahead.specs.Leading.{ahead_of};
ghost use Rattle.value_core.specs.Named.{named};
ghost use Rattle.world_model.specs.Message.{tentative};
ghost use Rattle.world_steps.specs.Kept.{shared_of, IsUnitOf};

use crate::holding::{go_on, hold, prepare};
use actor_mailbox::Message;
use eval_step::Machine;
use serial_model::Request;
use shared_world::Given;
use std::alloc::{AllocError, Global};
use turns_ahead::TurnAhead;
use value_core::name_map::find;
use value_core::{Name, Values};
use world_steps::{Kept, count_taken, rouse_unless};

/// The turn holds the send as its last, and goes on. The message is put at once where its receiver is there and each earlier send of the
/// turn to it is put.
pub(crate) fn send_ahead(
    kept: &mut Kept,
    alloc: Global,
    name: &Name,
    moved: Machine,
    to: Name,
    args: Values,
) -> Result<Given, AllocError>
    requires stands { Stands (shared_of kept.old) }
    requires unit { IsUnitOf (shared_of kept.old) name.now moved }
    requires asks { IsAsking moved }
    ensures { SendsOr (shared_of kept.old) name.now to args (shared_of kept.new) result }
{
    if puts_next(kept, name, &to)? {
        put_ahead(kept, alloc, name, moved, to, args)
    } else {
        hold(kept, alloc, name, moved, Request::Send(to, args))
    }
}

/// Whether the next send of the turn to that actor is put at once. A turn that does not run ahead, of which no run knows, is taken for
/// want of memory.
fn puts_next(kept: &Kept, name: &Name, to: &Name) -> Result<bool, AllocError>
    ensures { IfOk result (λ puts. (h : Leading) → named name.now (shared_of kept.now).aheads ≡ Some h → IsTrue puts ↔ CanPut (shared_of kept.now) name.now h to.now) }
{
    match find(&kept.aheads, name) {
        Some(turn) => Ok(can_put(kept, name, turn, to)),
        None => Err(AllocError),
    }
}

/// Whether the actor is there, and each send that the turn holds to it is put.
fn can_put(kept: &Kept, name: &Name, turn: &TurnAhead, to: &Name) -> bool
    ensures { IsTrue result ↔ CanPut (shared_of kept.now) name.now (ahead_of turn.now) to.now }
{
    match kept.units.actor(to) {
        Some(_) => all_put(kept, name, turn, to),
        None => false,
    }
}

/// Whether each send that the turn holds to that actor is put.
fn all_put(kept: &Kept, name: &Name, turn: &TurnAhead, to: &Name) -> bool
    ensures { IsTrue result ↔ (kept_of_turn (shared_of kept.now) name.now (ahead_of turn.now) to.now ≡ []) }
{
    let taken = count_taken(kept.taken.get(to), name);
    let mailed = kept.mails.unsettled_of(to, name);
    turn.count_sends(to).saturating_sub(taken) <= mailed
}

/// The turn holds the send as its last, its message is put, and it goes on. A receiver that can begin a turn is roused.
fn put_ahead(
    kept: &mut Kept,
    alloc: Global,
    name: &Name,
    moved: Machine,
    to: Name,
    args: Values,
) -> Result<Given, AllocError>
    requires stands { Stands (shared_of kept.old) }
    requires unit { IsUnitOf (shared_of kept.old) name.now moved }
    requires asks { IsAsking moved }
    requires puts { (h : Leading) → named name.now (shared_of kept.old).aheads ≡ Some h → CanPut (shared_of kept.old) name.now h to }
    ensures { SendsOr (shared_of kept.old) name.now to args (shared_of kept.new) result }
{
    let receiver = to.copy(alloc)?;
    let message = message_ahead(alloc, name, &args)?;
    kept.mails.reserve(alloc, &receiver, 1)?;
    let going = prepare(kept, alloc, name, moved, Request::Send(to, args))?;
    kept.mails.put(&receiver, message);
    rouse_unless(
        &mut kept.units,
        kept.taken.get(&receiver).is_some(),
        &receiver,
    );
    go_on(&mut kept.units, name, going);
    Ok(Given::Held)
}

/// A message of the turn with those arguments, which depends on it.
fn message_ahead(alloc: Global, name: &Name, args: &Values) -> Result<Message, AllocError>
    ensures { IfOk result (λ message. message ≡ tentative name.now name.now args.now) }
{
    let sender = name.copy(alloc)?;
    let depends = Some(name.copy(alloc)?);
    let args = args.copy()?;
    Ok(Message {
        sender,
        args,
        depends,
    })
}
