// A message that a turn sent while it ran ahead is settled.
ghost use Rattle.std.specs.Prelude.{◌≡◌, List, false, true};
ghost use Rattle.ahead_settling.specs.First.{FirstComes, IsOpen};
ghost use Rattle.shared_world.specs.rows.Commits.{hangs_on};
ghost use Rattle.serial_model.specs.declared.request.Request.TheVariants as requests;
ghost use Rattle.value_core.specs.Named.{named};
ghost use Rattle.value_core.specs.Placed.{filled};
ghost use Rattle.value_core.specs.declared.value.Value.{Value};
ghost use Rattle.world_steps.specs.Kept.{shared_of};

use crate::leaving::{finish, prepare};
use actor_mailbox::Message;
use message_settling::{begun_turn, make_definite, settle_in, settle_now, was_taken};
use shared_world::Given;
use std::alloc::{AllocError, Global};
use value_core::{Name, Values};
use world_steps::{Kept, rouse_unless};

/// A message to an actor: the first one of the turn that waits for that is settled, and else it is the last of its mail.
pub(crate) fn settle_send(
    kept: &mut Kept,
    alloc: Global,
    name: &Name,
    to: &Name,
    args: Values,
) -> Result<Given, AllocError>
    requires opened { IsOpen (shared_of kept.old) name.now }
    ensures { FirstComes (shared_of kept.old) name.now (requests.Send to.now args) (shared_of kept.new) result }
{
    if was_taken(&kept.taken, to, name) {
        settle_taken(kept, alloc, name, to)
    } else {
        settle_mailed(kept, alloc, name, to, args)
    }
}

/// The message that the actor's turn took is settled, and that turn is definite. An actor that is nowhere is taken for want of
/// memory.
fn settle_taken(kept: &mut Kept, alloc: Global, name: &Name, to: &Name) -> Result<Given, AllocError>
    requires opened { IsOpen (shared_of kept.old) name.now }
    requires taken { hangs_on name.now (named to.now (filled kept.old.taken)) ≡ true }
    ensures { (args : List Value) → FirstComes (shared_of kept.old) name.now (requests.Send to.now args) (shared_of kept.new) result }
{
    let turn = begun_turn(&kept.units, alloc, to)?;
    let settling = prepare(kept, alloc, name)?;
    make_definite(&mut kept.taken, to);
    settle_now(&mut kept.units, &turn);
    Ok(finish(kept, name, settling))
}

/// The first message of the turn in the actor's mail is settled; where there is none, it is the last of the mail.
fn settle_mailed(
    kept: &mut Kept,
    alloc: Global,
    name: &Name,
    to: &Name,
    args: Values,
) -> Result<Given, AllocError>
    requires opened { IsOpen (shared_of kept.old) name.now }
    requires taken { hangs_on name.now (named to.now (filled kept.old.taken)) ≡ false }
    ensures { FirstComes (shared_of kept.old) name.now (requests.Send to.now args) (shared_of kept.new) result }
{
    let sender = name.copy(alloc)?;
    kept.mails.reserve(alloc, to, 1)?;
    let settling = prepare(kept, alloc, name)?;
    settle_in(
        &mut kept.mails,
        to,
        name,
        Message {
            sender,
            args,
            depends: None,
        },
    );
    rouse_unless(&mut kept.units, kept.taken.get(to).is_some(), to);
    Ok(finish(kept, name, settling))
}
