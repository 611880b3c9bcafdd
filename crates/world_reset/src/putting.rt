// All pieces are put back. It takes no memory.
ghost use Rattle.std.specs.Prelude.{◌≡◌, ◌<◌};
ghost use Rattle.std.specs.Option.{option_map, IsSome};
ghost use Rattle.actor_mails.specs.Mails.{held, mail_at, room_at, IsMailed, KeepsRoomBut};
ghost use Rattle.shared_world.specs.rows.Resetting.{mail_back, PieceBack};
ghost use Rattle.unit_table.specs.Board.{actor_at, piece_at, unit_at, IsPutAt};
ghost use Rattle.value_core.specs.Named.{named, Name as Called};
ghost use Rattle.value_core.specs.Placed.{filled};
ghost use Rattle.world_reset.specs.Back.{freed, put_back, standing, CanBe};
ghost use Rattle.world_reset.specs.Plan.{ArePlanned};
ghost use Rattle.world_reset.specs.Putting.{back_with, is_there, AreSettled, HasPutBack, NoneMoreOut};
ghost use Rattle.world_steps.specs.Kept.{shared_of};

use crate::back::Back;
use crate::left::Left;
use actor_mailbox::Message;
use actor_mails::Mails;
use std::collections::BTreeMap;
use unit_table::{Mark, Units, Work};
use value_core::{Name, Places};
use world_steps::{Kept, rouse};

/// Every piece becomes what is planned, and what an actor took is the first of its mail again, where it is settled. There is room for that,
/// and what waits is settled.
pub(crate) fn put_all(kept: &mut Kept, mut plan: BTreeMap<Name, Back>)
    requires planned { ArePlanned (shared_of kept.old) kept.old.mails plan.entries }
    requires settled { AreSettled (held kept.old.mails) }
    ensures pieces { (u : Called) → PieceBack (shared_of kept.old) u (piece_at kept.old.units u) (piece_at kept.new.units u) }
    ensures mails { (a : Called) → mail_at (held kept.new.mails) a ≡ mail_back (shared_of kept.old) a }
    ensures claims { NoneMoreOut kept.old.units kept.new.units }
    ensures others { kept.new ≡ record kept.old { units = kept.new.units; mails = kept.new.mails; taken = kept.new.taken } }
{
    while let Some(entry) = plan.pop_first() {
        let (name, back) = entry;
        put_one(kept, &name, back);
    }
}

/// What stands under the name becomes that.
fn put_one(kept: &mut Kept, name: &Name, back: Back)
    requires can_be { CanBe back (piece_at kept.old.units name.now) }
    requires room { IsSome (named name.now (filled kept.old.taken)) → 0 < room_at kept.old.mails name.now }
    ensures put { HasPutBack name.now back kept.old kept.new }
    ensures others { kept.new ≡ record kept.old { units = kept.new.units; mails = kept.new.mails; taken = kept.new.taken } }
{
    message_back(&mut kept.mails, &mut kept.taken, name);
    piece_back(&mut kept.units, &kept.mails, name, back);
}

/// The message that the actor took, where it took one, is the first of its mail again, where it is settled.
fn message_back(mails: &mut Mails, taken: &mut Places<Message>, name: &Name)
    requires room { IsSome (named name.now (filled taken.old)) → 0 < room_at mails.old name.now }
    ensures mail { IsMailed name.now (back_with (named name.now (filled taken.old)) (mail_at (held mails.old) name.now)) (held mails.old) (held mails.new) }
    ensures taken { (other : Called) → (other ≡ name.now → ⊥) → named other (filled taken.new) ≡ named other (filled taken.old) }
    ensures room { KeepsRoomBut name.now mails.old mails.new }
{
    if let Some(message) = taken.take(name) {
        first_again(mails, name, message);
    }
}

/// The message is the first of the actor's mail, where it is settled.
fn first_again(mails: &mut Mails, name: &Name, message: Message)
    requires room { 0 < room_at mails.old name.now }
    ensures mail { IsMailed name.now (is_there message (mail_at (held mails.old) name.now)) (held mails.old) (held mails.new) }
    ensures room { KeepsRoomBut name.now mails.old mails.new }
{
    if message.depends.is_none() {
        mails.put_first(name, message);
    }
}

/// The piece under the name becomes that.
fn piece_back(units: &mut Units, mails: &Mails, name: &Name, back: Back)
    requires can_be { CanBe back (piece_at units.old name.now) }
    ensures put { IsPutAt name.now (put_back back (mail_at (held mails.now) name.now) (piece_at units.old name.now)) units.old units.new }
    ensures claims { NoneMoreOut units.old units.new }
{
    match back {
        Back::Gone => units.mark(name, Mark::Dropped),
        Back::Left(left) => stand(units, name, left),
        Back::Anew => units.mark(name, Mark::Ready(Work::Settle)),
        Back::Stays => {}
        Back::Freed => free(units, mails, name),
    }
}

/// The unit stands there, and can go on.
fn stand(units: &mut Units, name: &Name, left: Left)
    requires there { IsSome (unit_at units.old name.now) }
    ensures put { IsPutAt name.now (option_map (standing left) (piece_at units.old name.now)) units.old units.new }
    ensures claims { NoneMoreOut units.old units.new }
{
    let Left {
        machine,
        made,
        becomes,
    } = left;
    units.move_unit(name, machine, made);
    units.turn_back(name, becomes);
    units.mark(name, Mark::Ready(Work::Eval));
}

/// The actor has no turn unless it is busy, and can begin one where it has mail and is not.
fn free(units: &mut Units, mails: &Mails, name: &Name)
    requires there { IsSome (actor_at units.old name.now) }
    ensures put { IsPutAt name.now (option_map (freed (mail_at (held mails.now) name.now)) (piece_at units.old name.now)) units.old units.new }
    ensures claims { NoneMoreOut units.old units.new }
{
    units.mark(name, Mark::Resting);
    if mails.front(name).is_some() {
        rouse(units, name);
    }
}
