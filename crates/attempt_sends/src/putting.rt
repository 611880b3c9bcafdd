// Sends that are put at once, or kept.
ghost use Rattle.std.specs.Prelude.{◌≡◌, ◌↔◌, ◌<◌, ◌+◌, ◌≤◌, IfOk, IsTrue, OnErr, OnOk, length};
ghost use Rattle.std.specs.Option.{IsSome};
ghost use Rattle.actor_mails.specs.Mails.{held, room_at, KeepsRoom, KeepsRoomBut};
ghost use Rattle.attempt_sends.specs.Putting.{ArePosted, AreSince, CanPut, HasRoom, HaveRoom, PutAll, PutsOrKeeps};
ghost use Rattle.shared_world.specs.rows.Leading.{line_at};
ghost use Rattle.unit_table.specs.Board.{actor_at, HasPlace, SameClaims};
ghost use Rattle.value_core.specs.Named.{Name as Called};
ghost use Rattle.world_model.specs.Message.{unsettled};
ghost use Rattle.world_steps.specs.Kept.{shared_of};

use crate::letters::{Letter, letters_since};
use actor_mails::Mails;
use std::alloc::{AllocError, Global};
use unit_table::Units;
use value_core::Name;
use value_core::name_map::find;
use world_steps::{Kept, count_taken, rouse_unless};

/// What the root of the unit's attempt has sent since it had done so much is put into the mail of its receivers, one after another; or it is
/// kept, where its receiver is not there or an earlier send to that is kept. A receiver that can begin a turn is roused. A unit without an
/// attempt is taken for want of memory. For want of memory nothing changes but room.
pub fn post_sends(
    kept: &mut Kept,
    alloc: Global,
    unit: &Name,
    before: usize,
) -> Result<(), AllocError>
    ensures posted { OnOk result (ArePosted (shared_of kept.old) unit.now before (shared_of kept.new)) }
    ensures same { OnErr result (shared_of kept.new ≡ shared_of kept.old) }
    ensures others { kept.new ≡ record kept.old { units = kept.new.units; mails = kept.new.mails } }
    ensures claims { SameClaims kept.old.units kept.new.units }
    ensures places { (other : Called) → HasPlace kept.old.units other → HasPlace kept.new.units other }
{
    let letters = since(kept, alloc, unit, before)?;
    make_room(&mut kept.mails, alloc, &kept.units, &letters)?;
    put_sends(kept, letters);
    Ok(())
}

/// What the root of the unit's attempt has sent since it had done so much.
fn since(kept: &Kept, alloc: Global, unit: &Name, before: usize) -> Result<Vec<Letter>, AllocError>
    ensures { IfOk result (λ letters. AreSince (shared_of kept.now) unit.now before letters.items) }
{
    match find(&kept.attempts, unit) {
        Some(tree) => {
            let turn = find(&kept.aheads, unit);
            letters_since(alloc, unit, tree.root_name(), turn, tree.root(), before)
        }
        None => Err(AllocError),
    }
}

/// Makes room for the messages in the mail of each receiver that is there.
fn make_room(
    mails: &mut Mails,
    alloc: Global,
    units: &Units,
    letters: &[Letter],
) -> Result<(), AllocError>
    ensures mail { held mails.new ≡ held mails.old }
    ensures room { OnOk result (HaveRoom (length letters.now) letters.now units.now mails.new) }
{
    for letter in letters {
        reserve_for(mails, alloc, units, &letter.to, letters.len())?;
    }
    Ok(())
}

/// Makes room for so many messages to the actor, where it is there.
fn reserve_for(
    mails: &mut Mails,
    alloc: Global,
    units: &Units,
    to: &Name,
    count: usize,
) -> Result<(), AllocError>
    ensures mail { held mails.new ≡ held mails.old }
    ensures room { OnOk result (IsSome (actor_at units.now to.now) → count ≤ room_at mails.new to.now) }
    ensures kept { KeepsRoom mails.old mails.new }
{
    if units.actor(to).is_some() {
        mails.reserve(alloc, to, count)?;
    }
    Ok(())
}

/// The messages are put or kept, one after another. It takes no memory.
fn put_sends(kept: &mut Kept, letters: Vec<Letter>)
    requires room { HaveRoom (length letters.items) letters.items kept.old.units kept.old.mails }
    ensures put { PutAll (shared_of kept.old) letters.items (shared_of kept.new) }
    ensures others { kept.new ≡ record kept.old { units = kept.new.units; mails = kept.new.mails } }
    ensures claims { SameClaims kept.old.units kept.new.units }
    ensures places { (other : Called) → HasPlace kept.old.units other → HasPlace kept.new.units other }
{
    for letter in letters {
        put_or_keep(kept, letter);
    }
}

/// The message is put, where its receiver is there and each earlier send to that is put; else it is kept. A receiver that can begin a turn is
/// roused. It takes no memory.
fn put_or_keep(kept: &mut Kept, letter: Letter)
    requires room { IsSome (actor_at kept.old.units letter.to) → 0 < room_at kept.old.mails letter.to }
    ensures put { PutsOrKeeps (shared_of kept.old) letter (shared_of kept.new) }
    ensures others { kept.new ≡ record kept.old { units = kept.new.units; mails = kept.new.mails } }
    ensures actors { (a : Called) → actor_at kept.new.units a ≡ actor_at kept.old.units a }
    ensures less { room_at kept.old.mails letter.to ≤ room_at kept.new.mails letter.to + 1 }
    ensures kept { KeepsRoomBut letter.to kept.old.mails kept.new.mails }
    ensures claims { SameClaims kept.old.units kept.new.units }
    ensures places { (other : Called) → HasPlace kept.old.units other → HasPlace kept.new.units other }
{
    if can_put(kept, &letter) {
        let Letter { to, message, .. } = letter;
        kept.mails.put(&to, message);
        rouse_unless(&mut kept.units, kept.taken.get(&to).is_some(), &to);
    }
}

/// Whether the receiver of the message is there, and each earlier send to it is put.
fn can_put(kept: &Kept, letter: &Letter) -> bool
    ensures { IsTrue result ↔ CanPut (shared_of kept.now) letter.now }
{
    match kept.units.actor(&letter.to) {
        Some(_) => all_put(kept, letter),
        None => false,
    }
}

/// Whether each earlier send to the receiver of the message is put.
fn all_put(kept: &Kept, letter: &Letter) -> bool
    ensures { IsTrue result ↔ (letter.now.earlier ≤ length (unsettled letter.now.message.sender (line_at (shared_of kept.now) letter.now.to))) }
{
    let taken = count_taken(kept.taken.get(&letter.to), &letter.message.sender);
    let mailed = kept.mails.unsettled_of(&letter.to, &letter.message.sender);
    letter.earlier.saturating_sub(taken) <= mailed
}
