// How what the effects of a commit do to actors is done.
ghost use Rattle.std.specs.Prelude.{◌≡◌, ◌<◌, IfOk, IfSome, None, OnOk, Some, is_some};
ghost use Rattle.std.specs.Option.{IsSome};
ghost use Rattle.actor_mails.specs.Mails.{held, mail_at, room_at};
ghost use Rattle.attempt_commits.specs.Deeds.{begun, turned_unit, AreCounted, AreDone, AreVacant, CanHold, CanHoldAll};
ghost use Rattle.attempt_commits.specs.Settling.{AreSettled, AreTurns, IsMailSettled, IsSettled, IsTakenSettled, IsTurnAdded};
ghost use Rattle.unit_table.specs.Board.{piece_at, unit_at, HasPlace, IsPutAt, SameClaims};
ghost use Rattle.unit_table.specs.declared.piece.Piece.TheVariants as pieces;
ghost use Rattle.value_core.specs.Named.{named, Name as Called};
ghost use Rattle.value_core.specs.Placed.{filled};
ghost use Rattle.world_steps.specs.Kept.{shared_of, IsSameBut};

use crate::deeds::{Deeds, Letter};
use actor_mailbox::Message;
use actor_mails::Mails;
use message_settling::{begun_turn, make_definite, settle_in, settle_now, was_taken};
use serial_model::ActorState;
use std::alloc::{AllocError, Global};
use std::collections::BTreeMap;
use unit_table::{Becoming, Units};
use value_core::name_map::{find, put};
use value_core::{Name, Places};
use world_steps::{Kept, add_actor, rouse_unless};

/// Of each of these receivers that took a message which depends on the root, the turn.
pub(crate) fn turns_of(
    kept: &Kept,
    alloc: Global,
    root: &Name,
    counts: &BTreeMap<Name, usize>,
) -> Result<BTreeMap<Name, Name>, AllocError>
    ensures { IfOk result (λ turns. AreTurns root.now counts.now.entries (filled kept.now.taken) kept.now.units turns.entries) }
{
    let mut turns = BTreeMap::new(alloc);
    for (to, _count) in counts {
        add_turn(&mut turns, kept, alloc, root, to)?;
    }
    Ok(turns)
}

/// Adds the turn of the receiver, where it took a message which depends on the root.
fn add_turn(
    turns: &mut BTreeMap<Name, Name>,
    kept: &Kept,
    alloc: Global,
    root: &Name,
    to: &Name,
) -> Result<(), AllocError>
    ensures { OnOk result (IsTurnAdded root.now to.now (filled kept.now.taken) kept.now.units turns.old.entries turns.new.entries) }
{
    if !was_taken(&kept.taken, to, root) {
        return Ok(());
    }
    let turn = begun_turn(&kept.units, alloc, to)?;
    put(turns, to.copy(alloc)?, turn)
}

/// Makes room for what is to be done. Where something stands under the name of an actor that begins, of which no run knows, it
/// is taken for want of memory.
pub(crate) fn room_for_deeds(
    kept: &mut Kept,
    alloc: Global,
    deeds: &Deeds,
) -> Result<(), AllocError>
    ensures same { IsSameBut (shared_of kept.old) (shared_of kept.new) }
    ensures others { kept.new ≡ record kept.old { units = kept.new.units; mails = kept.new.mails } }
    ensures letters { OnOk result (CanHold deeds.now.counts.entries kept.new.mails) }
    ensures actors { OnOk result (AreVacant deeds.now.actors.entries kept.new.units) }
{
    room_for_letters(&mut kept.mails, alloc, &deeds.counts)?;
    room_for_actors(kept, alloc, &deeds.actors)
}

/// Makes room for so many messages to each receiver.
fn room_for_letters(
    mails: &mut Mails,
    alloc: Global,
    counts: &BTreeMap<Name, usize>,
) -> Result<(), AllocError>
    ensures mail { held mails.new ≡ held mails.old }
    ensures room { OnOk result (CanHold counts.now.entries mails.new) }
{
    for (to, count) in counts {
        mails.reserve(alloc, to, *count)?;
    }
    Ok(())
}

/// Makes room for the actors, where nothing stands.
fn room_for_actors(
    kept: &mut Kept,
    alloc: Global,
    actors: &BTreeMap<Name, ActorState>,
) -> Result<(), AllocError>
    ensures same { IsSameBut (shared_of kept.old) (shared_of kept.new) }
    ensures others { kept.new ≡ record kept.old { units = kept.new.units } }
    ensures vacant { OnOk result (AreVacant actors.now.entries kept.new.units) }
{
    for (name, _actor) in actors {
        kept.reserve_new(alloc, name)?;
    }
    Ok(())
}

/// Does what is to be done to actors, for which there is room. The messages depended on that root as long as they were put, and these
/// are the turns of those actors that took one. It takes no memory.
pub(crate) fn do_deeds(
    kept: &mut Kept,
    alloc: Global,
    owner: &Name,
    root: &Name,
    turns: &BTreeMap<Name, Name>,
    deeds: Deeds,
)
    requires there { IsSome (unit_at kept.old.units owner.now) }
    requires counts { AreCounted deeds }
    requires letters { CanHold deeds.counts.entries kept.old.mails }
    requires actors { AreVacant deeds.actors.entries kept.old.units }
    ensures done { AreDone owner.now root.now turns.now.entries deeds (filled kept.old.taken) (filled kept.new.taken) (held kept.old.mails) (held kept.new.mails) kept.old.units kept.new.units }
    ensures others { kept.new ≡ record kept.old { units = kept.new.units; mails = kept.new.mails; taken = kept.new.taken } }
{
    let Deeds {
        letters,
        actors,
        becomes,
        ..
    } = deeds;
    turn_into(&mut kept.units, owner, becomes);
    settle_letters(
        &mut kept.mails,
        &mut kept.units,
        &mut kept.taken,
        root,
        turns,
        letters,
    );
    add_actors(&mut kept.units, alloc, &kept.mails, actors);
}

/// The actor of the unit becomes that at the unit's end, where it is said. It takes no memory.
fn turn_into(units: &mut Units, name: &Name, becomes: Option<Becoming>)
    requires { IsSome (unit_at units.old name.now) }
    ensures turned { IfSome (unit_at units.old name.now) (λ x. IsPutAt name.now (Some (pieces.Unit (turned_unit becomes x))) units.old units.new) }
    ensures claims { SameClaims units.old units.new }
    ensures places { (other : Called) → HasPlace units.old other → HasPlace units.new other }
{
    if let Some(next) = becomes {
        units.turn_into(name, next);
    }
}

/// Settles the messages, in order, for which there is room. It takes no memory.
fn settle_letters(
    mails: &mut Mails,
    units: &mut Units,
    taken: &mut Places<Message>,
    root: &Name,
    turns: &BTreeMap<Name, Name>,
    letters: Vec<Letter>,
)
    requires room { CanHoldAll letters.items mails.old }
    ensures settled { AreSettled root.now turns.now.entries letters.items (filled taken.old) (filled taken.new) (held mails.old) (held mails.new) units.old units.new }
    ensures claims { SameClaims units.old units.new }
    ensures places { (other : Called) → HasPlace units.old other → HasPlace units.new other }
{
    for letter in letters {
        settle_letter(mails, units, taken, root, turns, letter);
    }
}

/// Settles the message, for which there is room: where its receiver took one that depends on the root, that is it. It takes no memory.
fn settle_letter(
    mails: &mut Mails,
    units: &mut Units,
    taken: &mut Places<Message>,
    root: &Name,
    turns: &BTreeMap<Name, Name>,
    letter: Letter,
)
    requires room { 0 < room_at mails.old letter.to }
    ensures settled { IsSettled root.now turns.now.entries letter (filled taken.old) (filled taken.new) mails.old mails.new units.old units.new }
    ensures claims { SameClaims units.old units.new }
    ensures places { (other : Called) → HasPlace units.old other → HasPlace units.new other }
{
    if was_taken(taken, &letter.to, root) {
        settle_taken(units, taken, turns, letter);
    } else {
        settle_mailed(mails, units, taken, root, letter);
    }
}

/// The message that the receiver took is settled, and its turn is definite. It takes no memory.
fn settle_taken(
    units: &mut Units,
    taken: &mut Places<Message>,
    turns: &BTreeMap<Name, Name>,
    letter: Letter,
)
    ensures settled { IsTakenSettled turns.now.entries letter.to (filled taken.old) (filled taken.new) units.old units.new }
    ensures claims { SameClaims units.old units.new }
    ensures places { (other : Called) → HasPlace units.old other → HasPlace units.new other }
{
    let Letter { to, .. } = letter;
    make_definite(taken, &to);
    if let Some(turn) = find(turns, &to) {
        settle_now(units, turn);
    }
}

/// The first message in the receiver's mail that depends on the root is settled. Where there is none, the letter's is the last, for
/// which there is room; and where its receiver is an idle actor that rests, and no message of it is taken, it can begin a turn. It
/// takes no memory.
fn settle_mailed(
    mails: &mut Mails,
    units: &mut Units,
    taken: &Places<Message>,
    root: &Name,
    letter: Letter,
)
    requires room { 0 < room_at mails.old letter.to }
    ensures settled { IsMailSettled root.now letter (is_some (named letter.to (filled taken.now))) mails.old mails.new units.old units.new }
    ensures claims { SameClaims units.old units.new }
    ensures places { (other : Called) → HasPlace units.old other → HasPlace units.new other }
{
    let Letter { to, message } = letter;
    if settle_in(mails, &to, root, message) {
        rouse_unless(units, taken.get(&to).is_some(), &to);
    }
}

/// Adds the actors, for which there are places. It takes no memory.
fn add_actors(
    units: &mut Units,
    alloc: Global,
    mails: &Mails,
    mut actors: BTreeMap<Name, ActorState>,
)
    requires vacant { AreVacant actors.entries units.old }
    ensures pieces { (a : Called) → piece_at units.new a ≡ begun (named a actors.entries) (mail_at (held mails.now) a) (piece_at units.old a) }
    ensures claims { SameClaims units.old units.new }
{
    while let Some(entry) = actors.pop_first() {
        let (name, actor) = entry;
        add_actor(units, alloc, mails, &name, actor);
    }
}
