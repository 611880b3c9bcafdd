// The turns that hang on what is gone.
ghost use Rattle.std.specs.Prelude.{◌≡◌, IfSome, IsNone};
ghost use Rattle.attempt_undoing.specs.Turns.{hangs_by, still_hangs, IsHanging, NoneHangs, StandingLeft};
ghost use Rattle.turns_ahead.specs.Leading.{ahead_of};
ghost use Rattle.value_core.specs.Named.{each_as};
ghost use Rattle.value_core.specs.Placed.{filled};

use actor_mailbox::Message;
use std::collections::{BTreeMap, Bound};
use turns_ahead::TurnAhead;
use unit_table::Units;
use value_core::name_map::find;
use value_core::{Name, Places};

/// A turn that hangs on what is gone, and is not gone itself: its begin is held, and the message that its actor took for it is
/// gone. None exactly where there is no such turn. It is sought first among those that began after the one that went last: a turn took
/// what was sent before, so all that hangs is found by one walk in the order of begins. It takes no memory.
pub(crate) fn next_hanging<'a>(
    aheads: &'a BTreeMap<Name, TurnAhead>,
    begun: &'a BTreeMap<u64, Name>,
    last: u64,
    taken: &Places<Message>,
    units: &Units,
) -> Option<(&'a Name, &'a TurnAhead)>
    ensures some { IfSome result (λ found. IsHanging (each_as ahead_of aheads.now.entries) (filled taken.now) units.now found.0.now (ahead_of found.1.now)) }
    ensures none { IsNone result → NoneHangs (each_as ahead_of aheads.now.entries) (filled taken.now) units.now }
{
    if let Some(found) = hanging_after(aheads, begun, last, taken, units) {
        return Some(found);
    }
    for (name, turn) in aheads.iter() {
        if still_hangs(name, turn, taken, units) {
            return Some((name, turn));
        }
    }
    None
}

/// The first that hangs of those that began after the turn with that number. There may be others, where none comes.
fn hanging_after<'a>(
    aheads: &'a BTreeMap<Name, TurnAhead>,
    begun: &'a BTreeMap<u64, Name>,
    last: u64,
    taken: &Places<Message>,
    units: &Units,
) -> Option<(&'a Name, &'a TurnAhead)>
    ensures { IfSome result (λ found. IsHanging (each_as ahead_of aheads.now.entries) (filled taken.now) units.now found.0.now (ahead_of found.1.now)) }
{
    for (_, next) in begun.range((Bound::Excluded(last), Bound::Unbounded)) {
        if let Some(turn) = find(aheads, next) {
            if still_hangs(next, turn, taken, units) {
                return Some((next, turn));
            }
        }
    }
    None
}

/// Whether the turn hangs on what is gone, and its unit is there.
fn still_hangs(name: &Name, turn: &TurnAhead, taken: &Places<Message>, units: &Units) -> bool
    ensures { result ≡ still_hangs (filled taken.now) units.now name.now (ahead_of turn.now) }
{
    hangs(turn, taken) && units.unit(name).is_some()
}

/// Whether the begin of the turn is held, and the message that its actor took for it is gone.
fn hangs(turn: &TurnAhead, taken: &Places<Message>) -> bool
    ensures { result ≡ hangs_by (filled taken.now) (ahead_of turn.now).takes }
{
    match turn.takes() {
        Some(actor) => taken.get(actor).is_none(),
        None => false,
    }
}

/// The turns whose unit is there still. It takes no memory.
pub(crate) fn standing(
    mut aheads: BTreeMap<Name, TurnAhead>,
    units: &Units,
) -> BTreeMap<Name, TurnAhead>
    ensures { StandingLeft units.now (each_as ahead_of aheads.entries) (each_as ahead_of result.entries) }
{
    aheads.retain(|name, _| units.unit(name).is_some());
    aheads
}

/// The numbers of the turns that run ahead still. It takes no memory.
pub(crate) fn numbered(
    mut begun: BTreeMap<u64, Name>,
    aheads: &BTreeMap<Name, TurnAhead>,
) -> BTreeMap<u64, Name> {
    begun.retain(|_, name| find(aheads, name).is_some());
    begun
}
