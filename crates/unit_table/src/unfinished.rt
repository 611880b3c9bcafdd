ghost use Rattle.std.specs.Prelude.{◌≡◌, ◌<◌, None, Some, IfNone, IfOk, IfSome, IsOk, false, length, true};
ghost use Rattle.std.specs.Option.{option_copied};
ghost use Rattle.unit_table.specs.Board.{is_unfinished, HasPlace, SameClaims, SamePieces};
ghost use Rattle.unit_table.specs.Keeping.{board_of, slot_at, ticket_at, AreUnfinished, IsKept, IsUnfinishedNoted};
ghost use Rattle.unit_table.specs.Piece.{goes_on};
ghost use Rattle.value_core.specs.NameSet.{holds_at};
ghost use Rattle.value_core.specs.Named.{named, Name as Called};

use crate::piece::Piece;
use crate::places::Places;
use crate::record::Record;
use slot_set::SlotSet;
use std::alloc::{AllocError, Global};
use value_core::name_map::find;
use value_core::{Name, Ticket};

/// The ticket of the place under the name, which is made where there is none, and for which the set has room; or finds no
/// memory, and nothing stands otherwise.
pub(crate) fn place(
    places: &mut Places,
    unfinished: &mut SlotSet,
    alloc: Global,
    name: &Name,
) -> Result<Ticket, AllocError>
    requires kept { IsKept (board_of places.old) places.old.waits }
    requires set { AreUnfinished (board_of places.old) unfinished.old }
    ensures kept { IsKept (board_of places.new) places.new.waits }
    ensures set { AreUnfinished (board_of places.new) unfinished.new }
    ensures ticket { IfOk result (λ ticket. ticket_at (board_of places.new).records name.now ≡ Some ticket) }
    ensures pieces { SamePieces (board_of places.old) (board_of places.new) }
    ensures claims { SameClaims (board_of places.old) (board_of places.new) }
    ensures succeeds { HasPlace (board_of places.old) name.now → IsOk result }
    ensures places { (other : Called) → HasPlace (board_of places.old) other → HasPlace (board_of places.new) other }
{
    match places.ticket_of(name) {
        Some(ticket) => Ok(ticket),
        None => make(places, unfinished, alloc, name),
    }
}

/// Makes a place under the name, where there is none, and room for its slot.
fn make(
    places: &mut Places,
    unfinished: &mut SlotSet,
    alloc: Global,
    name: &Name,
) -> Result<Ticket, AllocError>
    requires kept { IsKept (board_of places.old) places.old.waits }
    requires set { AreUnfinished (board_of places.old) unfinished.old }
    requires new { named name.now (board_of places.old).records ≡ None }
    ensures kept { IsKept (board_of places.new) places.new.waits }
    ensures set { AreUnfinished (board_of places.new) unfinished.new }
    ensures ticket { IfOk result (λ ticket. ticket_at (board_of places.new).records name.now ≡ Some ticket) }
    ensures pieces { SamePieces (board_of places.old) (board_of places.new) }
    ensures claims { SameClaims (board_of places.old) (board_of places.new) }
    ensures places { (other : Called) → HasPlace (board_of places.old) other → HasPlace (board_of places.new) other }
{
    unfinished.reserve(places.table.slots() + 1)?;
    places.make(alloc, name)
}

/// Notes whether a unit that is not finished stands under the name.
pub(crate) fn note(places: &Places, unfinished: &mut SlotSet, name: &Name)
    requires { IfSome (slot_at (board_of places.now).records name.now) (λ slot. slot < length unfinished.old) }
    ensures { IsUnfinishedNoted (board_of places.now) name.now unfinished.old unfinished.new }
{
    match find(&places.records, name) {
        Some(place) if goes_on(place.kept()) => unfinished.insert(place.kept().ticket.slot),
        Some(place) => unfinished.remove(place.kept().ticket.slot),
        None => {}
    }
}

/// Whether a unit that is not finished stands in the place.
fn goes_on(place: &Record) -> bool
    ensures { result ≡ holds_at goes_on place.now.piece }
{
    match &place.piece {
        Some(Piece::Unit(unit)) => !unit.mark.is_finished(),
        _ => false,
    }
}

/// The name of a unit that is not finished.
pub(crate) fn first<'a>(places: &'a Places, unfinished: &SlotSet) -> Option<&'a Name>
    requires kept { IsKept (board_of places.now) places.now.waits }
    requires set { AreUnfinished (board_of places.now) unfinished.now }
    ensures some { IfSome (option_copied result) (λ name. is_unfinished (board_of places.now) name ≡ true) }
    ensures none { IfNone (option_copied result) ((name : Called) → is_unfinished (board_of places.now) name ≡ false) }
{
    match unfinished.first() {
        Some(slot) => places.name_in(slot),
        None => None,
    }
}
