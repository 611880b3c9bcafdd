ghost use Rattle.std.specs.Prelude.{◌≡◌, ◌⊎◌, ◌<◌, IfSome, Some, false, true};
ghost use Rattle.std.specs.Option.{IsSome, option_map};
ghost use Rattle.record_pool.specs.Pool.{find};
ghost use Rattle.unit_table.specs.Board.{name_in, piece_at, HasPlace, NoneWaits, SameClaims};
ghost use Rattle.unit_table.specs.Keeping.{board_of, slot_at, waiting_count, IsKept, IsSettled, IsWokenOrSame, SameSlots};
ghost use Rattle.unit_table.specs.Piece.{woken};
ghost use Rattle.value_core.specs.Named.{named, Name as Called};

use crate::mark::{Mark, Work};
use crate::place::Place;
use crate::places::Places;
use crate::record::put_mark;
use piece_table::PieceTable;
use std::collections::BTreeMap;
use value_core::Name;

/// Who waits for the finish of the name, which has that slot, is ready to settle. It takes no memory.
pub(crate) fn wake_all(places: &mut Places, name: &Name, slot: usize)
    requires kept { IsKept (board_of places.old) places.old.waits }
    requires slot { slot_at (board_of places.old).records name.now ≡ Some slot }
    ensures kept { IsKept (board_of places.new) places.new.waits }
    ensures woken { (other : Called) → piece_at (board_of places.new) other ≡ option_map (woken name.now) (piece_at (board_of places.old) other) }
    ensures claims { SameClaims (board_of places.old) (board_of places.new) }
    ensures places { (other : Called) → HasPlace (board_of places.old) other → HasPlace (board_of places.new) other }
    ensures slots { SameSlots (board_of places.old) (board_of places.new) }
{
    while wake_one(places, name, slot) {}
}

/// One that waits for the finish of the name, which has that slot, is ready to settle. False where none waits.
fn wake_one(places: &mut Places, name: &Name, slot: usize) -> bool
    requires kept { IsKept (board_of places.old) places.old.waits }
    requires slot { slot_at (board_of places.old).records name.now ≡ Some slot }
    ensures kept { IsKept (board_of places.new) places.new.waits }
    ensures slot { slot_at (board_of places.new).records name.now ≡ Some slot }
    ensures woken { IsWokenOrSame name.now (board_of places.old) (board_of places.new) }
    ensures claims { SameClaims (board_of places.old) (board_of places.new) }
    ensures places { (other : Called) → HasPlace (board_of places.old) other → HasPlace (board_of places.new) other }
    ensures slots { SameSlots (board_of places.old) (board_of places.new) }
    ensures none { result ≡ false → NoneWaits name.now (board_of places.new) }
    ensures fewer { result ≡ false ⊎ (waiting_count places.new.waits < waiting_count places.old.waits) }
{
    match places.waits.wake(slot) {
        Some(waiting) => {
            settle_slot(
                &mut places.records,
                &mut places.table,
                &places.names,
                waiting,
            );
            places.table.claims_are_tied();
            true
        }
        None => false,
    }
}

/// What has that slot is ready to settle.
fn settle_slot(
    records: &mut BTreeMap<Name, Place>,
    table: &mut PieceTable,
    names: &Vec<Option<Name>>,
    slot: usize,
)
    requires named { IsSome (name_in names.now.items slot) }
    requires there { IfSome (name_in names.now.items slot) (λ name. IfSome (named name records.old.entries) (λ r. IsSome (find table.old.pieces r.ticket))) }
    ensures { IfSome (name_in names.now.items slot) (λ name. IsSettled name records.old.entries records.new.entries table.old table.new) }
{
    match names.get(slot) {
        Some(Some(name)) => settle(records, table, name),
        _ => unreachable!(),
    }
}

/// What stands under the name is ready to settle.
fn settle(records: &mut BTreeMap<Name, Place>, table: &mut PieceTable, name: &Name)
    requires { IfSome (named name.now records.old.entries) (λ r. IsSome (find table.old.pieces r.ticket)) }
    ensures { IsSettled name.now records.old.entries records.new.entries table.old table.new }
{
    if let Some(ticket) = put_mark(records, name, Mark::Ready(Work::Settle)) {
        table.mark(ticket, true);
    }
}
