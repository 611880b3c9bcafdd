//! The one slot of a lock, before its table is made and after it is closed.
ghost use Rattle.std.specs.Prelude.{◌≡◌, ◌≤◌, [], ◌∷◌, Some, None, IfOk, IfErr};
ghost use mathlib.Core.List.{IsPrefix};

use crate::grows::Grows;
use crate::view::{Law, Opening, Place, View};
use atomic_table::Table;
use std::alloc::Global;

/// A list of one slot with the value, or the value for want of memory.
pub(crate) fn one_slot<T>(alloc: Global, value: T) -> Result<Vec<Option<T>>, T>
    ensures one { IfOk result (λ v. v.items ≡ Some value ∷ []) }
    ensures back { IfErr result (λ x. x ≡ value) }
{
    let Ok(mut slots) = Vec::with_capacity(alloc, 1) else {
        return Err(value);
    };
    match slots.push(Some(value)) {
        Ok(()) => Ok(slots),
        Err(_) => unreachable!(),
    }
}

/// The value of a list of one slot.
pub(crate) fn out_of<T>(mut slots: Vec<Option<T>>) -> T
    requires { (y : T) × (slots.items ≡ Some y ∷ []) }
    ensures { slots.items ≡ Some result ∷ [] }
{
    let slot = slots.pop();
    slots.destroy_empty();
    match slot {
        Some(Some(value)) => value,
        _ => unreachable!(),
    }
}

/// The value of a table whose one seat that is not spent is given back with it.
pub(crate) fn taken_home<T: Grows>(
    table: Table<Option<T>, View<T, T::Setup, T::Item>, Opening<T>, Law, Global>,
    place: Place<T>,
) -> T
    requires of { place.table_id ≡ table.shared.table_id }
    requires one { (table.shared.table_id.words ≡ 1) × (table.shared.table_id.slots ≡ 1) }
    requires rests { place.me.0.held ≡ None }
    requires live { 1 ≤ place.me.0.shares }
    requires all { table.shared.key.seats ≤ place.me.0.shares }
    ensures setup { T.setup result ≡ T.setup table.shared.key.value.value }
    ensures seen { IsPrefix place.me.0.seen (T.history result) }
{
    let mut closed = table.close_with(place);
    let slot = closed.take(0);
    closed.free();
    match slot {
        Some(value) => value,
        None => unreachable!(),
    }
}
