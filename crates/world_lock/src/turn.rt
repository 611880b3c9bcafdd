use crate::grows::Grows;
use crate::view::Place;
use std::marker::Model;
use std::snapshot::Snapshot;

/// The value of a lock, out with the one seat that entered. It has to be given back by `WorldLock::leave`.
/// Contracts see it as a `TurnKnown`.
pub struct Turn<T: Grows> {
    pub(crate) place: Place<T>,
    pub(crate) shares: u32,
    pub(crate) entered: Snapshot<T>,
    pub(crate) value: T,
}

impl<T: Grows> Model for Turn<T> {
    ghost use Rattle.world_lock.specs.Known.{TurnKnown};
    ghost use Rattle.world_lock.specs.Placed.{IsHolding};

    ghost Value = { TurnKnown T T.Setup };

    ghost view = { λ t. record { lock = t.place.table_id; setup = t.place.me.0.setup; shares = t.shares; entered = t.entered.value; value = t.value } };

    ghost invariant = { λ t. IsHolding t.place.me t.shares t.entered.value };
}
