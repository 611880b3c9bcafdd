use crate::grows::Grows;
use crate::view::Place;
use std::marker::Model;

/// The right to enter one lock, with some of its shares, and what its owner has seen of the value's history.
/// Contracts see it as a `SeatKnown`.
#[derive(Drop)]
pub struct Seat<T: Grows> {
    pub(crate) place: Place<T>,
    pub(crate) shares: u32,
}

impl<T: Grows> Model for Seat<T> {
    ghost use Rattle.world_lock.specs.Known.{SeatKnown};
    ghost use Rattle.world_lock.specs.Placed.{IsResting};

    ghost Value = { SeatKnown T.Setup T.Item };

    ghost view = { λ s. record { lock = s.place.table_id; setup = s.place.me.0.setup; seen = s.place.me.0.seen; shares = s.shares } };

    ghost invariant = { λ s. IsResting s.place.me s.shares };
}
