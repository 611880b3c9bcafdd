//! What a seat knows, and the rule that ties it to the word and the slot of the lock.
use crate::grows::Grows;
use atomic_table::{Seat, TableRule};
use std::collections::LinkedList;
use std::snapshot::Snapshot;

/// What a seat knows and holds. No value of it is made: it exists in proofs alone.
pub struct View<T, S, I> {
    /// The setup of the lock's value, or None once the seat is spent.
    pub setup: Option<S>,
    /// The beginning of the history that the seat has seen.
    pub seen: LinkedList<I>,
    /// What a seat that was joined into this one had seen, until the next look.
    pub told: LinkedList<I>,
    pub shares: u64,
    /// The value as it was when the word was taken, while the seat holds it.
    pub held: Option<T>,
}

/// The view of a seat of a lock round a `T`.
pub type ViewOf<T> = View<T, <T as Grows>::Setup, <T as Grows>::Item>;

/// A seat at the table of such a lock.
pub type Place<T> = Seat<Option<T>, ViewOf<T>>;

/// What a lock is told once, when it is made: its first value, and how many shares its first seat has.
pub struct Opening<T> {
    pub value: Snapshot<T>,
    pub seats: u32,
}

impl<T> Drop for Opening<T> {
    fn drop(self) {
        let Self { value: _, seats: _ } = self;
    }
}

/// The rule of every lock, `IsKept` of the specs.
pub struct Law;

impl<T: Grows> TableRule<Option<T>, View<T, T::Setup, T::Item>, Opening<T>> for Law {
    ghost use Rattle.world_lock.specs.Rule.{IsKept};
    ghost use Rattle.world_lock.specs.Views.{opening_view};

    ghost holds = { λ k s. IsKept T.setup T.history (T.setup k.value.value) k.seats s };

    ghost first = { λ k. opening_view (T.setup k.value.value) (T.history k.value.value) k.seats };
}
