//! The steps of a seat, each in a function of its own.
ghost use Rattle.std.specs.Prelude.{◌≡◌, ◌≤◌, [], ◌∷◌, Some, None};
ghost use Rattle.world_lock.specs.Later.{IsLater};
ghost use Rattle.world_lock.specs.Views.{without_one, with_one, joined, resting};
ghost use Rattle.world_lock.specs.Steps.{Took, Looks};

use crate::grows::Grows;
use crate::lock::WorldLock;
use crate::moves::{BothShares, Give, Look, OneShare, Take};
use crate::view::Place;
use std::sync::Wait;
use std::thread::yield_now;

/// The word of a lock whose value is in its slot.
pub(crate) const FREE: u64 = 0;

/// The word of a lock whose value is out with a seat.
pub(crate) const HELD: u64 = 1;

// So many times a thread yields its processor before it sleeps. To sleep and to be woken costs more than most holds last.
const TRIES: u32 = 32;

impl<T: Grows> WorldLock<T> {
    /// Cuts one share off the seat. The new seat has it, and has seen the same.
    pub(crate) fn cut_share(&self, place: &mut Place<T>) -> Place<T>
        requires of { place.old.table_id ≡ self.now.id }
        requires two { 2 ≤ place.old.me.0.shares }
        ensures of { (place.new.table_id ≡ self.now.id) × (result.table_id ≡ self.now.id) }
        ensures kept { place.new.me ≡ (without_one place.old.me.0, place.old.me.1) }
        ensures given { result.me ≡ (with_one place.old.me.0, []) }
    {
        self.table.shared.split_seat::<OneShare>(place)
    }

    /// Gives the seat the shares of the other, and what that has seen beside its own.
    pub(crate) fn take_in(&self, place: &mut Place<T>, other: Place<T>)
        requires of { (place.old.table_id ≡ self.now.id) × (other.table_id ≡ self.now.id) }
        requires live { 1 ≤ place.old.me.0.shares }
        requires rests { (other.me.0.held ≡ None) × (other.me.1 ≡ []) }
        ensures of { place.new.table_id ≡ self.now.id }
        ensures both { place.new.me ≡ (joined place.old.me.0 other.me.0, place.old.me.1) }
    {
        self.table.shared.join_seat::<BothShares>(place, other);
    }

    /// Looks at the word, which tells which of the two lists that the seat has is the longer. It keeps that one.
    pub(crate) fn look(&self, place: &mut Place<T>)
        requires of { place.old.table_id ≡ self.now.id }
        requires live { 1 ≤ place.old.me.0.shares }
        ensures of { place.new.table_id ≡ self.now.id }
        ensures looked { Looks place.old.me place.new.me }
    {
        self.table.shared.load::<Look>(place, 0);
    }

    /// Takes the word with the slot, however often it has to try. In between it yields, and after some tries sleeps while the word
    /// says held.
    pub(crate) fn take_word<R: Wait>(&self, rt: &R, place: &mut Place<T>)
        requires of { place.old.table_id ≡ self.now.id }
        requires held { place.old.me.0.held ≡ None }
        requires live { 1 ≤ place.old.me.0.shares }
        ensures of { place.new.table_id ≡ self.now.id }
        ensures took { (y : T) × Took T.setup T.history place.old.me place.new.me y }
    {
        let shared = &self.table.shared;
        let mut tries = 0u32;
        for _ in rt.forever() {
            if shared.compare_exchange::<Take>(place, 0, FREE, HELD) == FREE {
                return;
            }
            if tries < TRIES {
                yield_now();
                tries += 1;
            } else {
                shared.park(rt, 0, HELD as u32);
                tries = 0;
            }
        }
        unreachable!()
    }

    /// The value, out of the slot that the seat has.
    pub(crate) fn take_value(&self, place: &mut Place<T>) -> T
        requires of { place.old.table_id ≡ self.now.id }
        requires slot { (y : T) × (place.old.me.1 ≡ (0, Some y) ∷ []) }
        ensures of { place.new.table_id ≡ self.now.id }
        ensures value { place.old.me.1 ≡ (0, Some result) ∷ [] }
        ensures slot { place.new.me ≡ (place.old.me.0, (0, None) ∷ []) }
    {
        let slot = self.table.shared.exchange(place, 0, None);
        match slot {
            Some(value) => value,
            None => unreachable!(),
        }
    }

    /// Puts the value into the slot that the seat has.
    pub(crate) fn put_value(&self, place: &mut Place<T>, value: T)
        requires of { place.old.table_id ≡ self.now.id }
        requires slot { place.old.me.1 ≡ (0, None) ∷ [] }
        ensures of { place.new.table_id ≡ self.now.id }
        ensures slot { place.new.me ≡ (place.old.me.0, (0, Some value) ∷ []) }
    {
        let slot = self.table.shared.exchange(place, 0, Some(value));
        let None = slot else { unreachable!() };
    }

    /// Gives the slot back with the word, and wakes one that sleeps.
    pub(crate) fn give_word(&self, place: &mut Place<T>)
        requires of { place.old.table_id ≡ self.now.id }
        requires live { 1 ≤ place.old.me.0.shares }
        requires later { (x : T) × (y : T) × (place.old.me.0.held ≡ Some x) × (place.old.me.1 ≡ (0, Some y) ∷ []) × IsLater T.setup T.history x y }
        ensures of { place.new.table_id ≡ self.now.id }
        ensures gave { (y : T) → place.old.me.1 ≡ (0, Some y) ∷ [] → place.new.me ≡ (resting place.old.me.0 (T.history y), []) }
    {
        self.table.shared.store::<Give>(place, 0, FREE);
        self.table.shared.wake_one(0);
    }
}
