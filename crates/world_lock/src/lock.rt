ghost use Rattle.std.specs.Prelude.{◌≡◌, ℕ, ◌+◌, ◌-◌, ◌<◌, ◌≤◌, [], ◌∷◌, ◌⊎◌, ◌↔◌, Some, IsErr, IsNone, IfOk, IfErr, IfSome, IfNone};
ghost use mathlib.Core.List.{IsPrefix};
ghost use Rattle.world_lock.specs.Later.{IsLater};
ghost use Rattle.world_lock.specs.Known.{IsSeatOf, IsTurnOf};

use crate::grows::Grows;
use crate::seat::Seat;
use crate::slots::{one_slot, out_of, taken_home};
use crate::steps::FREE;
use crate::still_out::StillOut;
use crate::turn::Turn;
use crate::view::{Law, Opening, View};
use atomic_table::{Refused, Table};
use std::alloc::Global;
use std::marker::Model;
use std::snapshot::Snapshot;
use std::sync::Wait;

/// A lock round one value that only grows. Contracts see it as a `LockKnown`.
#[derive(Drop)]
pub struct WorldLock<T: Grows> {
    pub(crate) table: Table<Option<T>, View<T, T::Setup, T::Item>, Opening<T>, Law, Global>,
    pub(crate) seats: u32,
}

impl<T: Grows> Model for WorldLock<T> {
    ghost use Rattle.std.specs.Prelude.{◌≡◌};
    ghost use Rattle.world_lock.specs.Known.{LockKnown};

    ghost Value = { LockKnown T.Setup };

    ghost view = { λ l. record { id = l.table.shared.table_id; setup = T.setup l.table.shared.key.value.value; seats = l.seats } };

    ghost invariant = { λ l. (l.table.shared.table_id.words ≡ 1) × (l.table.shared.table_id.slots ≡ 1) × (l.seats ≡ l.table.shared.key.seats) };
}

impl<T: Grows> WorldLock<T> {
    /// A lock round the value, and its first seat, which has all the shares and has seen the value's history.
    /// For want of memory the value comes back.
    pub fn new(alloc: Global, value: T, seats: u32) -> Result<(WorldLock<T>, Seat<T>), T>
        requires { 1 ≤ seats }
        ensures lock { IfOk result (λ r. (r.0.setup ≡ T.setup value) × (r.0.seats ≡ seats)) }
        ensures seat { IfOk result (λ r. IsSeatOf r.0 r.1 × (r.1.shares ≡ seats) × (r.1.seen ≡ T.history value)) }
        ensures back { IfErr result (λ v. v ≡ value) }
    {
        let about = Opening {
            value: Snapshot::of(&value),
            seats,
        };
        let slots = one_slot(alloc, value)?;
        match Table::new(alloc, &[FREE], slots, &about) {
            Ok((table, place)) => Ok((
                WorldLock { table, seats },
                Seat {
                    place,
                    shares: seats,
                },
            )),
            Err(Refused { slots }) => Err(out_of(slots)),
        }
    }

    /// Cuts one share off the seat for a new one, which has seen the same. None exactly where the seat has but one share.
    pub fn split(&self, seat: Seat<T>) -> (Seat<T>, Option<Seat<T>>)
        requires { IsSeatOf self.now seat }
        ensures kept { IsSeatOf self.now result.0 × (result.0.seen ≡ seat.seen) }
        ensures none { IsNone result.1 ↔ (seat.shares ≡ 1) }
        ensures whole { IfNone result.1 (result.0 ≡ seat) }
        ensures given { IfSome result.1 (λ g. IsSeatOf self.now g × (g.seen ≡ seat.seen) × (g.shares ≡ 1) × (result.0.shares + 1 ≡ seat.shares)) }
    {
        let Seat { mut place, shares } = seat;
        if shares == 1 {
            return (Seat { place, shares }, None);
        }
        let given = self.cut_share(&mut place);
        let kept = Seat {
            place,
            shares: shares - 1,
        };
        let other = Seat {
            place: given,
            shares: 1,
        };
        (kept, Some(other))
    }

    /// Puts two seats together. What the seat has seen then is the longer of what the two had, which the other begins.
    pub fn join(&self, seat: Seat<T>, other: Seat<T>) -> Seat<T>
        requires seat { IsSeatOf self.now seat }
        requires other { IsSeatOf self.now other }
        ensures of { IsSeatOf self.now result }
        ensures this { IsPrefix seat.seen result.seen }
        ensures that { IsPrefix other.seen result.seen }
        ensures longer { (result.seen ≡ seat.seen) ⊎ (result.seen ≡ other.seen) }
        ensures shares { result.shares ≡ seat.shares + other.shares }
    {
        let Seat { mut place, shares } = seat;
        let Seat {
            place: joined,
            shares: more,
        } = other;
        self.take_in(&mut place, joined);
        self.look(&mut place);
        Seat {
            place,
            shares: shares + more,
        }
    }

    /// Waits until no seat has the value, and takes it out.
    pub fn enter<R: Wait>(&self, rt: &R, seat: Seat<T>) -> Turn<T>
        requires { IsSeatOf self.now seat }
        ensures of { IsTurnOf self.now result }
        ensures shares { result.shares ≡ seat.shares }
        ensures entered { result.entered ≡ result.value }
        ensures setup { T.setup result.value ≡ self.now.setup }
        ensures seen { IsPrefix seat.seen (T.history result.value) }
    {
        let Seat { mut place, shares } = seat;
        self.take_word(rt, &mut place);
        let value = self.take_value(&mut place);
        Turn {
            place,
            shares,
            entered: Snapshot::of(&value),
            value,
        }
    }

    /// Puts the value back, and lets the next seat in. The seat has then seen the history of that value.
    pub fn leave(&self, turn: Turn<T>) -> Seat<T>
        requires of { IsTurnOf self.now turn }
        requires later { IsLater T.setup T.history turn.entered turn.value }
        ensures of { IsSeatOf self.now result }
        ensures shares { result.shares ≡ turn.shares }
        ensures seen { result.seen ≡ T.history turn.value }
    {
        let Turn {
            mut place,
            shares,
            entered: _,
            value,
        } = turn;
        self.put_value(&mut place, value);
        self.give_word(&mut place);
        Seat { place, shares }
    }

    /// Takes the lock apart. It is refused exactly where the seat has not all the shares, and then both come back. The value
    /// has the lock's setup, and its history begins with what the seat had seen.
    pub fn close(self, seat: Seat<T>) -> Result<T, StillOut<T>>
        requires { IsSeatOf self seat }
        ensures refused { IsErr result ↔ (seat.shares < self.seats) }
        ensures back { IfErr result (λ e. (e.lock ≡ self) × (e.seat ≡ seat)) }
        ensures setup { IfOk result (λ v. T.setup v ≡ self.setup) }
        ensures seen { IfOk result (λ v. IsPrefix seat.seen (T.history v)) }
    {
        if seat.shares < self.seats {
            return Err(StillOut { lock: self, seat });
        }
        let WorldLock { table, seats: _ } = self;
        let Seat { place, shares: _ } = seat;
        Ok(taken_home(table, place))
    }
}
