ghost use Rattle.std.specs.Prelude.{◌≡◌, ◌+◌, ◌≤◌, ◌<◌, OnOk};
ghost use mathlib.Core.List.{IsPrefix};
ghost use Rattle.world_lock.specs.Known.{IsSeatOf};
ghost use Rattle.lock_appends.specs.Counts.{count_of};

use crate::list::Numbers;
use std::alloc::AllocError;
use std::sync::Wait;
use std::sync::ledger::{Ledger, Share};
use world_lock::{Seat, WorldLock};

/// Who appends: its seat at the lock, and its share of the book, which has as much as it has appended.
#[derive(Drop)]
pub struct Worker<L: Ledger + Send + Sync> {
    pub seat: Seat<Numbers<L>>,
    pub share: Share<L>,
}

/// A worker that is done, and whether there was memory for all that it had to append.
pub type Done<L> = (Worker<L>, Result<(), AllocError>);

/// Enters once and appends the number. With Ok the seat has seen one more of it, and the share has exactly one more.
pub fn append<L: Ledger + Send + Sync, R: Wait>(
    rt: &R,
    lock: &WorldLock<Numbers<L>>,
    worker: Worker<L>,
    number: u32,
) -> Done<L>
    requires of { IsSeatOf lock.now worker.seat }
    requires part { 0 < worker.share.parts }
    ensures of { IsSeatOf lock.now result.0.seat }
    ensures shares { result.0.seat.shares ≡ worker.seat.shares }
    ensures parts { result.0.share.parts ≡ worker.share.parts }
    ensures seen { IsPrefix worker.seat.seen result.0.seat.seen }
    ensures counted { OnOk result.1 (count_of number worker.seat.seen + 1 ≤ count_of number result.0.seat.seen) }
    ensures once { OnOk result.1 (result.0.share.amount ≡ worker.share.amount + 1) }
{
    let Worker { seat, mut share } = worker;
    let mut turn = lock.enter(rt, seat);
    let outcome = turn.value().append(&mut share, number);
    let seat = lock.leave(turn);
    (Worker { seat, share }, outcome)
}

/// Enters so many times and appends the number each time. It ends where memory does.
pub fn append_many<L: Ledger + Send + Sync, R: Wait>(
    rt: &R,
    lock: &WorldLock<Numbers<L>>,
    worker: Worker<L>,
    number: u32,
    times: u32,
) -> Done<L>
    requires of { IsSeatOf lock.now worker.seat }
    requires part { 0 < worker.share.parts }
    ensures of { IsSeatOf lock.now result.0.seat }
    ensures shares { result.0.seat.shares ≡ worker.seat.shares }
    ensures parts { result.0.share.parts ≡ worker.share.parts }
    ensures seen { IsPrefix worker.seat.seen result.0.seat.seen }
    ensures counted { OnOk result.1 (count_of number worker.seat.seen + times ≤ count_of number result.0.seat.seen) }
    ensures each_once { OnOk result.1 (result.0.share.amount ≡ worker.share.amount + times) }
{
    let mut mine = worker;
    for _ in 0..times {
        let (next, outcome) = append(rt, lock, mine, number);
        mine = next;
        if outcome.is_err() {
            return (mine, outcome);
        }
    }
    (mine, Ok(()))
}
