//! Whole runs: a lock is made, threads append, and it is closed.
ghost use Rattle.std.specs.Prelude.{◌≡◌, ◌+◌, ◌≤◌, [], ◌∷◌, length, IfOk};
ghost use mathlib.Core.List.{IsPrefix};
ghost use Rattle.world_lock.specs.Known.{IsSeatOf};
ghost use Rattle.lock_appends.specs.Counts.{HasExactly};

use crate::list::{Listed, Numbers};
use crate::pairs::{append_by_four, append_by_two};
use crate::workers::Worker;
use std::alloc::{AllocError, Global};
use std::marker::Brand;
use std::sync::Wait;
use std::sync::ledger::{Blank, Ledger};
use std::thread::Threads;
use world_lock::{Seat, WorldLock};

/// One share of the worker that has appended nothing, for a thread of its own.
fn cut<L: Ledger + Send + Sync>(
    lock: &WorldLock<Numbers<L>>,
    worker: Worker<L>,
) -> (Worker<L>, Worker<L>)
    requires of { IsSeatOf lock.now worker.seat }
    requires two { (2 ≤ worker.seat.shares) × (2 ≤ worker.share.parts) }
    requires none { worker.share.amount ≡ 0 }
    ensures of { IsSeatOf lock.now result.0.seat × IsSeatOf lock.now result.1.seat }
    ensures shares { (result.0.seat.shares + 1 ≡ worker.seat.shares) × (result.1.seat.shares ≡ 1) }
    ensures parts { (result.0.share.parts + 1 ≡ worker.share.parts) × (result.1.share.parts ≡ 1) }
    ensures none { (result.0.share.amount ≡ 0) × (result.1.share.amount ≡ 0) }
{
    let Worker { seat, mut share } = worker;
    let other = share.split_off(1, 0);
    let (kept, given) = seats(lock, seat);
    (
        Worker { seat: kept, share },
        Worker {
            seat: given,
            share: other,
        },
    )
}

/// One share of the seat, as a seat of its own.
fn seats<L: Ledger + Send + Sync>(
    lock: &WorldLock<Numbers<L>>,
    seat: Seat<Numbers<L>>,
) -> (Seat<Numbers<L>>, Seat<Numbers<L>>)
    requires of { IsSeatOf lock.now seat }
    requires two { 2 ≤ seat.shares }
    ensures of { IsSeatOf lock.now result.0 × IsSeatOf lock.now result.1 }
    ensures shares { (result.0.shares + 1 ≡ seat.shares) × (result.1.shares ≡ 1) }
{
    let (kept, given) = lock.split(seat);
    match given {
        Some(given) => (kept, given),
        None => unreachable!(),
    }
}

/// The list of a lock of which no other seat is out, and whose book no other share counts in.
fn closed<L: Ledger + Send + Sync>(lock: WorldLock<Numbers<L>>, worker: Worker<L>) -> Listed
    requires of { IsSeatOf lock worker.seat }
    requires all { (lock.seats ≤ worker.seat.shares) × (worker.share.parts ≡ L.parts) }
    ensures setup { result.setup ≡ lock.setup }
    ensures seen { IsPrefix worker.seat.seen result.items.items }
    ensures length { length result.items.items ≡ worker.share.amount }
{
    let Worker { seat, share } = worker;
    match lock.close(seat) {
        Ok(numbers) => numbers.listed(share),
        Err(_) => unreachable!(),
    }
}

/// Two threads append the numbers 1 and 2, each so many times.
pub fn appended_by_two<R: Threads + Wait + Sync>(
    rt: &R,
    alloc: Global,
    setup: u32,
    times: u32,
) -> Result<Listed, AllocError>
    ensures setup { IfOk result (λ n. n.setup ≡ setup) }
    ensures exactly { IfOk result (λ n. HasExactly (1 ∷ 2 ∷ []) times n.items.items) }
{
    two::<Brand, R>(rt, alloc, Blank::new(2), setup, times)
}

/// The same, over a new ledger.
fn two<L: Ledger + Send + Sync, R: Threads + Wait + Sync>(
    rt: &R,
    alloc: Global,
    blank: Blank,
    setup: u32,
    times: u32,
) -> Result<Listed, AllocError>
    requires name { blank.name ≡ L.name }
    requires parts { (blank.parts ≡ L.parts) × (blank.parts ≡ 2) }
    ensures setup { IfOk result (λ n. n.setup ≡ setup) }
    ensures exactly { IfOk result (λ n. HasExactly (1 ∷ 2 ∷ []) times n.items.items) }
{
    let (book, share) = blank.open::<L>();
    let Ok((lock, seat)) = WorldLock::new(alloc, Numbers::new(alloc, setup, book), 2) else {
        return Err(AllocError);
    };
    let workers = cut(&lock, Worker { seat, share });
    let (all, outcome) = append_by_two(rt, &lock, workers, (1, 2), times);
    let listed = closed(lock, all);
    outcome?;
    Ok(listed)
}

/// Four threads append the numbers 1 to 4, each so many times.
pub fn appended_by_four<R: Threads + Wait + Sync>(
    rt: &R,
    alloc: Global,
    setup: u32,
    times: u32,
) -> Result<Listed, AllocError>
    ensures setup { IfOk result (λ n. n.setup ≡ setup) }
    ensures exactly { IfOk result (λ n. HasExactly (1 ∷ 2 ∷ 3 ∷ 4 ∷ []) times n.items.items) }
{
    four::<Brand, R>(rt, alloc, Blank::new(4), setup, times)
}

/// The same, over a new ledger.
fn four<L: Ledger + Send + Sync, R: Threads + Wait + Sync>(
    rt: &R,
    alloc: Global,
    blank: Blank,
    setup: u32,
    times: u32,
) -> Result<Listed, AllocError>
    requires name { blank.name ≡ L.name }
    requires parts { (blank.parts ≡ L.parts) × (blank.parts ≡ 4) }
    ensures setup { IfOk result (λ n. n.setup ≡ setup) }
    ensures exactly { IfOk result (λ n. HasExactly (1 ∷ 2 ∷ 3 ∷ 4 ∷ []) times n.items.items) }
{
    let (book, share) = blank.open::<L>();
    let Ok((lock, seat)) = WorldLock::new(alloc, Numbers::new(alloc, setup, book), 4) else {
        return Err(AllocError);
    };
    let (worker, first) = cut(&lock, Worker { seat, share });
    let (worker, second) = cut(&lock, worker);
    let (worker, third) = cut(&lock, worker);
    let workers = ((worker, first), (second, third));
    let (all, outcome) = append_by_four(rt, &lock, workers, ((1, 2), (3, 4)), times);
    let listed = closed(lock, all);
    outcome?;
    Ok(listed)
}
