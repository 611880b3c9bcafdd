//! Workers side by side, each in a thread of its own.
ghost use Rattle.std.specs.Prelude.{◌≡◌, ◌+◌, ◌≤◌, ◌<◌, OnOk};
ghost use mathlib.Core.List.{IsPrefix};
ghost use Rattle.world_lock.specs.Known.{IsSeatOf};
ghost use Rattle.lock_appends.specs.Counts.{count_of};

use crate::list::Numbers;
use crate::workers::{Done, Worker, append_many};
use std::alloc::AllocError;
use std::sync::Wait;
use std::sync::ledger::Ledger;
use std::thread::{Threads, join};
use world_lock::WorldLock;

/// Two workers.
pub type Pair<L> = (Worker<L>, Worker<L>);

/// Two threads append, each its own number. The worker that is left has seen what both have, and has what both appended.
#[tactic(auto, using(crate::proofs::Counting::count_of_prefix))]
pub fn append_by_two<L: Ledger + Send + Sync, R: Threads + Wait + Sync>(
    rt: &R,
    lock: &WorldLock<Numbers<L>>,
    workers: Pair<L>,
    numbers: (u32, u32),
    times: u32,
) -> Done<L>
    requires first { IsSeatOf lock.now workers.0.seat × (0 < workers.0.share.parts) }
    requires second { IsSeatOf lock.now workers.1.seat × (0 < workers.1.share.parts) }
    ensures of { IsSeatOf lock.now result.0.seat }
    ensures shares { result.0.seat.shares ≡ workers.0.seat.shares + workers.1.seat.shares }
    ensures parts { result.0.share.parts ≡ workers.0.share.parts + workers.1.share.parts }
    ensures seen { IsPrefix workers.0.seat.seen result.0.seat.seen × IsPrefix workers.1.seat.seen result.0.seat.seen }
    ensures counted { OnOk result.1 ((times ≤ count_of numbers.0 result.0.seat.seen) × (times ≤ count_of numbers.1 result.0.seat.seen)) }
    ensures each_once { OnOk result.1 (result.0.share.amount ≡ (workers.0.share.amount + times) + (workers.1.share.amount + times)) }
{
    let (mine, theirs) = workers;
    let (first, second) = numbers;
    let (here, there) = join(
        rt,
        || -> Done<L>
            requires { IsSeatOf lock.now mine.seat × (0 < mine.share.parts) }
            ensures of { IsSeatOf lock.entry.now result.0.seat }
            ensures shares { result.0.seat.shares ≡ mine.seat.shares }
            ensures parts { result.0.share.parts ≡ mine.share.parts }
            ensures seen { IsPrefix mine.seat.seen result.0.seat.seen }
            ensures counted { OnOk result.1 (times ≤ count_of first result.0.seat.seen) }
            ensures each_once { OnOk result.1 (result.0.share.amount ≡ mine.share.amount + times) }
        { append_many(rt, lock, mine, first, times) },
        || -> Done<L>
            requires { IsSeatOf lock.now theirs.seat × (0 < theirs.share.parts) }
            ensures of { IsSeatOf lock.entry.now result.0.seat }
            ensures shares { result.0.seat.shares ≡ theirs.seat.shares }
            ensures parts { result.0.share.parts ≡ theirs.share.parts }
            ensures seen { IsPrefix theirs.seat.seen result.0.seat.seen }
            ensures counted { OnOk result.1 (times ≤ count_of second result.0.seat.seen) }
            ensures each_once { OnOk result.1 (result.0.share.amount ≡ theirs.share.amount + times) }
        { append_many(rt, lock, theirs, second, times) },
    );
    let (mine, first) = here;
    let (theirs, second) = there;
    let all = joined(lock, mine, theirs);
    match (first, second) {
        (Ok(()), Ok(())) => (all, Ok(())),
        _ => (all, Err(AllocError)),
    }
}

/// One worker of two.
fn joined<L: Ledger + Send + Sync>(
    lock: &WorldLock<Numbers<L>>,
    one: Worker<L>,
    other: Worker<L>,
) -> Worker<L>
    requires first { IsSeatOf lock.now one.seat }
    requires second { IsSeatOf lock.now other.seat }
    ensures of { IsSeatOf lock.now result.seat }
    ensures shares { result.seat.shares ≡ one.seat.shares + other.seat.shares }
    ensures seen { IsPrefix one.seat.seen result.seat.seen × IsPrefix other.seat.seen result.seat.seen }
    ensures parts { result.share.parts ≡ one.share.parts + other.share.parts }
    ensures amount { result.share.amount ≡ one.share.amount + other.share.amount }
{
    let Worker { seat, mut share } = one;
    share.merge(other.share);
    let seat = lock.join(seat, other.seat);
    Worker { seat, share }
}

/// Four threads append, as two pairs.
#[tactic(auto, using(crate::proofs::Counting::count_of_prefix))]
pub fn append_by_four<L: Ledger + Send + Sync, R: Threads + Wait + Sync>(
    rt: &R,
    lock: &WorldLock<Numbers<L>>,
    workers: (Pair<L>, Pair<L>),
    numbers: ((u32, u32), (u32, u32)),
    times: u32,
) -> Done<L>
    requires first { IsSeatOf lock.now workers.0.0.seat × IsSeatOf lock.now workers.0.1.seat }
    requires second { IsSeatOf lock.now workers.1.0.seat × IsSeatOf lock.now workers.1.1.seat }
    requires parts { (0 < workers.0.0.share.parts) × (0 < workers.0.1.share.parts) × (0 < workers.1.0.share.parts) × (0 < workers.1.1.share.parts) }
    ensures of { IsSeatOf lock.now result.0.seat }
    ensures shares { result.0.seat.shares ≡ (workers.0.0.seat.shares + workers.0.1.seat.shares) + (workers.1.0.seat.shares + workers.1.1.seat.shares) }
    ensures parts { result.0.share.parts ≡ (workers.0.0.share.parts + workers.0.1.share.parts) + (workers.1.0.share.parts + workers.1.1.share.parts) }
    ensures first { OnOk result.1 ((times ≤ count_of numbers.0.0 result.0.seat.seen) × (times ≤ count_of numbers.0.1 result.0.seat.seen)) }
    ensures second { OnOk result.1 ((times ≤ count_of numbers.1.0 result.0.seat.seen) × (times ≤ count_of numbers.1.1 result.0.seat.seen)) }
    ensures each_once { OnOk result.1 (result.0.share.amount ≡ ((workers.0.0.share.amount + times) + (workers.0.1.share.amount + times))
        + ((workers.1.0.share.amount + times) + (workers.1.1.share.amount + times))) }
{
    let (ours, theirs) = workers;
    let (low, high) = numbers;
    let (here, there) = join(
        rt,
        || -> Done<L>
            requires { IsSeatOf lock.now ours.0.seat × IsSeatOf lock.now ours.1.seat × (0 < ours.0.share.parts) × (0 < ours.1.share.parts) }
            ensures of { IsSeatOf lock.entry.now result.0.seat }
            ensures shares { result.0.seat.shares ≡ ours.0.seat.shares + ours.1.seat.shares }
            ensures parts { result.0.share.parts ≡ ours.0.share.parts + ours.1.share.parts }
            ensures counted { OnOk result.1 ((times ≤ count_of low.0 result.0.seat.seen) × (times ≤ count_of low.1 result.0.seat.seen)) }
            ensures each_once { OnOk result.1 (result.0.share.amount ≡ (ours.0.share.amount + times) + (ours.1.share.amount + times)) }
        { append_by_two(rt, lock, ours, low, times) },
        || -> Done<L>
            requires { IsSeatOf lock.now theirs.0.seat × IsSeatOf lock.now theirs.1.seat × (0 < theirs.0.share.parts) × (0 < theirs.1.share.parts) }
            ensures of { IsSeatOf lock.entry.now result.0.seat }
            ensures shares { result.0.seat.shares ≡ theirs.0.seat.shares + theirs.1.seat.shares }
            ensures parts { result.0.share.parts ≡ theirs.0.share.parts + theirs.1.share.parts }
            ensures counted { OnOk result.1 ((times ≤ count_of high.0 result.0.seat.seen) × (times ≤ count_of high.1 result.0.seat.seen)) }
            ensures each_once { OnOk result.1 (result.0.share.amount ≡ (theirs.0.share.amount + times) + (theirs.1.share.amount + times)) }
        { append_by_two(rt, lock, theirs, high, times) },
    );
    let (mine, first) = here;
    let (others, second) = there;
    let all = joined(lock, mine, others);
    match (first, second) {
        (Ok(()), Ok(())) => (all, Ok(())),
        _ => (all, Err(AllocError)),
    }
}
