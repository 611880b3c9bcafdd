ghost use Rattle.std.specs.Prelude.{◌≡◌, ◌<◌, ◌+◌, IfSome};
ghost use mathlib.Core.List.{IsPrefix};
ghost use Rattle.worker_gate.specs.Lent.{HasSeat, seen_of, shares_of};
ghost use Rattle.world_lock.specs.Known.{IsSeatOf};

use crate::spreading::spread;
use core_syntax::Program;
use interleave_core::World;
use std::alloc::Global;
use std::sync::Wait;
use std::thread::{Threads, join_mut};
use worker_rounds::{Between, Gate, work};
use world_lock::{Seat, WorldLock};

/// Worker 0 with so many others beside it. Their seats are joined.
pub(crate) fn beside<R: Threads + Wait + Sync, G: Gate + Sync, B: Between + Send>(
    rt: &R,
    alloc: Global,
    lock: &WorldLock<World>,
    seats: (Seat<World>, Seat<World>),
    program: &Program,
    others: u32,
    gate: &G,
    between: &mut B,
) -> Seat<World>
    requires first { IsSeatOf lock.now seats.0 }
    requires second { IsSeatOf lock.now seats.1 × (others < seats.1.shares) }
    requires program { program.now ≡ lock.now.setup.0 }
    requires under { IfSome (B.under between.old) (λ s. lock.now.setup ≡ s) }
    requires used { IsPrefix (B.used between.old) seats.0.seen }
    ensures of { IsSeatOf lock.now result }
    ensures shares { result.shares ≡ seats.0.shares + seats.1.shares }
    ensures first_seen { IsPrefix seats.0.seen result.seen }
    ensures second_seen { IsPrefix seats.1.seen result.seen }
    ensures start { B.start between.new ≡ B.start between.old }
    ensures under { B.under between.new ≡ B.under between.old }
    ensures used { IsPrefix (B.used between.new) result.seen }
{
    let (first, second) = seats;
    let mut mine = Some(first);
    let mut theirs = Some(second);
    let (here, there) = join_mut(
        rt,
        &mut || -> Seat<World>
            requires of { HasSeat lock.now mine }
            requires program { program.now ≡ lock.now.setup.0 }
            requires under { IfSome (B.under between.now) (λ s. lock.now.setup ≡ s) }
            requires used { IsPrefix (B.used between.now) (seen_of mine) }
            ensures of { IsSeatOf lock.entry.now result }
            ensures shares { result.shares ≡ shares_of mine.entry }
            ensures seen { IsPrefix (seen_of mine.entry) result.seen }
            ensures start { B.start between.exit.now ≡ B.start between.entry.now }
            ensures under { B.under between.exit.now ≡ B.under between.entry.now }
            ensures used { IsPrefix (B.used between.exit.now) result.seen }
        {
            match mine.take() {
                Some(seat) => work(rt, alloc, lock, seat, program, 0, gate, between).seat,
                None => unreachable!(),
            }
        },
        &mut || -> Seat<World>
            requires of { HasSeat lock.now theirs }
            requires shares { others < shares_of theirs }
            requires program { program.now ≡ lock.now.setup.0 }
            ensures of { IsSeatOf lock.entry.now result }
            ensures shares { result.shares ≡ shares_of theirs.entry }
            ensures seen { IsPrefix (seen_of theirs.entry) result.seen }
        {
            match theirs.take() {
                Some(seat) => spread(rt, alloc, lock, seat, program, 1, others, gate),
                None => unreachable!(),
            }
        },
    );
    lock.join(here, there)
}
