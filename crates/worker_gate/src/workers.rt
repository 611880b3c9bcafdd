ghost use Rattle.std.specs.Prelude.{◌≡◌, ◌<◌, IfSome};
ghost use mathlib.Core.List.{IsPrefix};
ghost use Rattle.interleave_core.specs.Grown.{IsDone};
ghost use Rattle.worker_rounds.specs.declared.stop.Stop.TheVariants as stops;
ghost use Rattle.world_lock.specs.Known.{IsSeatOf};

use crate::beside::beside;
use core_syntax::Program;
use interleave_core::World;
use std::alloc::Global;
use std::sync::Wait;
use std::thread::Threads;
use worker_rounds::{Between, Gate, Worked, work};
use world_lock::{Seat, WorldLock};

/// So many workers side by side, the first of which does `between` between its holds; and then the caller itself, which goes
/// on until the run is over or memory is wanting. The program is the one of the lock's setup. Every worker and every seat is
/// joined. `Over` comes only where the history that the seat has seen replays to a state that is over. A thread that can't be
/// started is no error: its work is done by the caller.
pub fn run_workers<R: Threads + Wait + Sync, G: Gate + Sync, B: Between + Send>(
    rt: &R,
    alloc: Global,
    lock: &WorldLock<World>,
    seat: Seat<World>,
    program: &Program,
    workers: u32,
    gate: &G,
    between: &mut B,
) -> Worked
    requires of { IsSeatOf lock.now seat }
    requires shares { workers < seat.shares }
    requires program { program.now ≡ lock.now.setup.0 }
    requires under { IfSome (B.under between.old) (λ s. lock.now.setup ≡ s) }
    requires used { IsPrefix (B.used between.old) seat.seen }
    ensures of { IsSeatOf lock.now result.seat }
    ensures shares { result.seat.shares ≡ seat.shares }
    ensures seen { IsPrefix seat.seen result.seat.seen }
    ensures over { result.stop ≡ stops.Over → IsDone lock.now.setup result.seat.seen }
    ensures start { B.start between.new ≡ B.start between.old }
    ensures under { B.under between.new ≡ B.under between.old }
    ensures used { IsPrefix (B.used between.new) result.seat.seen }
{
    let joined = begun(rt, alloc, lock, seat, program, workers, gate, between);
    work(rt, alloc, lock, joined, program, workers, gate, between)
}

/// So many workers side by side, the first of which does `between` between its holds. Their seats are joined.
fn begun<R: Threads + Wait + Sync, G: Gate + Sync, B: Between + Send>(
    rt: &R,
    alloc: Global,
    lock: &WorldLock<World>,
    seat: Seat<World>,
    program: &Program,
    workers: u32,
    gate: &G,
    between: &mut B,
) -> Seat<World>
    requires of { IsSeatOf lock.now seat }
    requires shares { workers < seat.shares }
    requires program { program.now ≡ lock.now.setup.0 }
    requires under { IfSome (B.under between.old) (λ s. lock.now.setup ≡ s) }
    requires used { IsPrefix (B.used between.old) seat.seen }
    ensures of { IsSeatOf lock.now result }
    ensures shares { result.shares ≡ seat.shares }
    ensures seen { IsPrefix seat.seen result.seen }
    ensures start { B.start between.new ≡ B.start between.old }
    ensures under { B.under between.new ≡ B.under between.old }
    ensures used { IsPrefix (B.used between.new) result.seen }
{
    if workers == 0 {
        return seat;
    }
    let (kept, given) = lock.split(seat);
    match given {
        Some(first) => beside(
            rt,
            alloc,
            lock,
            (first, kept),
            program,
            workers - 1,
            gate,
            between,
        ),
        None => kept,
    }
}
