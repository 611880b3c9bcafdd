ghost use Rattle.std.specs.Prelude.{◌≡◌, ◌<◌};
ghost use Rattle.std.specs.Thread.{IsSync};
ghost use mathlib.Core.List.{IsPrefix};
ghost use Rattle.world_lock.specs.Known.{IsSeatOf};

use core_syntax::Program;
use interleave_core::World;
use std::alloc::Global;
use std::sync::Wait;
use std::thread::{Threads, join};
use worker_rounds::{Gate, NoBetween, work};
use world_lock::{Seat, WorldLock};

/// A worker's whole work, with nothing between its holds.
fn alone<R: Wait, G: Gate>(
    rt: &R,
    alloc: Global,
    lock: &WorldLock<World>,
    seat: Seat<World>,
    program: &Program,
    worker: u32,
    gate: &G,
) -> Seat<World>
    requires of { IsSeatOf lock.now seat }
    requires program { program.now ≡ lock.now.setup.0 }
    ensures of { IsSeatOf lock.now result }
    ensures shares { result.shares ≡ seat.shares }
    ensures seen { IsPrefix seat.seen result.seen }
{
    work(rt, alloc, lock, seat, program, worker, gate, &mut NoBetween).seat
}

/// So many workers, each in a thread of its own, numbered from `first` on. Their seats are joined.
pub(crate) fn spread<R: Threads + Wait + Sync, G: Gate + Sync>(
    rt: &R,
    alloc: Global,
    lock: &WorldLock<World>,
    seat: Seat<World>,
    program: &Program,
    first: u32,
    count: u32,
    gate: &G,
) -> Seat<World>
    requires of { IsSeatOf lock.now seat }
    requires shares { count < seat.shares }
    requires program { program.now ≡ lock.now.setup.0 }
    ensures of { IsSeatOf lock.now result }
    ensures shares { result.shares ≡ seat.shares }
    ensures seen { IsPrefix seat.seen result.seen }
{
    if count == 0 {
        return seat;
    }
    let (mine, given) = lock.split(seat);
    let Some(theirs) = given else {
        return mine;
    };
    let next = first.saturating_add(1);
    let rest = count - 1;
    let (there, here) = join(
        rt,
        || -> Seat<World>
            requires { IsSeatOf lock.now theirs × (program.now ≡ lock.now.setup.0) × IsSync R.row × IsSync G.row }
            ensures of { IsSeatOf lock.entry.now result }
            ensures shares { result.shares ≡ theirs.shares }
            ensures seen { IsPrefix theirs.seen result.seen }
        { alone(rt, alloc, lock, theirs, program, first, gate) },
        || -> Seat<World>
            requires { IsSeatOf lock.now mine × (rest < mine.shares) × (program.now ≡ lock.now.setup.0) × IsSync R.row × IsSync G.row }
            ensures of { IsSeatOf lock.entry.now result }
            ensures shares { result.shares ≡ mine.shares }
            ensures seen { IsPrefix mine.seen result.seen }
        { spread(rt, alloc, lock, mine, program, next, rest, gate) },
    );
    lock.join(here, there)
}
