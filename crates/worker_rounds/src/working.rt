ghost use Rattle.std.specs.Prelude.{◌≡◌, IfSome};
ghost use mathlib.Core.List.{IsPrefix};
ghost use Rattle.interleave_core.specs.Grown.{IsDone};
ghost use Rattle.worker_rounds.specs.declared.stop.Stop.TheVariants as stops;
ghost use Rattle.world_lock.specs.Known.{IsSeatOf};

use crate::between::Between;
use crate::gate::Gate;
use crate::pausing::pause;
use crate::rounds::{Round, Went, do_round};
use crate::stop::{Stop, Worked};
use core_syntax::Program;
use interleave_core::World;
use std::alloc::Global;
use std::sync::Wait;
use world_lock::{Seat, WorldLock};

/// Claims, evaluates and gives back, until the run is over or memory is wanting. The program is the one of the lock's setup.
/// After each result that settled an entry, `between` does its part. Where nothing can be claimed the thread yields its processor, the
/// more often the longer that lasts. `Over` comes only where the history that the seat has
/// seen replays to a state that is over. The seat that comes back has the shares of the given one, and has seen at least what
/// that had.
pub fn work<R: Wait, G: Gate, B: Between>(
    rt: &R,
    alloc: Global,
    lock: &WorldLock<World>,
    seat: Seat<World>,
    program: &Program,
    worker: u32,
    gate: &G,
    between: &mut B,
) -> Worked
    requires of { IsSeatOf lock.now seat }
    requires program { program.now ≡ lock.now.setup.0 }
    requires under { IfSome (B.under between.old) (λ s. lock.now.setup ≡ s) }
    requires used { IsPrefix (B.used between.old) seat.seen }
    ensures of { IsSeatOf lock.now result.seat }
    ensures shares { result.seat.shares ≡ seat.shares }
    ensures seen { IsPrefix seat.seen result.seat.seen }
    ensures over { result.stop ≡ stops.Over → IsDone lock.now.setup result.seat.seen }
    ensures start { B.start between.new ≡ B.start between.old }
    ensures under { B.under between.new ≡ B.under between.old }
    ensures used { IsPrefix (B.used between.new) result.seat.seen }
{
    let mut mine = seat;
    let mut claimed = None;
    let mut turn = 0u64;
    let mut paused = 0u32;
    for _ in rt.forever() {
        let Round { seat, went, next } = do_round(
            rt, alloc, lock, mine, program, claimed, worker, turn, gate,
        );
        claimed = next;
        paused = pause(went, paused);
        match went {
            Went::Settled => mine = between.after(rt, alloc, lock, seat),
            Went::On | Went::Idle => mine = seat,
            Went::Over => {
                return Worked {
                    seat,
                    stop: Stop::Over,
                };
            }
            Went::Memory => {
                return Worked {
                    seat,
                    stop: Stop::Memory,
                };
            }
        }
        turn = turn.saturating_add(1);
    }
    unreachable!()
}
