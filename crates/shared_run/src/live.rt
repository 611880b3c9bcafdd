ghost use Rattle.std.specs.Prelude.{◌≡◌, ◌≤◌, ℕ, IsSome, false, length, take, true};
ghost use Rattle.std.specs.Io.KnownBytes.{append_known};
ghost use mathlib.Core.List.{IsPrefix};
ghost use Rattle.shared_run.specs.SeenBytes.{bytes_seen, state_seen};
ghost use Rattle.transcript.specs.Written.{CountsLive};
ghost use Rattle.world_io.specs.Counts.{Rose};
ghost use Rattle.world_io.specs.Taken.{CountsWrite};
ghost use Rattle.world_lock.specs.Known.{IsSeatOf};

use interleave_core::World;
use std::alloc::Global;
use std::snapshot::Snapshot;
use std::sync::Wait;
use transcript::{LiveNo, LiveStep, write_live};
use worker_gate::Between;
use world_io::{Failed, Sink};
use world_lock::{Seat, WorldLock};

/// Writes the bytes of a run to a sink while its workers work. What the sink took since the first are the first `written` bytes of
/// the history that a seat has seen, and a write failed only where the sink's count of faults rose since then. After a failed write
/// it writes no more.
#[derive(Drop)]
pub(crate) struct Live<'a, K: Sink> {
    pub(crate) sink: &'a mut K,
    /// The sink when nothing was written.
    pub(crate) first: Snapshot<K>,
    /// The seat that has seen what is written.
    pub(crate) at: Snapshot<Seat<World>>,
    pub(crate) written: u64,
    pub(crate) failed: bool,
    ghost replays: { IsSome (state_seen at.value) },
    ghost within: { written ≤ length (bytes_seen at.value) },
    ghost taken: { (K.seen sink.now).taken ≡ append_known (K.seen first.value).taken (take written (bytes_seen at.value)) },
    ghost unfailed: { failed ≡ false → (K.seen sink.now).faults ≡ (K.seen first.value).faults },
    ghost rose: { failed ≡ true → Rose (K.seen first.value).faults (K.seen sink.now).faults },
    ghost later: { (K.seen first.value).faults ≤ (K.seen sink.now).faults },
}

impl<'a, K: Sink> Between for Live<'a, K> {
    // Which sink it writes to, and what that was when nothing was written.
    type Start = (u64, K);

    ghost start = { λ l. (l.sink.ghost_name, l.first.value) };

    ghost used = { λ l. l.at.value.seen };

    ghost under = { λ l. l.at.value.setup };

    fn after<R: Wait>(
        &mut self,
        rt: &R,
        alloc: Global,
        lock: &WorldLock<World>,
        seat: Seat<World>,
    ) -> Seat<World> {
        if self.failed {
            return seat;
        }
        let mut written = self.written;
        let LiveStep { seat, result } = write_live(rt, alloc, lock, seat, self.sink, &mut written);
        self.written = written;
        self.at = Snapshot::of(&seat);
        self.failed = has_failed(&result);
        seat
    }
}

/// Whether the write failed.
fn has_failed(outcome: &Result<(), LiveNo>) -> bool
    ensures unfailed { (before now : ℕ) → CountsLive outcome.now before now → result ≡ false → now ≡ before }
    ensures rose { (before now : ℕ) → CountsLive outcome.now before now → result ≡ true → Rose before now }
{
    match outcome {
        Err(LiveNo::Failed) => true,
        Err(LiveNo::Memory) => false,
        Ok(()) => false,
    }
}

/// Nothing is written yet of what the seat has seen.
pub(crate) fn begun<'a, K: Sink>(sink: &'a mut K, seat: &Seat<World>) -> Live<'a, K>
    requires { IsSome (state_seen seat.now) }
    ensures same_reference { result.sink.ghost_name ≡ sink.entry.ghost_name }
    ensures now { result.sink.now ≡ sink.old }
    ensures first { result.first.value ≡ sink.old }
    ensures at { result.at.value ≡ seat.now }
{
    Live {
        first: Snapshot::of(&*sink),
        sink,
        at: Snapshot::of(seat),
        written: 0,
        failed: false,
    }
}

/// How many bytes were written, and whether a write failed.
pub(crate) fn closed<'a, K: Sink>(live: Live<'a, K>) -> (u64, Result<(), Failed>)
    ensures now { live.exit.0.now ≡ live.entry.sink.now }
    ensures written { result.0 ≡ live.entry.written }
    ensures later { (K.seen live.entry.first.value).faults ≤ (K.seen live.entry.sink.now).faults }
    ensures counts { CountsWrite result.1 (K.seen live.entry.first.value).faults (K.seen live.entry.sink.now).faults }
{
    let Live {
        written,
        failed,
        ..
    } = live;
    if failed {
        (written, Err(Failed))
    } else {
        (written, Ok(()))
    }
}
