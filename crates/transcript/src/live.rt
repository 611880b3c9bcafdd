ghost use Rattle.std.specs.Prelude.{◌≡◌, ◌≤◌, ℕ, List, Option, IsSome, OnOk, length};
ghost use mathlib.Core.List.{IsPrefix};
ghost use Rattle.interleave_core.specs.Grown.{setup_of};
ghost use Rattle.serial_model.specs.Replay.{replay};
ghost use Rattle.transcript.specs.Written.{CountsLive, HasWritten, HasWrittenAll, IsTaken, IsTakenWhole, IsUntaken};
ghost use Rattle.world_lock.specs.Known.{IsSeatOf};

use crate::behind::{Behind, bytes_behind};
use crate::counted::{Counted, write_counted};
use interleave_core::World;
use std::alloc::Global;
use std::sync::Wait;
use world_io::Sink;
use world_lock::{Seat, WorldLock};

/// Why a live write stopped.
#[derive(Clone, Copy, Debug, PartialEq, Eq)]
pub enum LiveNo {
    /// A write failed.
    Failed,
    /// Memory is wanting, and nothing is written.
    Memory,
}

/// A seat after a live write, and how that went.
#[derive(Drop)]
pub struct LiveStep {
    pub seat: Seat<World>,
    pub result: Result<(), LiveNo>,
}

/// Enters, copies the bytes of the world behind the first `written`, leaves, and writes them. The bytes that the sink took
/// since `written` was 0 are always the first `written` bytes of a history that the seat has seen; with `Ok` they are all the
/// bytes of the history that it has then seen, which replays. `Failed` comes only where the count of the sink's faults rose; with
/// `Memory` the sink took nothing. The seat that comes back has the shares of the given one, and has seen at least what that had.
pub fn write_live<R: Wait, K: Sink>(
    rt: &R,
    alloc: Global,
    lock: &WorldLock<World>,
    seat: Seat<World>,
    sink: &mut K,
    written: &mut u64,
) -> LiveStep
    requires of { IsSeatOf lock.now seat }
    ensures of { IsSeatOf lock.now result.seat }
    ensures shares { result.seat.shares ≡ seat.shares }
    ensures seen { IsPrefix seat.seen result.seat.seen }
    ensures replays { IsSome (replay (setup_of lock.now.setup) result.seat.seen) }
    ensures kept { (start : Option (List ℕ)) → HasWritten lock.now.setup start (K.seen sink.old).taken written.old seat.seen
        → HasWritten lock.now.setup start (K.seen sink.new).taken written.new result.seat.seen }
    ensures whole { OnOk result.result ((start : Option (List ℕ)) → HasWritten lock.now.setup start (K.seen sink.old).taken written.old seat.seen
        → HasWrittenAll lock.now.setup start (K.seen sink.new).taken written.new result.seat.seen) }
    ensures counts { CountsLive result.result (K.seen sink.old).faults (K.seen sink.new).faults }
    ensures faults_later { (K.seen sink.old).faults ≤ (K.seen sink.new).faults }
    ensures memory { IsUntaken result.result (K.seen sink.old).taken (K.seen sink.new).taken written.old written.new }
{
    let Behind { seat, total, bytes } = bytes_behind(rt, alloc, lock, seat, *written);
    match bytes {
        Ok(bytes) => {
            let result = write_behind(bytes.as_slice(), total, sink, written);
            LiveStep { seat, result }
        }
        Err(_) => LiveStep {
            seat,
            result: Err(LiveNo::Memory),
        },
    }
}

/// Writes the bytes, which are those behind the first `written` of so many, and counts what the sink took.
fn write_behind<K: Sink>(
    bytes: &[u8],
    total: usize,
    sink: &mut K,
    written: &mut u64,
) -> Result<(), LiveNo>
    requires { length bytes.now ≤ total }
    ensures taken { IsTaken bytes.now total (K.seen sink.old).taken (K.seen sink.new).taken written.new }
    ensures whole { OnOk result (IsTakenWhole bytes.now total (K.seen sink.old).taken (K.seen sink.new).taken written.new) }
    ensures counts { CountsLive result (K.seen sink.old).faults (K.seen sink.new).faults }
    ensures faults_later { (K.seen sink.old).faults ≤ (K.seen sink.new).faults }
    ensures memory { IsUntaken result (K.seen sink.old).taken (K.seen sink.new).taken written.old written.new }
{
    let Counted { count, outcome } = write_counted(bytes, sink);
    *written = (total - (bytes.len() - count)) as u64;
    outcome.map_err(|_| LiveNo::Failed)
}
