ghost use Rattle.std.specs.Prelude.{◌≡◌, IfOk, drop};
ghost use mathlib.Core.List.{IsPrefix};
ghost use Rattle.transcript.specs.Written.{IsBehind, IsPrinted};
ghost use Rattle.world_lock.specs.Known.{IsSeatOf};

use interleave_core::World;
use std::alloc::{AllocError, Global};
use std::sync::Wait;
use world_lock::{Seat, WorldLock};

/// A seat after a hold, how many bytes the world had printed then, and a copy of those behind the first so many.
#[derive(Drop)]
pub(crate) struct Behind {
    pub(crate) seat: Seat<World>,
    pub(crate) total: usize,
    pub(crate) bytes: Result<Vec<u8>, AllocError>,
}

/// Enters, copies the bytes of the world behind the first `written`, and leaves.
pub(crate) fn bytes_behind<R: Wait>(
    rt: &R,
    alloc: Global,
    lock: &WorldLock<World>,
    seat: Seat<World>,
    written: u64,
) -> Behind
    requires { IsSeatOf lock.now seat }
    ensures of { IsSeatOf lock.now result.seat }
    ensures shares { result.seat.shares ≡ seat.shares }
    ensures seen { IsPrefix seat.seen result.seat.seen }
    ensures printed { IsPrinted lock.now.setup result.seat.seen result.total }
    ensures bytes { IfOk result.bytes (λ v. IsBehind lock.now.setup result.seat.seen written v.items) }
{
    let mut turn = lock.enter(rt, seat);
    let world = turn.value();
    world.stands();
    let total = world.output().len();
    let bytes = Vec::from_slice(alloc, bytes_from(world.output(), written));
    Behind {
        seat: lock.leave(turn),
        total,
        bytes,
    }
}

/// The bytes behind the first so many.
pub(crate) fn bytes_from(bytes: &[u8], from: u64) -> &[u8]
    ensures { result.now ≡ drop from bytes.now }
{
    match bytes.get(from as usize..) {
        Some(rest) => rest,
        None => &[],
    }
}
