ghost use Rattle.std.specs.Prelude.{◌≡◌, ◌<◌, ◌≤◌, ℕ, IsSome, Some, length, take};
ghost use Rattle.std.specs.Io.KnownBytes.{append_known};
ghost use mathlib.Core.List.{IsPrefix};
ghost use Rattle.interleave_core.specs.Grown.{setup_of, setup_seen};
ghost use Rattle.serial_model.specs.Replay.{replay};
ghost use Rattle.shared_world.specs.Later.{IsLater};
ghost use Rattle.transcript.specs.Written.{HasWritten};
ghost use Rattle.world_io.specs.Taken.{CountsWrite};
ghost use Rattle.world_lock.specs.Known.{IsSeatOf};

use crate::live::{Live, begun, closed};
use core_syntax::Program;
use interleave_core::World;
use std::alloc::Global;
use std::sync::Wait;
use std::thread::Threads;
use worker_gate::{Gate, run_workers};
use world_io::{Failed, Sink};
use world_lock::{Seat, WorldLock};

/// A world that workers have shared, how many of its bytes were written, and whether a write failed.
#[derive(Drop)]
pub(crate) struct Shared {
    pub(crate) world: World,
    pub(crate) written: u64,
    pub(crate) outcome: Result<(), Failed>,
}

/// Lets so many workers share the world, and writes its bytes while they work. Where there is no memory for a lock of so many
/// seats nothing is done.
pub(crate) fn share<R: Threads + Wait + Sync, K: Sink + Send, G: Gate + Sync>(
    rt: &R,
    alloc: Global,
    world: World,
    program: &Program,
    workers: u32,
    gate: &G,
    sink: &mut K,
) -> Shared
    requires { program.now ≡ world.setup.program }
    ensures later { IsLater world result.world }
    ensures within { result.written ≤ length result.world.bytes }
    ensures taken { (K.seen sink.new).taken ≡ append_known (K.seen sink.old).taken (take result.written result.world.bytes) }
    ensures counts { CountsWrite result.outcome (K.seen sink.old).faults (K.seen sink.new).faults }
    ensures faults_later { (K.seen sink.old).faults ≤ (K.seen sink.new).faults }
{
    world.stands();
    let Some(seats) = workers.checked_add(1) else {
        return unshared(world);
    };
    match WorldLock::new(alloc, world, seats) {
        Ok((lock, seat)) => share_under(rt, alloc, lock, seat, program, workers, gate, sink),
        Err(world) => unshared(world),
    }
}

/// The world that no worker has shared.
fn unshared(world: World) -> Shared
    ensures world { result.world ≡ world }
    ensures written { result.written ≡ 0 }
    ensures counts { (count : ℕ) → CountsWrite result.outcome count count }
{
    Shared {
        world,
        written: 0,
        outcome: Ok(()),
    }
}

/// Lets so many workers share the world of the lock, and writes its bytes while they work. The seat is its only one.
fn share_under<R: Threads + Wait + Sync, K: Sink + Send, G: Gate + Sync>(
    rt: &R,
    alloc: Global,
    lock: WorldLock<World>,
    seat: Seat<World>,
    program: &Program,
    workers: u32,
    gate: &G,
    sink: &mut K,
) -> Shared
    requires of { IsSeatOf lock seat }
    requires all { (lock.seats ≤ seat.shares) × (workers < seat.shares) }
    requires program { program.now ≡ lock.setup.0 }
    requires replays { IsSome (replay (setup_of lock.setup) seat.seen) }
    ensures setup { setup_seen result.world ≡ lock.setup }
    ensures seen { IsPrefix seat.seen result.world.history }
    ensures within { result.written ≤ length result.world.bytes }
    ensures taken { (K.seen sink.new).taken ≡ append_known (K.seen sink.old).taken (take result.written result.world.bytes) }
    ensures counts { CountsWrite result.outcome (K.seen sink.old).faults (K.seen sink.new).faults }
    ensures faults_later { (K.seen sink.old).faults ≤ (K.seen sink.new).faults }
{
    let Left {
        seat,
        written,
        outcome,
    } = work_live(rt, alloc, &lock, seat, program, workers, gate, sink);
    let world = taken_out(lock, seat);
    world.stands();
    Shared {
        world,
        written,
        outcome,
    }
}

/// What workers leave: the seat, how many bytes were written, and whether a write failed.
#[derive(Drop)]
struct Left {
    seat: Seat<World>,
    written: u64,
    outcome: Result<(), Failed>,
}

/// Lets so many workers go on by the seat, and writes the bytes of their world while they work.
fn work_live<R: Threads + Wait + Sync, K: Sink + Send, G: Gate + Sync>(
    rt: &R,
    alloc: Global,
    lock: &WorldLock<World>,
    seat: Seat<World>,
    program: &Program,
    workers: u32,
    gate: &G,
    sink: &mut K,
) -> Left
    requires of { IsSeatOf lock.now seat }
    requires shares { workers < seat.shares }
    requires program { program.now ≡ lock.now.setup.0 }
    requires replays { IsSome (replay (setup_of lock.now.setup) seat.seen) }
    ensures of { IsSeatOf lock.now result.seat }
    ensures shares { result.seat.shares ≡ seat.shares }
    ensures seen { IsPrefix seat.seen result.seat.seen }
    ensures wrote { HasWritten lock.now.setup (K.seen sink.old).taken (K.seen sink.new).taken result.written result.seat.seen }
    ensures counts { CountsWrite result.outcome (K.seen sink.old).faults (K.seen sink.new).faults }
    ensures faults_later { (K.seen sink.old).faults ≤ (K.seen sink.new).faults }
{
    let mut live = begun(sink, &seat);
    let seat = work_all(rt, alloc, lock, seat, program, workers, gate, &mut live);
    let (written, outcome) = closed(live);
    Left {
        seat,
        written,
        outcome,
    }
}

/// Lets so many workers go on by the seat, the first of which writes between its holds.
fn work_all<R: Threads + Wait + Sync, K: Sink + Send, G: Gate + Sync>(
    rt: &R,
    alloc: Global,
    lock: &WorldLock<World>,
    seat: Seat<World>,
    program: &Program,
    workers: u32,
    gate: &G,
    live: &mut Live<'_, K>,
) -> Seat<World>
    requires of { IsSeatOf lock.now seat }
    requires shares { workers < seat.shares }
    requires program { program.now ≡ lock.now.setup.0 }
    requires setup { live.old.at.value.setup ≡ Some lock.now.setup }
    requires used { IsPrefix live.old.at.value.seen seat.seen }
    ensures of { IsSeatOf lock.now result }
    ensures shares { result.shares ≡ seat.shares }
    ensures seen { IsPrefix seat.seen result.seen }
    ensures same_reference { live.new.sink.ghost_name ≡ live.old.sink.ghost_name }
    ensures first { live.new.first.value ≡ live.old.first.value }
    ensures setup { live.new.at.value.setup ≡ Some lock.now.setup }
    ensures used { IsPrefix live.new.at.value.seen result.seen }
{
    run_workers(rt, alloc, lock, seat, program, workers, gate, live).seat
}

/// The world of a lock of which no other seat is out.
fn taken_out(lock: WorldLock<World>, seat: Seat<World>) -> World
    requires of { IsSeatOf lock seat }
    requires all { lock.seats ≤ seat.shares }
    ensures setup { setup_seen result ≡ lock.setup }
    ensures seen { IsPrefix seat.seen result.history }
{
    match lock.close(seat) {
        Ok(world) => world,
        Err(_) => unreachable!(),
    }
}
