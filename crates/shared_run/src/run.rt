ghost use Rattle.std.specs.Prelude.{◌≡◌, ◌≤◌, IfSome, OnOk};
ghost use Rattle.std.specs.Io.KnownBytes.{append_known};
ghost use Rattle.run_end.specs.Over.{IsOverWith};
ghost use Rattle.shared_world.specs.Later.{IsLater};
ghost use Rattle.world_io.specs.Taken.{CountsWrite, TookPrefix};

use crate::ending::{Ended, end_after};
use crate::sharing::{Shared, share};
use core_syntax::Program;
use interleave_core::World;
use std::alloc::Global;
use std::sync::Wait;
use std::thread::Threads;
use worker_gate::Gate;
use world_io::Sink;

/// A world after its run, and how that came to its end: `None` where memory was wanting.
#[derive(Drop)]
pub struct SharedRun {
    pub world: World,
    pub ended: Option<Ended>,
}

/// Lets so many workers share the world, and then ends the run by one thread, whatever they did. The bytes go to the sink while they
/// work, and the rest of them at the end: what it took is always a front of the bytes of the world that is left, and all of them
/// where the run came to its end and no write failed. The program is the world's. It waits for the lock of the world.
pub fn run_shared<R: Threads + Wait + Sync, K: Sink + Send, G: Gate + Sync>(
    rt: &R,
    alloc: Global,
    world: World,
    program: &Program,
    workers: u32,
    gate: &G,
    sink: &mut K,
) -> SharedRun
    requires { program.now ≡ world.setup.program }
    ensures later { IsLater world result.world }
    ensures over { IfSome result.ended (λ ended. IsOverWith result.world ended.end) }
    ensures prefix { TookPrefix (K.seen sink.old).taken (K.seen sink.new).taken result.world.bytes }
    ensures whole { IfSome result.ended (λ ended. OnOk ended.written ((K.seen sink.new).taken ≡ append_known (K.seen sink.old).taken result.world.bytes)) }
    ensures counts { IfSome result.ended (λ ended. CountsWrite ended.written (K.seen sink.old).faults (K.seen sink.new).faults) }
    ensures faults_later { (K.seen sink.old).faults ≤ (K.seen sink.new).faults }
{
    let Shared {
        mut world,
        written,
        outcome,
    } = share(rt, alloc, world, program, workers, gate, sink);
    let ended = end_after(alloc, &mut world, written, outcome, sink);
    SharedRun { world, ended }
}
