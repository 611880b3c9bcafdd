ghost use Rattle.std.specs.Prelude.{◌≡◌, ◌≤◌, ℕ, IfSome, OnOk, drop};
ghost use Rattle.std.specs.Io.KnownBytes.{append_known};
ghost use mathlib.Core.List.{IsPrefix};
ghost use Rattle.run_end.specs.Over.{IsOverWith};
ghost use Rattle.shared_world.specs.Later.{IsLater};
ghost use Rattle.world_io.specs.Taken.{CountsWrite, TookPrefix};

use interleave_core::World;
use serial_model::End;
use std::alloc::Global;
use transcript::write_rest;
use world_io::{Failed, Sink};

/// How a run came to its end: which end it is, and whether all its bytes were written.
#[derive(Drop)]
pub struct Ended {
    pub end: End,
    pub written: Result<(), Failed>,
}

/// Ends the run by one thread, and writes the bytes behind the first `written`, unless a write before failed. `None` for want of
/// memory, and then nothing is written.
pub(crate) fn end_after<K: Sink>(
    alloc: Global,
    world: &mut World,
    written: u64,
    before: Result<(), Failed>,
    sink: &mut K,
) -> Option<Ended>
    ensures later { IsLater world.old world.new }
    ensures goes_on { IsPrefix world.old.bytes world.new.bytes }
    ensures over { IfSome result (λ ended. IsOverWith world.new ended.end) }
    ensures prefix { TookPrefix (K.seen sink.old).taken (K.seen sink.new).taken (drop written world.new.bytes) }
    ensures whole { IfSome result (λ ended. OnOk ended.written ((K.seen sink.new).taken ≡ append_known (K.seen sink.old).taken (drop written world.new.bytes))) }
    ensures counts { IfSome result (λ ended. (first : ℕ) → CountsWrite before first (K.seen sink.old).faults → CountsWrite ended.written first (K.seen sink.new).faults) }
    ensures faults_later { (K.seen sink.old).faults ≤ (K.seen sink.new).faults }
{
    world.stands();
    let finished = world.finish(alloc);
    world.stands();
    match finished {
        Ok(end) => {
            let written = write_rest(world.output(), written, before, sink);
            Some(Ended { end, written })
        }
        Err(_) => None,
    }
}
