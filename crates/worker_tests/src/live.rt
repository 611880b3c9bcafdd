use crate::gates::{Holding, Noting};
use crate::sharing::program_of;
use crate::sinks::Counting;
use interleave_core::World;
use serial_model::{End, Limits};
use shared_run::{Ended, SharedRun, run_shared};
use std::alloc::{AllocError, Global};
use std::sync::atomic::AtomicU64;
use std::sync::{Arc, Wait};
use std::test::Fail;
use std::thread::Threads;
use worker_gate::{Gate, NoGate};
use world_io::{CallList, MemSink, Sink};

// Two plain tasks, each of which prints the same three times.
const TWO_TASKS: &str =
    "(def a (fork (do (println 1) (println 1) (println 1)))) (def b (fork (do (println 1) (println 1) (println 1)))) (join a) (join b)";

/// Runs the source by so many workers, and answers how it came to its end.
fn run_by<R: Threads + Wait + Sync, K: Sink + Send, G: Gate + Sync>(
    rt: &R,
    alloc: Global,
    source: &str,
    workers: u32,
    gate: &G,
    sink: &mut K,
) -> Result<Option<Ended>, AllocError> {
    let program = Arc::new(alloc, program_of(alloc, source)?)?;
    let world = World::new(alloc, program.clone()?, Limits::default())?;
    let SharedRun { world, ended } = run_shared(rt, alloc, world, &program, workers, gate, sink);
    drop(world);
    Ok(ended)
}

/// Whether the run came to its end and is done, and whether its bytes were written.
fn is_done(ended: Option<Ended>, written: bool) -> bool {
    match ended {
        Some(
            Ended {
                end: End::Done,
                written: outcome,
            },
        ) => outcome.is_ok() == written,
        _ => false,
    }
}

#[test]
fn bytes_go_out_while_a_worker_is_at_the_gate(rt: HostRuntime) -> Result<(), Fail> {
    let count = AtomicU64::new(0);
    let gate = Noting::new(&count);
    let mut sink = Counting { count: &count };
    let ended = run_by(
        &rt,
        rt.alloc(),
        "(println 1) (println 2) (println 3)",
        1,
        &gate,
        &mut sink,
    )?;
    assert!(rt; is_done(ended, true));
    assert!(rt; gate.noted() > 0);
    Ok(())
}

#[test]
fn two_workers_take_part_and_their_bytes_go_out(rt: HostRuntime) -> Result<(), Fail> {
    let gate = Holding::new();
    let mut sink = MemSink::new(rt.alloc(), 100, 100, CallList::new(rt.alloc()))?;
    let ended = run_by(&rt, rt.alloc(), TWO_TASKS, 2, &gate, &mut sink)?;
    assert!(rt; is_done(ended, true));
    assert!(rt; gate.saw_two());
    assert!(rt; sink.taken() == b"1\n1\n1\n1\n1\n1\n".as_slice());
    Ok(())
}

#[test]
fn a_sink_that_failed_gets_no_more(rt: HostRuntime) -> Result<(), Fail> {
    for workers in [1, 4, 64] {
        let fails = CallList::from_slice(rt.alloc(), &[1])?;
        let mut sink = MemSink::new(rt.alloc(), 1, 100, fails)?;
        let ended = run_by(
            &rt,
            rt.alloc(),
            "(println 1) (println 2)",
            workers,
            &NoGate,
            &mut sink,
        )?;
        assert!(rt; is_done(ended, false));
        assert!(rt; sink.taken() == b"1".as_slice());
    }
    Ok(())
}
