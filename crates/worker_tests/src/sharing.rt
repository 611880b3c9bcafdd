ghost use Rattle.std.specs.Prelude.{◌≡◌, ◌<◌, ◌≤◌};
ghost use Rattle.world_lock.specs.Known.{IsSeatOf};

use core_syntax::Program;
use interleave_core::World;
use scope_check::check;
use serial_model::Limits;
use sexpr_reader::read;
use std::alloc::{AllocError, Global};
use std::sync::{Arc, Wait};
use std::thread::Threads;
use worker_gate::{Gate, NoBetween, Stop, Worked, run_workers};
use world_lock::{Seat, WorldLock};

/// The program of a source.
pub fn program_of(alloc: Global, source: &str) -> Result<Program, AllocError> {
    let forms = read(alloc, source.as_bytes()).map_err(|_| AllocError)?;
    check(alloc, &forms).map_err(|_| AllocError)
}

/// The value of a lock of which no other seat is out.
fn closed(lock: WorldLock<World>, seat: Seat<World>) -> World
    requires of { IsSeatOf lock seat }
    requires all { lock.seats ≤ seat.shares }
{
    match lock.close(seat) {
        Ok(world) => world,
        Err(_) => unreachable!(),
    }
}

/// Whether so many workers bring the world to its end, and it has printed that then, where that is given.
fn shared<R: Threads + Wait + Sync, G: Gate + Sync>(
    rt: &R,
    alloc: Global,
    world: World,
    program: &Program,
    workers: u32,
    gate: &G,
    printed: Option<&str>,
) -> Result<bool, AllocError>
    requires few { workers < 100 }
    requires program { program.now ≡ world.setup.program }
{
    let Ok((lock, seat)) = WorldLock::new(alloc, world, workers + 1) else {
        return Err(AllocError);
    };
    let Worked { seat, stop } = run_workers(
        rt,
        alloc,
        &lock,
        seat,
        program,
        workers,
        gate,
        &mut NoBetween,
    );
    let world = closed(lock, seat);
    Ok(stop == Stop::Over && world.end().is_some() && has_printed(&world, printed))
}

/// Whether the world has printed that, where it is given.
fn has_printed(world: &World, printed: Option<&str>) -> bool {
    match printed {
        Some(text) => world.output() == text.as_bytes(),
        None => true,
    }
}

/// Whether so many workers bring the program to its end, and it has printed that then, where that is given.
pub fn is_shared<R: Threads + Wait + Sync, G: Gate + Sync>(
    rt: &R,
    alloc: Global,
    source: &str,
    workers: u32,
    gate: &G,
    printed: Option<&str>,
) -> Result<bool, AllocError>
    requires { workers < 100 }
{
    let program = Arc::new(alloc, program_of(alloc, source)?)?;
    let world = World::new(alloc, program.clone()?, Limits::default())?;
    shared(rt, alloc, world, &program, workers, gate, printed)
}
