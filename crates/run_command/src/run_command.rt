ghost use Rattle.std.specs.Prelude.{◌≡◌, IfSome, Some};
ghost use Rattle.shared_run.specs.declared.ending.Ended.{Ended as Ending};
ghost use Rattle.command_phases.specs.Lines.{end_line};
ghost use Rattle.command_phases.specs.SaysOutcome.{SaysOutcome};
ghost use Rattle.command_phases.specs.Seen.{IsLater};
ghost use Rattle.serial_commands.specs.Outside.{seen_before, seen_after};
ghost use Rattle.run_command.specs.ProgramAnswers.{ProgramAnswers};
ghost use Rattle.run_command.specs.RunAnswers.{RunAnswers};

use crate::opening::opened;
use command_phases::{
    Outcome, Ran, end_line, end_run, load_program, out_of_memory, stopped_after, without_program,
};
use core_syntax::Program;
use interleave_core::World;
use serial_commands::Outside;
use serial_model::{End, Limits, Trace};
use shared_run::{Ended, SharedRun, run_shared};
use std::alloc::Global;
use std::sync::Wait;
use std::thread::Threads;
use value_core::Text;
use worker_gate::Gate;
use world_io::{Failed, Files, Sink};

/// Runs the program of that file by so many workers within the limits, and keeps the trace of the run under the name that is given
/// for it.
pub fn run_file<'a, R: Threads + Wait + Sync, F: Files, K: Sink + Send, E: Sink, G: Gate + Sync>(
    rt: &R,
    alloc: Global,
    file: &Text,
    workers: u32,
    limits: Limits,
    trace: &Option<Text>,
    outside: Outside<'a, F, K, E>,
    gate: &G,
) -> Outcome
    ensures answers { RunAnswers file.now limits trace.now
        (seen_before F.seen K.seen E.seen outside.entry)
        (seen_after F.seen K.seen E.seen outside.exit) result }
    ensures later { IsLater (seen_before F.seen K.seen E.seen outside.entry) (seen_after F.seen K.seen E.seen outside.exit) }
{
    match load_program(alloc, outside.files, file) {
        Ok(program) => run_program(rt, alloc, program, workers, limits, trace, outside, gate),
        Err(error) => without_program(alloc, error, file, outside.err),
    }
}

/// Runs the program by so many workers, and writes what it prints, its trace and the line of its end.
pub fn run_program<'a, R: Threads + Wait + Sync, F: Files, K: Sink + Send, E: Sink, G: Gate + Sync>(
    rt: &R,
    alloc: Global,
    program: Program,
    workers: u32,
    limits: Limits,
    trace: &Option<Text>,
    outside: Outside<'a, F, K, E>,
    gate: &G,
) -> Outcome
    ensures answers { ProgramAnswers (record { program = program; limits = limits }) trace.now
        (seen_before F.seen K.seen E.seen outside.entry)
        (seen_after F.seen K.seen E.seen outside.exit) result }
    ensures says { SaysOutcome result.status result.detail result.end
        (seen_before F.seen K.seen E.seen outside.entry).err
        (seen_after F.seen K.seen E.seen outside.exit).err }
    ensures later { IsLater (seen_before F.seen K.seen E.seen outside.entry) (seen_after F.seen K.seen E.seen outside.exit) }
{
    match opened(alloc, program, limits) {
        Ok((world, program)) => {
            run_world(
                rt, alloc, world, &program, workers, limits, trace, outside, gate,
            )
        }
        Err(_) => out_of_memory(alloc, outside.err),
    }
}

/// Lets so many workers share the world and ends the run, and writes what it prints, its trace and the line of its end.
fn run_world<'a, R: Threads + Wait + Sync, F: Files, K: Sink + Send, E: Sink, G: Gate + Sync>(
    rt: &R,
    alloc: Global,
    world: World,
    program: &Program,
    workers: u32,
    limits: Limits,
    trace: &Option<Text>,
    outside: Outside<'a, F, K, E>,
    gate: &G,
) -> Outcome
    requires setup { world.setup ≡ record { program = program.now; limits = limits } }
    ensures answers { ProgramAnswers (record { program = program.now; limits = limits }) trace.now
        (seen_before F.seen K.seen E.seen outside.entry)
        (seen_after F.seen K.seen E.seen outside.exit) result }
    ensures says { SaysOutcome result.status result.detail result.end
        (seen_before F.seen K.seen E.seen outside.entry).err
        (seen_after F.seen K.seen E.seen outside.exit).err }
    ensures later { IsLater (seen_before F.seen K.seen E.seen outside.entry) (seen_after F.seen K.seen E.seen outside.exit) }
{
    let Outside { files, out, err } = outside;
    let SharedRun { world, ended } = run_shared(rt, alloc, world, program, workers, gate, out);
    world.stands();
    let Some(over) = with_line(alloc, ended) else {
        return stopped_after(world.into_history(), err);
    };
    let history = world.into_history();
    let Over { end, line, written } = over;
    let ran = Ran {
        trace: Trace {
            limits,
            history,
            end,
        },
        report: Text::new(alloc),
        line,
    };
    end_run(alloc, written, ran, trace, files, err)
}

/// How a run came to its end: the end, its line, and whether its bytes were written.
#[derive(Drop)]
struct Over {
    end: End,
    line: Vec<u8>,
    written: Result<(), Failed>,
    ghost of_end: { line.items ≡ end_line end },
}

/// The end of a run with its line, where it came to one and there is memory for that.
fn with_line(alloc: Global, ended: Option<Ended>) -> Option<Over>
    ensures { IfSome result (λ over. ended ≡ Some (record { end = over.end; written = over.written })) }
{
    let Ended { end, written } = ended?;
    let line = end_line(alloc, &end).ok()?;
    Some(Over { end, line, written })
}
