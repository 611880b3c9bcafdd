ghost use Rattle.std.specs.Prelude.{◌≤◌};
ghost use Rattle.command_phases.specs.Seen.{IsLater};
ghost use Rattle.serial_commands.specs.Outside.{seen_before, seen_after};
ghost use Rattle.stress_command.specs.StressAnswers.{StressAnswers};

use command_phases::{Outcome, out_of_memory, program_in, without_program};
use program_maker::make;
use run_command::run_program;
use serial_commands::Outside;
use serial_model::Limits;
use std::alloc::Global;
use std::sync::Wait;
use std::thread::Threads;
use value_core::Text;
use worker_gate::Gate;
use world_io::{Files, Sink};

/// Runs the program that is made from that number and that size, by so many workers within the default limits. No trace is kept. It is said
/// of sizes up to 10,000, of which each is known to make a program: a command line says no other.
pub fn stress_program<
    'a,
    R: Threads + Wait + Sync,
    F: Files,
    K: Sink + Send,
    E: Sink,
    G: Gate + Sync,
>(
    rt: &R,
    alloc: Global,
    number: u32,
    size: u32,
    workers: u32,
    outside: Outside<'a, F, K, E>,
    gate: &G,
) -> Outcome
    ensures answers { size ≤ 10000 → StressAnswers number size
        (seen_before F.seen K.seen E.seen outside.entry)
        (seen_after F.seen K.seen E.seen outside.exit) result }
    ensures later { IsLater (seen_before F.seen K.seen E.seen outside.entry) (seen_after F.seen K.seen E.seen outside.exit) }
{
    let Ok(text) = make(alloc, number, size) else {
        return out_of_memory(alloc, outside.err);
    };
    match program_in(alloc, text.items()) {
        Ok(program) => {
            let limits = Limits::default();
            run_program(rt, alloc, program, workers, limits, &None, outside, gate)
        }
        Err(error) => without_program(alloc, error, &Text::new(alloc), outside.err),
    }
}
