ghost use Rattle.command_phases.specs.Seen.{IsLater};
ghost use Rattle.serial_commands.specs.CheckAnswers.{CheckAnswers};
ghost use Rattle.serial_commands.specs.Outside.{seen_before, seen_after};

use crate::outside::Outside;
use command_phases::{Outcome, load_program, tell_counts, without_program};
use std::alloc::Global;
use value_core::Text;
use world_io::{Files, Sink};

/// Checks the program of that file, and tells how much it defines.
pub fn check_file<'a, F: Files, K: Sink, E: Sink>(
    alloc: Global,
    file: &Text,
    outside: Outside<'a, F, K, E>,
) -> Outcome
    ensures answers { CheckAnswers file.now
        (seen_before F.seen K.seen E.seen outside.entry)
        (seen_after F.seen K.seen E.seen outside.exit) result }
    ensures later { IsLater (seen_before F.seen K.seen E.seen outside.entry) (seen_after F.seen K.seen E.seen outside.exit) }
{
    match load_program(alloc, outside.files, file) {
        Ok(program) => tell_counts(alloc, &program, outside.out),
        Err(error) => without_program(alloc, error, file, outside.err),
    }
}
