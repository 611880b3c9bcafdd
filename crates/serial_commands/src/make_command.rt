ghost use Rattle.command_phases.specs.Seen.{IsLater};
ghost use Rattle.serial_commands.specs.MakeAnswers.{MakeAnswers};
ghost use Rattle.serial_commands.specs.Outside.{seen_before, seen_after};

use crate::outside::Outside;
use command_phases::{Outcome, out_of_memory, tell_text};
use program_maker::make;
use std::alloc::Global;
use world_io::{Files, Sink};

/// Writes the text of the program that is made from that number and that size.
pub fn make_program<'a, F: Files, K: Sink, E: Sink>(
    alloc: Global,
    number: u32,
    size: u32,
    outside: Outside<'a, F, K, E>,
) -> Outcome
    ensures answers { MakeAnswers number size
        (seen_before F.seen K.seen E.seen outside.entry)
        (seen_after F.seen K.seen E.seen outside.exit) result }
    ensures later { IsLater (seen_before F.seen K.seen E.seen outside.entry) (seen_after F.seen K.seen E.seen outside.exit) }
{
    match make(alloc, number, size) {
        Ok(text) => tell_text(alloc, text.items(), outside.out),
        Err(_) => out_of_memory(alloc, outside.err),
    }
}
