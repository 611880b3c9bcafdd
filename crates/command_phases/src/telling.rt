ghost use Rattle.command_phases.specs.Check.{check_line};
ghost use Rattle.command_phases.specs.Told.{IsTold};

use crate::lines::write_counts;
use crate::outcome::{Detail, Outcome};
use crate::status::{DONE, NOT_WRITTEN};
use core_syntax::Program;
use std::alloc::Global;
use world_io::{Sink, write_all};

/// Tells how many functions, behaviours and globals the program has.
pub fn tell_counts<K: Sink>(alloc: Global, program: &Program, out: &mut K) -> Outcome
    ensures { IsTold (check_line program.now) (K.seen out.old) (K.seen out.new) result }
{
    match write_counts(out, program) {
        Ok(()) => Outcome::without_run(alloc, DONE, Detail::Nothing),
        Err(_) => Outcome::without_run(alloc, NOT_WRITTEN, Detail::Nothing),
    }
}

/// Writes the text to standard output, and nothing else.
pub fn tell_text<K: Sink>(alloc: Global, text: &[u8], out: &mut K) -> Outcome
    ensures { IsTold text.now (K.seen out.old) (K.seen out.new) result }
{
    match write_all(text, out) {
        Ok(()) => Outcome::without_run(alloc, DONE, Detail::Nothing),
        Err(_) => Outcome::without_run(alloc, NOT_WRITTEN, Detail::Nothing),
    }
}
