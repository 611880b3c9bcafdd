ghost use Rattle.std.specs.Prelude.{◌≡◌, None};
ghost use Rattle.command_phases.specs.LineWritten.{SaysLine};
ghost use Rattle.command_phases.specs.Lines.{cannot_read_line, memory_line, detail_line, load_line, pair_line};
ghost use Rattle.command_phases.specs.Outcome.{load_status, load_detail, pair_status, pair_detail};
ghost use Rattle.command_phases.specs.Status as exit;
ghost use Rattle.command_phases.specs.Unrun.{IsUnrun};

use crate::lines::{say_memory, say_not_read, say_refused};
use crate::load::LoadNo;
use crate::load_pair::PairNo;
use crate::outcome::{Detail, Outcome, Part};
use crate::status::{NO_MEMORY, NOT_READ, REFUSED};
use serial_model::History;
use std::alloc::Global;
use value_core::Text;
use world_io::Sink;

/// The outcome where the file of that name gives no program.
pub fn without_program<E: Sink>(alloc: Global, error: LoadNo, name: &Text, err: &mut E) -> Outcome
    ensures outcome { IsUnrun (load_status error) (load_detail error) result }
    ensures says { SaysLine (load_line name.now error) (E.seen err.old) (E.seen err.new) }
{
    match error {
        LoadNo::NotRead => not_read(alloc, name, err),
        LoadNo::Refused { kind, at } => refuse(alloc, Detail::refused(kind, at), err),
        LoadNo::OutOfScope { kind, at } => refuse(alloc, Detail::out_of_scope(kind, at), err),
        LoadNo::Memory => out_of_memory(alloc, err),
    }
}

/// The outcome where the files of these names give nothing to run. The second one is read as that part.
pub fn without_pair<E: Sink>(
    alloc: Global,
    error: PairNo,
    part: Part,
    file: &Text,
    second: &Text,
    err: &mut E,
) -> Outcome
    ensures outcome { IsUnrun (pair_status error) (pair_detail part error) result }
    ensures says { SaysLine (pair_line part file.now second.now error) (E.seen err.old) (E.seen err.new) }
{
    match error {
        PairNo::Source(error) => without_program(alloc, error, file, err),
        PairNo::NotRead => not_read(alloc, second, err),
        PairNo::Refused { kind, line } => {
            refuse(alloc, Detail::refused_lines(part, kind, line), err)
        }
    }
}

/// Says that the file of that name was not read.
fn not_read<E: Sink>(alloc: Global, name: &Text, err: &mut E) -> Outcome
    ensures outcome { IsUnrun exit.not_read Detail.Nothing result }
    ensures says { SaysLine (cannot_read_line name.now) (E.seen err.old) (E.seen err.new) }
{
    say_not_read(err, name.items());
    Outcome::without_run(alloc, NOT_READ, Detail::Nothing)
}

/// Refuses what the detail says.
fn refuse<E: Sink>(alloc: Global, detail: Detail, err: &mut E) -> Outcome
    ensures outcome { IsUnrun exit.refused detail result }
    ensures says { SaysLine (detail_line detail) (E.seen err.old) (E.seen err.new) }
{
    say_refused(err, &detail);
    Outcome::without_run(alloc, REFUSED, detail)
}

/// Says that there is no memory.
pub fn out_of_memory<E: Sink>(alloc: Global, err: &mut E) -> Outcome
    ensures outcome { IsUnrun exit.no_memory Detail.Nothing result }
    ensures says { SaysLine memory_line (E.seen err.old) (E.seen err.new) }
{
    say_memory(err);
    Outcome::without_run(alloc, NO_MEMORY, Detail::Nothing)
}

/// The outcome of a run or a replay that stopped after this history for want of memory, which it says.
pub fn stopped_after<E: Sink>(history: History, err: &mut E) -> Outcome
    ensures status { result.status ≡ exit.no_memory }
    ensures detail { result.detail ≡ Detail.Nothing }
    ensures history { result.history ≡ history }
    ensures end { result.end ≡ None }
    ensures says { SaysLine memory_line (E.seen err.old) (E.seen err.new) }
{
    say_memory(err);
    Outcome {
        status: NO_MEMORY,
        history,
        end: None,
        detail: Detail::Nothing,
    }
}
