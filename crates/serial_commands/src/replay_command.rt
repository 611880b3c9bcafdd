ghost use Rattle.std.specs.Prelude.{◌≡◌, ◌⊎◌, ◌+◌, None, Some, IfSome, IsSome, length};
ghost use Rattle.serial_model.specs.Replay.{IsOver};
ghost use Rattle.serial_machine.specs.Progress.{state_of};
ghost use Rattle.command_phases.specs.LineWritten.{SaysLine};
ghost use Rattle.command_phases.specs.Lines.{memory_line};
ghost use Rattle.command_phases.specs.Outcome.{IsEnded, Finished};
ghost use Rattle.command_phases.specs.Seen.{IsLater};
ghost use Rattle.command_phases.specs.Status as exit;
ghost use Rattle.serial_commands.specs.Outside.{seen_before, seen_after};
ghost use Rattle.serial_commands.specs.ReplayAnswers.{ReplayAnswers, ReplayOf};
ghost use Rattle.serial_commands.specs.ReplayWritten.{ReplayWritten};

use crate::outside::Outside;
use crate::replay::{Replayed, opened, replay};
use command_phases::{
    Detail, Given, Outcome, Part, end_line, load_replay, out_of_memory, say_differs, say_end,
    stopped_after, without_pair,
};
use serial_machine::Serial;
use serial_model::{End, Entry};
use std::alloc::Global;
use value_core::Text;
use world_io::{Files, Sink, write_all};

/// Replays the trace of that name on the program of that file.
pub fn replay_file<'a, F: Files, K: Sink, E: Sink>(
    alloc: Global,
    file: &Text,
    trace: &Text,
    outside: Outside<'a, F, K, E>,
) -> Outcome
    ensures answers { ReplayAnswers file.now trace.now
        (seen_before F.seen K.seen E.seen outside.entry)
        (seen_after F.seen K.seen E.seen outside.exit) result }
    ensures later { IsLater (seen_before F.seen K.seen E.seen outside.entry) (seen_after F.seen K.seen E.seen outside.exit) }
{
    let Outside { files, out, err } = outside;
    let given = match load_replay(alloc, files, file, trace) {
        Ok(given) => given,
        Err(error) => return without_pair(alloc, error, Part::Trace, file, trace, err),
    };
    replay_given(alloc, given, out, err)
}

/// Replays what is given, and writes what it printed and its line.
fn replay_given<K: Sink, E: Sink>(alloc: Global, given: Given, out: &mut K, err: &mut E) -> Outcome
    ensures replay { ReplayOf given.program given.trace (K.seen out.old) (K.seen out.new) result }
    ensures writes { ReplayWritten (K.seen out.old) (K.seen out.new) (E.seen err.old) (E.seen err.new) result }
{
    let Given { program, trace } = given;
    let Ok(mut serial) = opened(alloc, program, trace.limits) else {
        return out_of_memory(alloc, err);
    };
    match replay(alloc, &mut serial, &trace) {
        Some(Replayed::Agrees) => agree(alloc, serial, trace.end, out, err),
        Some(Replayed::Differs(found)) => differ(serial, trace.end, found, out, err),
        None => stopped(serial, err),
    }
}

/// The outcome of a replay that agrees with its trace: its bytes are written, and then the line of its end.
fn agree<K: Sink, E: Sink>(
    alloc: Global,
    serial: Serial,
    end: End,
    out: &mut K,
    err: &mut E,
) -> Outcome
    requires replays { IsSome (state_of serial) }
    requires over { IfSome (state_of serial) (λ s. IsOver serial.setup s end) }
    ensures statuses { IsEnded result.status ⊎ (result.status ≡ exit.no_memory) }
    ensures finished { Finished serial.setup (K.seen out.old) (K.seen out.new) result }
    ensures history { result.history.items ≡ serial.history }
    ensures end { IsEnded result.status → result.end ≡ Some end }
    ensures detail { result.detail ≡ Detail.Nothing }
    ensures writes { ReplayWritten (K.seen out.old) (K.seen out.new) (E.seen err.old) (E.seen err.new) result }
{
    let Ok(line) = end_line(alloc, &end) else {
        return stopped(serial, err);
    };
    let bytes = serial.output();
    let written = write_all(bytes, out);
    let status = say_end(written, &end, line.as_slice(), err);
    Outcome {
        status,
        history: serial.into_history(),
        end: Some(end),
        detail: Detail::Nothing,
    }
}

/// The outcome of a replay that differs from its trace: its bytes are written, and then the line where it differs.
fn differ<K: Sink, E: Sink>(
    serial: Serial,
    stated: End,
    found: Option<End>,
    out: &mut K,
    err: &mut E,
) -> Outcome
    ensures statuses { (result.status ≡ exit.not_written) ⊎ (result.status ≡ exit.differs) }
    ensures finished { Finished serial.setup (K.seen out.old) (K.seen out.new) result }
    ensures history { result.history.items ≡ serial.history }
    ensures end { result.end ≡ None }
    ensures detail { result.detail ≡ Detail.Differs (3 + length serial.history) stated found }
    ensures writes { ReplayWritten (K.seen out.old) (K.seen out.new) (E.seen err.old) (E.seen err.new) result }
{
    let detail = Detail::Differs {
        line: line_after(serial.history().entries()),
        stated,
        found,
    };
    let written = write_all(serial.output(), out);
    let status = say_differs(written, &detail, err);
    Outcome {
        status,
        history: serial.into_history(),
        end: None,
        detail,
    }
}

/// The line of a trace's file after these entries, the first of which is on line 3.
fn line_after(entries: &[Entry]) -> u64
    ensures { result ≡ 3 + length entries.now }
{
    entries.len() as u64 + 3
}

/// The outcome of a replay that stopped for want of memory, which it says.
fn stopped<E: Sink>(serial: Serial, err: &mut E) -> Outcome
    ensures status { result.status ≡ exit.no_memory }
    ensures detail { result.detail ≡ Detail.Nothing }
    ensures history { result.history.items ≡ serial.history }
    ensures end { result.end ≡ None }
    ensures says { SaysLine memory_line (E.seen err.old) (E.seen err.new) }
{
    stopped_after(serial.into_history(), err)
}
