ghost use Rattle.std.specs.Prelude.{◌≡◌, ◌≢◌, ◌≤◌, ◌⊎◌, [], None, Some, IfSome, IsErrOf, OnOk};
ghost use Rattle.std.specs.Io.KnownBytes.{append_known};
ghost use Rattle.serial_model.specs.Replay.{status};
ghost use Rattle.serial_model.specs.Trace.{trace_text};
ghost use Rattle.world_io.specs.Held.{told, IsHeld};
ghost use Rattle.world_io.specs.Taken.{TookPrefix, Said};
ghost use Rattle.world_io.specs.Writes.{CountsFileWrite};
ghost use Rattle.command_phases.specs.EndWritten.{EndWritten};
ghost use Rattle.command_phases.specs.KeptAfter.{KeepsAfter};
ghost use Rattle.command_phases.specs.Lines.{detail_line, end_line, line_of};
ghost use Rattle.command_phases.specs.Outcome.{IsEnded, end_unless_memory};
ghost use Rattle.command_phases.specs.SaysOutcome.{SaysOutcome};
ghost use Rattle.command_phases.specs.SaysReport.{SaysReport};
ghost use Rattle.command_phases.specs.Status as exit;
ghost use Rattle.command_phases.specs.Traced.{KeepsOthers};
ghost use Rattle.command_phases.specs.WrittenAfter.{WritesAfter};

use crate::ends::end_status;
use crate::lines::{say_memory, write_detail};
use crate::outcome::{Detail, Outcome};
use crate::status::{DIFFERS, NO_MEMORY, NOT_WRITTEN};
use serial_model::{End, Trace};
use std::alloc::Global;
use trace_text::write_trace;
use value_core::Text;
use world_io::{Failed, Files, Sink, WriteNo, write_all};

/// What a run hands out: its trace, the report that stands before the line of its end, and that line. The report is empty
/// but for a run by a schedule.
#[derive(Drop)]
pub struct Ran {
    pub trace: Trace,
    pub report: Text,
    pub line: Vec<u8>,
    ghost of_end: { line.items ≡ end_line trace.end },
}

/// Where the bytes of the run were written, keeps its trace, if one is asked for. Then it writes the report, and behind it the
/// line of the end where nothing failed to be written. Where there is no memory for the trace it says so in their place.
pub fn end_run<F: Files, E: Sink>(
    alloc: Global,
    written: Result<(), Failed>,
    ran: Ran,
    trace: &Option<Text>,
    files: &mut F,
    err: &mut E,
) -> Outcome
    ensures ends { EndWritten written ran.trace trace.now (F.seen files.old) (F.seen files.new) (E.seen err.old) (E.seen err.new) result.status }
    ensures history { result.history ≡ ran.trace.history }
    ensures end { result.end ≡ end_unless_memory result.status ran.trace.end }
    ensures detail { result.detail ≡ Detail.Nothing }
    ensures reports { IsEnded result.status → SaysReport ran.report result.status result.end (E.seen err.old) (E.seen err.new) }
    ensures says { (IsEnded result.status → ⊥) → SaysOutcome result.status result.detail result.end (E.seen err.old) (E.seen err.new) }
{
    let status = keep_and_report(alloc, written, &ran, trace, files, err);
    outcome_of(status, ran)
}

/// The outcome of a run with that status.
fn outcome_of(status: u8, ran: Ran) -> Outcome
    ensures status { result.status ≡ status }
    ensures history { result.history ≡ ran.trace.history }
    ensures end { result.end ≡ end_unless_memory status ran.trace.end }
    ensures detail { result.detail ≡ Detail.Nothing }
{
    let Ran { trace, .. } = ran;
    let Trace { history, end, .. } = trace;
    let end = if status == NO_MEMORY { None } else { Some(end) };
    Outcome {
        status,
        history,
        end,
        detail: Detail::Nothing,
    }
}

/// Keeps the trace where the bytes of the run were written, and then writes the report and the line of the end. It answers
/// the status that this leaves.
fn keep_and_report<F: Files, E: Sink>(
    alloc: Global,
    written: Result<(), Failed>,
    ran: &Ran,
    trace: &Option<Text>,
    files: &mut F,
    err: &mut E,
) -> u8
    ensures ends { EndWritten written ran.now.trace trace.now (F.seen files.old) (F.seen files.new) (E.seen err.old) (E.seen err.new) result }
    ensures reports { IsEnded result → SaysReport ran.now.report result (Some ran.now.trace.end) (E.seen err.old) (E.seen err.new) }
    ensures says { (IsEnded result → ⊥) → SaysOutcome result Detail.Nothing (Some ran.now.trace.end) (E.seen err.old) (E.seen err.new) }
{
    let report = ran.report.items();
    let end = &ran.trace.end;
    let line = ran.line.as_slice();
    match keep_after(alloc, written, &ran.trace, trace, files) {
        Ok(()) => report_and_say(Ok(()), report, end, line, err),
        Err(WriteNo::Failed) => report_and_say(Err(Failed), report, end, line, err),
        Err(WriteNo::Memory) => {
            say_memory(err);
            NO_MEMORY
        }
    }
}

/// Keeps the trace under its name, where one is given and the bytes before it were written.
fn keep_after<F: Files>(
    alloc: Global,
    written: Result<(), Failed>,
    ran: &Trace,
    trace: &Option<Text>,
    files: &mut F,
) -> Result<(), WriteNo>
    ensures { KeepsAfter written ran.now trace.now (F.seen files.old) (F.seen files.new) result }
{
    match written {
        Ok(()) => keep(alloc, ran, trace, files),
        Err(_) => Err(WriteNo::Failed),
    }
}

/// Keeps the trace under its name, where one is given.
fn keep<F: Files>(
    alloc: Global,
    ran: &Trace,
    trace: &Option<Text>,
    files: &mut F,
) -> Result<(), WriteNo>
    ensures holds { OnOk result (IfSome trace.now (λ name. IsHeld (told (F.seen files.new).held name) (trace_text ran.now))) }
    ensures others { KeepsOthers trace.now (F.seen files.old).held (F.seen files.new).held (F.seen files.old).write_faults (F.seen files.new).write_faults }
    ensures memory { IsErrOf result WriteNo.Memory → (F.seen files.new).held ≡ (F.seen files.old).held }
    ensures faults { CountsFileWrite result (F.seen files.old).write_faults (F.seen files.new).write_faults }
    ensures later { (F.seen files.old).write_faults ≤ (F.seen files.new).write_faults }
    ensures reads { (F.seen files.new).read_faults ≡ (F.seen files.old).read_faults }
{
    let Some(name) = trace else {
        return Ok(());
    };
    match write_trace(alloc, ran) {
        Ok(text) => files.write(alloc, name, text.items()),
        Err(_) => Err(WriteNo::Memory),
    }
}

/// Writes the report, and behind it the line of the end where what came before it was written too. It answers the status of the
/// end, or 7 where something was not written.
fn report_and_say<E: Sink>(
    written: Result<(), Failed>,
    report: &[u8],
    end: &End,
    line: &[u8],
    err: &mut E,
) -> u8
    requires { line.now ≡ end_line end.now }
    ensures status { IsEnded result }
    ensures of_end { result ≢ exit.not_written → status end.now ≡ result }
    ensures after { WritesAfter written (E.seen err.old) (E.seen err.new) result }
    ensures says { SaysReport report.now result (Some end.now) (E.seen err.old) (E.seen err.new) }
{
    match write_all(report, err) {
        Ok(()) => say_end(written, end, line, err),
        Err(_) => NOT_WRITTEN,
    }
}

/// Writes the line of the end, where the bytes before it were written, and answers its status, or 7 where something was
/// not written.
pub fn say_end<E: Sink>(written: Result<(), Failed>, end: &End, line: &[u8], err: &mut E) -> u8
    requires { line.now ≡ end_line end.now }
    ensures status { IsEnded result }
    ensures of_end { result ≢ exit.not_written → status end.now ≡ result }
    ensures after { WritesAfter written (E.seen err.old) (E.seen err.new) result }
    ensures says { SaysOutcome result Detail.Nothing (Some end.now) (E.seen err.old) (E.seen err.new) }
{
    match written {
        Ok(()) => match write_all(line, err) {
            Ok(()) => end_status(end),
            Err(_) => NOT_WRITTEN,
        },
        Err(_) => NOT_WRITTEN,
    }
}

/// Writes the line of a replay that differs, where the bytes before it were written. It answers that it differs, or that
/// something was not written.
pub fn say_differs<E: Sink>(written: Result<(), Failed>, detail: &Detail, err: &mut E) -> u8
    ensures status { (result ≡ exit.not_written) ⊎ (result ≡ exit.differs) }
    ensures after { WritesAfter written (E.seen err.old) (E.seen err.new) result }
    ensures whole { result ≡ exit.differs → (E.seen err.new).taken ≡ append_known (E.seen err.old).taken (detail_line detail.now) }
    ensures said { Said (E.seen err.old) (E.seen err.new) (line_of [] result detail.now None) }
    ensures said_at_most { TookPrefix (E.seen err.old).taken (E.seen err.new).taken (detail_line detail.now) }
{
    match written {
        Ok(()) => match write_detail(err, detail) {
            Ok(()) => DIFFERS,
            Err(_) => NOT_WRITTEN,
        },
        Err(_) => NOT_WRITTEN,
    }
}
