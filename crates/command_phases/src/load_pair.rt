ghost use Rattle.std.specs.Prelude.{◌≡◌, ◌≤◌};
ghost use Rattle.schedule_text.specs.Schedule.{IsTextOfSchedule, schedule_refusal};
ghost use Rattle.serial_model.specs.Trace.{IsTextOfTrace, trace_refusal};
ghost use Rattle.command_phases.specs.LoadPair.{FetchesPair, GivesLines, GivesReplay, GivesSchedule, ReadsText, GivesTrace, LoadsReplay, LoadsSchedule};

use crate::fetch::{FetchNo, Fetched, fetch};
use crate::load::{LoadNo, program_of};
use core_syntax::Program;
use schedule_text::{LineNo, Lines, SCHEDULE_LIMIT, read_schedule};
use serial_model::{LineKind, Trace};
use sexpr_reader::SOURCE_LIMIT;
use std::alloc::Global;
use thiserror::Error;
use trace_text::{TRACE_LIMIT, TraceNo, read_trace};
use value_core::Text;
use world_io::Files;

/// What a replay is given.
#[derive(Drop)]
pub struct Given {
    pub program: Program,
    pub trace: Trace,
}

/// What a run by a schedule is given.
#[derive(Drop)]
pub struct Scheduled {
    pub program: Program,
    pub lines: Lines,
}

/// Why the files of a program and of a trace or a schedule give nothing to run.
#[derive(Debug, Drop, Error)]
pub enum PairNo {
    /// The file of the program gives none. Want of memory for the second file is told here too.
    #[error("the file gives no program")]
    Source(LoadNo),
    /// Nothing is held under the name of the second file, or the files counted a fault.
    #[error("the second file was not read")]
    NotRead,
    /// The second file is refused, with the kind of the refusal and its line.
    #[error("the second file is refused")]
    Refused { kind: LineKind, line: u64 },
}

/// Two files that were read.
#[derive(Drop)]
pub(crate) struct FetchedPair {
    pub(crate) source: Fetched,
    pub(crate) second: Fetched,
}

/// The program and the trace of the files under these names. Both are read before one is checked, and the program is
/// read and checked first.
pub fn load_replay<F: Files>(
    alloc: Global,
    files: &mut F,
    file: &Text,
    trace: &Text,
) -> Result<Given, PairNo>
    ensures loads { LoadsReplay file.now trace.now (F.seen files.old) (F.seen files.new) result }
    ensures later { (F.seen files.old).read_faults ≤ (F.seen files.new).read_faults }
    ensures writes { (F.seen files.new).write_faults ≡ (F.seen files.old).write_faults }
    ensures same { (F.seen files.new).held ≡ (F.seen files.old).held }
{
    match fetch_pair(alloc, files, file, trace, TRACE_LIMIT) {
        Ok(pair) => replay_of(alloc, &pair.source, &pair.second),
        Err(error) => Err(error),
    }
}

/// The program and the lines of the files under these names. Both are read before one is checked, and the program is
/// read and checked first.
pub fn load_schedule<F: Files>(
    alloc: Global,
    files: &mut F,
    file: &Text,
    schedule: &Text,
) -> Result<Scheduled, PairNo>
    ensures loads { LoadsSchedule file.now schedule.now (F.seen files.old) (F.seen files.new) result }
    ensures later { (F.seen files.old).read_faults ≤ (F.seen files.new).read_faults }
    ensures writes { (F.seen files.new).write_faults ≡ (F.seen files.old).write_faults }
    ensures same { (F.seen files.new).held ≡ (F.seen files.old).held }
{
    match fetch_pair(alloc, files, file, schedule, SCHEDULE_LIMIT) {
        Ok(pair) => schedule_of(alloc, &pair.source, &pair.second),
        Err(error) => Err(error),
    }
}

/// The bytes of both files. The second may have as many as `limit`.
fn fetch_pair<F: Files>(
    alloc: Global,
    files: &mut F,
    file: &Text,
    second: &Text,
    limit: usize,
) -> Result<FetchedPair, PairNo>
    ensures fetches { FetchesPair file.now second.now limit (F.seen files.old) (F.seen files.new) result }
    ensures later { (F.seen files.old).read_faults ≤ (F.seen files.new).read_faults }
    ensures writes { (F.seen files.new).write_faults ≡ (F.seen files.old).write_faults }
    ensures same { (F.seen files.new).held ≡ (F.seen files.old).held }
{
    let source = match fetch(alloc, files, file, SOURCE_LIMIT) {
        Ok(source) => source,
        Err(FetchNo::NotRead) => return Err(PairNo::Source(LoadNo::NotRead)),
        Err(FetchNo::Memory) => return Err(PairNo::Source(LoadNo::Memory)),
    };
    match fetch(alloc, files, second, limit) {
        Ok(text) => Ok(FetchedPair {
            source,
            second: text,
        }),
        Err(FetchNo::NotRead) => Err(PairNo::NotRead),
        Err(FetchNo::Memory) => Err(PairNo::Source(LoadNo::Memory)),
    }
}

/// The program and the trace of files that were read.
fn replay_of(alloc: Global, source: &Fetched, text: &Fetched) -> Result<Given, PairNo>
    ensures { GivesReplay source.now text.now result }
{
    match program_of(alloc, source) {
        Ok(program) => with_trace(alloc, program, text),
        Err(error) => Err(PairNo::Source(error)),
    }
}

/// The program with the trace of the trace's file.
fn with_trace(alloc: Global, program: Program, text: &Fetched) -> Result<Given, PairNo>
    ensures { GivesTrace program text.now result }
{
    match trace_of(alloc, text) {
        Ok(trace) => Ok(Given { program, trace }),
        Err(error) => Err(error),
    }
}

/// The trace of a file that was read.
fn trace_of(alloc: Global, text: &Fetched) -> Result<Trace, PairNo>
    ensures { ReadsText IsTextOfTrace trace_refusal text.now result }
{
    match text {
        Fetched::Bytes(bytes) => match read_trace(alloc, bytes.as_slice()) {
            Ok(trace) => Ok(trace),
            Err(TraceNo::Refused { kind, line }) => Err(PairNo::Refused { kind, line }),
            Err(TraceNo::Memory) => Err(PairNo::Source(LoadNo::Memory)),
        },
        Fetched::TooLong => Err(too_long()),
    }
}

/// The program and the lines of files that were read.
fn schedule_of(alloc: Global, source: &Fetched, text: &Fetched) -> Result<Scheduled, PairNo>
    ensures { GivesSchedule source.now text.now result }
{
    match program_of(alloc, source) {
        Ok(program) => with_lines(alloc, program, text),
        Err(error) => Err(PairNo::Source(error)),
    }
}

/// The program with the lines of the schedule's file.
fn with_lines(alloc: Global, program: Program, text: &Fetched) -> Result<Scheduled, PairNo>
    ensures { GivesLines program text.now result }
{
    match lines_of(alloc, text) {
        Ok(lines) => Ok(Scheduled { program, lines }),
        Err(error) => Err(error),
    }
}

/// The lines of a file that was read.
fn lines_of(alloc: Global, text: &Fetched) -> Result<Lines, PairNo>
    ensures { ReadsText IsTextOfSchedule schedule_refusal text.now result }
{
    match text {
        Fetched::Bytes(bytes) => match read_schedule(alloc, bytes.as_slice()) {
            Ok(lines) => Ok(lines),
            Err(LineNo::Refused { kind, line }) => Err(PairNo::Refused { kind, line }),
            Err(LineNo::Memory) => Err(PairNo::Source(LoadNo::Memory)),
        },
        Fetched::TooLong => Err(too_long()),
    }
}

fn too_long() -> PairNo
    ensures { result ≡ PairNo.Refused LineKind.TooLong 1 }
{
    PairNo::Refused {
        kind: LineKind::TooLong,
        line: 1,
    }
}
