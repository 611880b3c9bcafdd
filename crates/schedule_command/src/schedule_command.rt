ghost use Rattle.std.specs.Prelude.{◌≡◌, IfSome};
ghost use Rattle.run_end.specs.Finishing.{NoneOut};
ghost use Rattle.run_end.specs.Over.{IsOverWith};
ghost use Rattle.shared_world.specs.Later.{IsLater as IsLaterWorld};
ghost use Rattle.shared_world.specs.Opening.{IsOpening};
ghost use Rattle.command_phases.specs.Lines.{end_line};
ghost use Rattle.command_phases.specs.Outcome.{IsEnded};
ghost use Rattle.command_phases.specs.SaysOutcome.{SaysOutcome};
ghost use Rattle.command_phases.specs.Seen.{IsLater};
ghost use Rattle.schedule_command.specs.Driven.{IsDrivenOn};
ghost use Rattle.serial_commands.specs.Outside.{seen_before, seen_after};
ghost use Rattle.run_command.specs.ProgramAnswers.{ProgramAnswers};
ghost use Rattle.schedule_command.specs.ScheduleAnswers.{Reports, ScheduleAnswers};

use command_phases::{
    Outcome, Part, Ran, Scheduled, end_line, end_run, load_schedule, out_of_memory, stopped_after,
    without_pair,
};
use core_syntax::Program;
use interleave_core::World;
use run_command::opened;
use schedule_drive::drive;
use schedule_text::Lines;
use serial_commands::Outside;
use serial_model::{End, Limits, Trace};
use std::alloc::Global;
use value_core::Text;
use world_io::{Files, Sink, write_all};

/// Runs the program of that file within the limits, first by the lines of the schedule of that name and then to its end.
/// It keeps the trace of the run under the name that is given for it, and reports what came of the lines.
pub fn schedule_file<'a, F: Files, K: Sink, E: Sink>(
    alloc: Global,
    file: &Text,
    schedule: &Text,
    limits: Limits,
    trace: &Option<Text>,
    outside: Outside<'a, F, K, E>,
) -> Outcome
    ensures answers { ScheduleAnswers file.now schedule.now limits trace.now
        (seen_before F.seen K.seen E.seen outside.entry)
        (seen_after F.seen K.seen E.seen outside.exit) result }
    ensures later { IsLater (seen_before F.seen K.seen E.seen outside.entry) (seen_after F.seen K.seen E.seen outside.exit) }
{
    match load_schedule(alloc, outside.files, file, schedule) {
        Ok(given) => run_given(alloc, given, limits, trace, outside),
        Err(error) => without_pair(alloc, error, Part::Schedule, file, schedule, outside.err),
    }
}

/// Runs the program by the lines that are given with it.
fn run_given<'a, F: Files, K: Sink, E: Sink>(
    alloc: Global,
    given: Scheduled,
    limits: Limits,
    trace: &Option<Text>,
    outside: Outside<'a, F, K, E>,
) -> Outcome
    ensures answers { ProgramAnswers (record { program = given.program; limits = limits }) trace.now
        (seen_before F.seen K.seen E.seen outside.entry)
        (seen_after F.seen K.seen E.seen outside.exit) result }
    ensures reports { IsEnded result.status → Reports (record { program = given.program; limits = limits }) given.lines
        (seen_before F.seen K.seen E.seen outside.entry).err
        (seen_after F.seen K.seen E.seen outside.exit).err result }
    ensures says { (IsEnded result.status → ⊥) → SaysOutcome result.status result.detail result.end
        (seen_before F.seen K.seen E.seen outside.entry).err
        (seen_after F.seen K.seen E.seen outside.exit).err }
    ensures later { IsLater (seen_before F.seen K.seen E.seen outside.entry) (seen_after F.seen K.seen E.seen outside.exit) }
{
    let Scheduled { program, lines } = given;
    match opened(alloc, program, limits) {
        Ok((world, program)) => run_world(alloc, world, &program, &lines, limits, trace, outside),
        Err(_) => out_of_memory(alloc, outside.err),
    }
}

/// Drives the world by the lines and ends the run, and writes what it printed, its trace, the report, and the line of its end.
fn run_world<'a, F: Files, K: Sink, E: Sink>(
    alloc: Global,
    mut world: World,
    program: &Program,
    lines: &Lines,
    limits: Limits,
    trace: &Option<Text>,
    outside: Outside<'a, F, K, E>,
) -> Outcome
    requires opens { IsOpening (record { program = program.now; limits = limits }) world }
    requires unclaimed { NoneOut world }
    ensures answers { ProgramAnswers (record { program = program.now; limits = limits }) trace.now
        (seen_before F.seen K.seen E.seen outside.entry)
        (seen_after F.seen K.seen E.seen outside.exit) result }
    ensures reports { IsEnded result.status → Reports (record { program = program.now; limits = limits }) lines.now
        (seen_before F.seen K.seen E.seen outside.entry).err
        (seen_after F.seen K.seen E.seen outside.exit).err result }
    ensures says { (IsEnded result.status → ⊥) → SaysOutcome result.status result.detail result.end
        (seen_before F.seen K.seen E.seen outside.entry).err
        (seen_after F.seen K.seen E.seen outside.exit).err }
    ensures later { IsLater (seen_before F.seen K.seen E.seen outside.entry) (seen_after F.seen K.seen E.seen outside.exit) }
{
    let Outside { files, out, err } = outside;
    let Some(over) = drive_to_end(alloc, &mut world, program, lines) else {
        world.stands();
        return stopped_after(world.into_history(), err);
    };
    world.stands();
    let written = write_all(world.output(), out);
    let history = world.into_history();
    let Over { report, end, line } = over;
    let ran = Ran {
        trace: Trace {
            limits,
            history,
            end,
        },
        report,
        line,
    };
    end_run(alloc, written, ran, trace, files, err)
}

/// How a run by a schedule came to its end: the report, the end, and its line.
#[derive(Drop)]
struct Over {
    report: Text,
    end: End,
    line: Vec<u8>,
    ghost of_end: { line.items ≡ end_line end },
}

/// Drives the world by the lines, and then ends the run. It stops for want of memory.
fn drive_to_end(alloc: Global, world: &mut World, program: &Program, lines: &Lines) -> Option<Over>
    requires { program.now ≡ world.old.setup.program }
    ensures setup { world.new.setup ≡ world.old.setup }
    ensures over { IfSome result (λ over. IsOverWith world.new over.end) }
    ensures driven { IfSome result (λ over. IsDrivenOn lines.now world.old over.report world.new) }
{
    match drive(world, alloc, program, lines) {
        Ok(report) => end_with(alloc, world, report),
        Err(_) => None,
    }
}

/// Ends the run, and answers the end with its line and with that report, where there is memory for both.
fn end_with(alloc: Global, world: &mut World, report: Text) -> Option<Over>
    ensures later { IsLaterWorld world.old world.new }
    ensures over { IfSome result (λ over. IsOverWith world.new over.end) }
    ensures report { IfSome result (λ over. over.report ≡ report) }
{
    let end = world.finish(alloc).ok()?;
    let line = end_line(alloc, &end).ok()?;
    Some(Over { report, end, line })
}
