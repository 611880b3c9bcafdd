ghost use Rattle.clap.specs.Words.{first_value, found_of, subcommand_rows_of};
ghost use Rattle.said_commands.specs.Said.{Reads, check_of, command_named, found_command, make_of, replay_of, run_of, schedule_of, stress_of};

use crate::command::Command;
use crate::words_no::WordsNo;
use clap::ArgMatches;
use said_values::{limits, made, text, workers};
use std::alloc::Global;

/// The command that the parser found, and `Usage` where its values say none.
pub fn said_command(alloc: Global, matches: &ArgMatches<'_>) -> Result<Command, WordsNo>
    ensures { Reads (found_command (subcommand_rows_of matches.now)) result }
{
    match matches.subcommand() {
        Some((name, given)) => command_named(alloc, name, given),
        None => Err(WordsNo::Usage),
    }
}

/// The command of that name that these values say.
fn command_named(alloc: Global, name: &str, given: &ArgMatches<'_>) -> Result<Command, WordsNo>
    ensures { Reads (command_named name.now (first_value (found_of given.now))) result }
{
    match name {
        "run" => run(alloc, given),
        "schedule" => schedule(alloc, given),
        "replay" => replay(alloc, given),
        "check" => check(alloc, given),
        "make" => make(given),
        "stress" => stress(given),
        _ => Err(WordsNo::Usage),
    }
}

/// The run that these values say.
fn run(alloc: Global, given: &ArgMatches<'_>) -> Result<Command, WordsNo>
    ensures { Reads (run_of (first_value (found_of given.now))) result }
{
    let file = text(alloc, given, "file")?.ok_or(WordsNo::Usage)?;
    let trace = text(alloc, given, "trace")?;
    let workers = workers(given).ok_or(WordsNo::Usage)?;
    let limits = limits(given).ok_or(WordsNo::Usage)?;
    Ok(Command::Run {
        file,
        workers,
        limits,
        trace,
    })
}

/// The run by a schedule that these values say.
fn schedule(alloc: Global, given: &ArgMatches<'_>) -> Result<Command, WordsNo>
    ensures { Reads (schedule_of (first_value (found_of given.now))) result }
{
    let file = text(alloc, given, "file")?.ok_or(WordsNo::Usage)?;
    let schedule = text(alloc, given, "schedule")?.ok_or(WordsNo::Usage)?;
    let trace = text(alloc, given, "trace")?;
    let limits = limits(given).ok_or(WordsNo::Usage)?;
    Ok(Command::Schedule {
        file,
        schedule,
        limits,
        trace,
    })
}

/// The replay that these values say.
fn replay(alloc: Global, given: &ArgMatches<'_>) -> Result<Command, WordsNo>
    ensures { Reads (replay_of (first_value (found_of given.now))) result }
{
    let file = text(alloc, given, "file")?.ok_or(WordsNo::Usage)?;
    let trace = text(alloc, given, "trace")?.ok_or(WordsNo::Usage)?;
    Ok(Command::Replay { file, trace })
}

/// The check that these values say.
fn check(alloc: Global, given: &ArgMatches<'_>) -> Result<Command, WordsNo>
    ensures { Reads (check_of (first_value (found_of given.now))) result }
{
    let file = text(alloc, given, "file")?.ok_or(WordsNo::Usage)?;
    Ok(Command::Check { file })
}

/// The made program that these values say.
fn make(given: &ArgMatches<'_>) -> Result<Command, WordsNo>
    ensures { Reads (make_of (first_value (found_of given.now))) result }
{
    let (number, size) = made(given).ok_or(WordsNo::Usage)?;
    Ok(Command::Make { number, size })
}

/// The run of a made program that these values say.
fn stress(given: &ArgMatches<'_>) -> Result<Command, WordsNo>
    ensures { Reads (stress_of (first_value (found_of given.now))) result }
{
    let (number, size) = made(given).ok_or(WordsNo::Usage)?;
    let workers = workers(given).ok_or(WordsNo::Usage)?;
    Ok(Command::Stress {
        number,
        size,
        workers,
    })
}
