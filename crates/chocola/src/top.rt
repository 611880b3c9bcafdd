ghost use Rattle.std.specs.Prelude.{map};
ghost use Rattle.std.specs.String.{string_bytes};
ghost use Rattle.chocola.specs.Answers.{Answers, IsOwed};
ghost use Rattle.command_phases.specs.Seen.{seen};
ghost use Rattle.serial_commands.specs.Outside.{seen_after, seen_before};

use command_phases::{Detail, Outcome, USAGE, out_of_memory, say_usage};
use command_words::{Command, WordsNo, read_words};
use run_command::run_file;
use schedule_command::schedule_file;
use serial_commands::{Outside, check_file, make_program, replay_file};
use std::alloc::Global;
use std::sync::Wait;
use std::thread::Threads;
use stress_command::stress_program;
use worker_gate::Gate;
use world_io::{Files, Sink};

/// Does what the words of a command line say, and answers what became of it. The status of the outcome is one of these:
///
/// | Status | It comes only where |
/// |---|---|
/// | 0 done | the command came to its end, and what it ran is done |
/// | 1 fault | the history replays to a fault |
/// | 2 usage | the words are no command |
/// | 3 not read | a read failed, or nothing is held under a name of the words |
/// | 4 refused | the source, the trace or the schedule is refused, as the detail says |
/// | 5 spent | the history replays to spent fuel, or to spent units |
/// | 6 no memory | there was no memory |
/// | 7 not written | a write failed, to a sink or of the trace, and none of 2, 3 and 4 is due |
/// | 8 differs | the replay differs from its trace, as the detail says |
///
/// Want of memory is the one status that no cause has to be there for. Where the cause of another is there, that one
/// comes, or 6. A run and a stress are shared by workers, each of which passes the gate between a claim and its return; for them
/// it may wait.
pub fn chocola<R: Threads + Wait + Sync, F: Files, K: Sink + Send, E: Sink, G: Gate + Sync>(
    rt: &R,
    alloc: Global,
    words: &[String],
    files: &mut F,
    out: &mut K,
    err: &mut E,
    gate: &G,
) -> Outcome
    ensures { let before = seen (F.seen files.old) (K.seen out.old) (E.seen err.old) in
        let after = seen (F.seen files.new) (K.seen out.new) (E.seen err.new) in
        Answers (map string_bytes words.now) before after result }
{
    let outside = Outside { files, out, err };
    match read_words(alloc, words) {
        Ok(command) => obey(rt, alloc, command, outside, gate),
        Err(WordsNo::Usage) => {
            say_usage(outside.err);
            Outcome::without_run(alloc, USAGE, Detail::Nothing)
        }
        Err(WordsNo::Memory) => out_of_memory(alloc, outside.err),
    }
}

/// Does what the command says.
fn obey<'a, R: Threads + Wait + Sync, F: Files, K: Sink + Send, E: Sink, G: Gate + Sync>(
    rt: &R,
    alloc: Global,
    command: Command,
    outside: Outside<'a, F, K, E>,
    gate: &G,
) -> Outcome
    ensures { IsOwed command
        (seen_before F.seen K.seen E.seen outside.entry)
        (seen_after F.seen K.seen E.seen outside.exit) result }
{
    match command {
        Command::Run {
            file,
            workers,
            limits,
            trace,
        } => run_file(rt, alloc, &file, workers, limits, &trace, outside, gate),
        Command::Schedule {
            file,
            schedule,
            limits,
            trace,
        } => schedule_file(alloc, &file, &schedule, limits, &trace, outside),
        Command::Replay { file, trace } => replay_file(alloc, &file, &trace, outside),
        Command::Check { file } => check_file(alloc, &file, outside),
        Command::Make { number, size } => make_program(alloc, number, size, outside),
        Command::Stress {
            number,
            size,
            workers,
        } => stress_program(rt, alloc, number, size, workers, outside, gate),
    }
}
