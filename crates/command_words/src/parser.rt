ghost use Rattle.std.specs.Prelude.{◌≡◌, IfOk, codes, false, map};
ghost use Rattle.clap.specs.Words.{App, Rule, app_of, new_app, rule_of, with_rule, with_subcommand};
ghost use Rattle.command_words.specs.Parser.{IsLocal, IsTold, told, told_command, told_option, told_place, with_commands, with_rules, with_settings};
ghost use Rattle.command_words.specs.Said.{check_form, limit_options, make_form, replay_form, run_form, schedule_form, stress_form};

use clap::{Arg, Command};
use std::alloc::{AllocError, Global};

/// The parser of the words, which knows each command with its places and options.
pub(crate) fn parser<'a>(alloc: Global) -> Result<Command<'a>, AllocError>
    ensures { IfOk result (λ parser. app_of parser ≡ told) }
{
    let parser = with_commands(settled(alloc), run(alloc), schedule(alloc));
    let parser = with_commands(parser, replay(alloc), check(alloc));
    with_commands(parser, make(alloc), stress(alloc))
}

/// The parser that knows no command yet.
fn settled<'a>(alloc: Global) -> Result<Command<'a>, AllocError>
    ensures { IsTold result (with_settings (new_app (codes "chocola"))) }
{
    Ok(
        Command::new(alloc, "chocola")
            .no_binary_name(true)
            .disable_help_flag(true)
            .disable_help_subcommand(true)
            .subcommand_required(true),
    )
}

fn run<'a>(alloc: Global) -> Result<Command<'a>, AllocError>
    ensures told { IsTold result (told_command (codes "run") run_form) }
    ensures local { IsLocal result }
{
    let command = with_arg(named(alloc, "run"), place(alloc, "file"));
    let command = with_arg(command, option(alloc, "workers"));
    with_limit_options(alloc, command)
}

fn schedule<'a>(alloc: Global) -> Result<Command<'a>, AllocError>
    ensures told { IsTold result (told_command (codes "schedule") schedule_form) }
    ensures local { IsLocal result }
{
    let command = with_arg(named(alloc, "schedule"), place(alloc, "file"));
    let command = with_arg(command, place(alloc, "schedule"));
    with_limit_options(alloc, command)
}

fn replay<'a>(alloc: Global) -> Result<Command<'a>, AllocError>
    ensures told { IsTold result (told_command (codes "replay") replay_form) }
    ensures local { IsLocal result }
{
    let command = with_arg(named(alloc, "replay"), place(alloc, "file"));
    with_arg(command, place(alloc, "trace"))
}

fn check<'a>(alloc: Global) -> Result<Command<'a>, AllocError>
    ensures told { IsTold result (told_command (codes "check") check_form) }
    ensures local { IsLocal result }
{
    with_arg(named(alloc, "check"), place(alloc, "file"))
}

fn make<'a>(alloc: Global) -> Result<Command<'a>, AllocError>
    ensures told { IsTold result (told_command (codes "make") make_form) }
    ensures local { IsLocal result }
{
    let command = with_arg(named(alloc, "make"), place(alloc, "number"));
    with_arg(command, place(alloc, "size"))
}

fn stress<'a>(alloc: Global) -> Result<Command<'a>, AllocError>
    ensures told { IsTold result (told_command (codes "stress") stress_form) }
    ensures local { IsLocal result }
{
    let command = with_arg(named(alloc, "stress"), place(alloc, "number"));
    let command = with_arg(command, place(alloc, "size"));
    with_arg(command, option(alloc, "workers"))
}

/// The command with the options of what is run within limits.
fn with_limit_options<'a>(
    alloc: Global,
    command: Result<Command<'a>, AllocError>,
) -> Result<Command<'a>, AllocError>
    requires { IsLocal command }
    ensures told { (app : App) → IsTold command.entry app → IsTold result (with_rules app (map told_option limit_options)) }
    ensures local { IsLocal result }
{
    let command = with_arg(command, option(alloc, "fuel"));
    let command = with_arg(command, option(alloc, "units"));
    with_arg(command, option(alloc, "trace"))
}

/// A command of that name, which is told nothing more.
fn named<'a>(alloc: Global, name: &'a str) -> Result<Command<'a>, AllocError>
    ensures told { IsTold result (new_app name.entry.now) }
    ensures local { IsLocal result }
{
    Ok(Command::new(alloc, name))
}

/// The command with that place or option too.
fn with_arg<'a>(
    command: Result<Command<'a>, AllocError>,
    arg: Arg<'a>,
) -> Result<Command<'a>, AllocError>
    requires command { IsLocal command }
    requires arg { arg.global ≡ false }
    ensures told { (app : App) (rule : Rule) → IsTold command.entry app → rule_of arg.entry ≡ rule → IsTold result (with_rule app rule) }
    ensures local { IsLocal result }
{
    match command {
        Ok(command) => command.arg(arg),
        Err(failed) => {
            drop(arg);
            Err(failed)
        }
    }
}

/// The parser with these two commands too.
fn with_commands<'a>(
    parser: Result<Command<'a>, AllocError>,
    first: Result<Command<'a>, AllocError>,
    second: Result<Command<'a>, AllocError>,
) -> Result<Command<'a>, AllocError>
    requires first { IsLocal first }
    requires second { IsLocal second }
    ensures { (app : App) (one : App) (two : App) → IsTold parser.entry app → IsTold first.entry one → IsTold second.entry two → IsTold result (with_commands app one two) }
{
    with_command(with_command(parser, first), second)
}

/// The parser with that command too.
fn with_command<'a>(
    parser: Result<Command<'a>, AllocError>,
    command: Result<Command<'a>, AllocError>,
) -> Result<Command<'a>, AllocError>
    requires { IsLocal command }
    ensures { (app : App) (below : App) → IsTold parser.entry app → IsTold command.entry below → IsTold result (with_subcommand app below.top) }
{
    match (parser, command) {
        (Ok(parser), Ok(command)) => parser.subcommand(command),
        (Ok(unused), Err(failed)) | (Err(failed), Ok(unused)) => {
            drop(unused);
            Err(failed)
        }
        (Err(failed), Err(_)) => Err(failed),
    }
}

/// A word that has to be there, in its place.
fn place<'a>(alloc: Global, name: &'a str) -> Arg<'a>
    ensures told { rule_of result ≡ told_place name.entry.now }
    ensures local { result.global ≡ false }
{
    Arg::new(alloc, name).required(true)
}

/// An option with one value.
fn option<'a>(alloc: Global, name: &'a str) -> Arg<'a>
    ensures told { rule_of result ≡ told_option name.entry.now }
    ensures local { result.global ≡ false }
{
    Arg::new(alloc, name).long(name)
}
