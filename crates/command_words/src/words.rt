ghost use Rattle.std.specs.Prelude.{◌≡◌, ◌≢◌, [], map, IfOk, IfErr};
ghost use Rattle.std.specs.List.{list_all, position};
ghost use Rattle.std.specs.String.{string_bytes};
ghost use Rattle.clap.specs.Words.{fault_of, kind_of, subcommand_of, subcommand_rows_of};
ghost use Rattle.clap.specs.declared.error.ErrorKind.TheVariants.{OutOfMemory};
ghost use Rattle.said_commands.specs.Said.{Reads};
ghost use Rattle.command_words.specs.Said.{command_of};
ghost use Rattle.command_words.specs.Parser.{is_readable, is_readable_option, told};
ghost use Rattle.command_words.specs.Reading.{is_equals, is_fit};
ghost use Rattle.said_commands.specs.declared.words_no.WordsNo.TheVariants.{Usage};

use crate::parser::parser;
use clap::error::ErrorKind;
use clap::{ArgMatches, Error};
use said_commands::{Command, WordsNo, said_command};
use std::alloc::Global;

/// The command that the words say, and `Usage` where they are no command line. The program's own name is not among the
/// words. `Memory` where there is no memory.
pub fn read_words(alloc: Global, words: &[String]) -> Result<Command, WordsNo>
    ensures { Reads (command_of (map string_bytes words.now)) result }
{
    if !are_readable(words) {
        return Err(WordsNo::Usage);
    }
    let matches = parse(alloc, words)?;
    said_command(alloc, &matches)
}

/// What the parser finds in the words, and `Usage` where it refuses them.
fn parse<'a>(alloc: Global, words: &'a [String]) -> Result<ArgMatches<'a>, WordsNo>
    ensures ok { IfOk result (λ matches. (fault_of told (map string_bytes words.now) ≡ [])
        × (subcommand_rows_of matches ≡ subcommand_of told (map string_bytes words.now))) }
    ensures err { IfErr result (λ no. no ≡ Usage → fault_of told (map string_bytes words.now) ≢ []) }
{
    match parser(alloc)?.try_get_matches_from(words) {
        Ok(matches) => Ok(matches),
        Err(error) => Err(refusal(error)),
    }
}

/// What an error of the parser comes to.
fn refusal(error: Error) -> WordsNo
    ensures { result ≡ Usage → kind_of error ≢ OutOfMemory }
{
    if error.kind() == ErrorKind::OutOfMemory {
        WordsNo::Memory
    } else {
        WordsNo::Usage
    }
}

fn are_readable(words: &[String]) -> bool
    ensures { result ≡ list_all (λ word. is_readable (string_bytes word)) words.now }
{
    words.iter().all(|word| is_readable(word.as_bytes()))
}

/// Whether the parser may read the word: it takes some words as values, help or separators that are refused here.
fn is_readable(word: &[u8]) -> bool
    ensures { result ≡ is_readable word.now }
{
    match word {
        [b'-', b'-', rest @ ..] => is_readable_option(rest),
        _ => is_fit(word),
    }
}

/// Whether what stands behind two dashes is a name, or a name with a fit value.
fn is_readable_option(text: &[u8]) -> bool
    ensures { result ≡ is_readable_option text.now }
{
    match place_of_equals(text) {
        Some(at) => is_fit(&text[at + 1..]),
        None => !text.is_empty(),
    }
}

fn place_of_equals(text: &[u8]) -> Option<usize>
    ensures { result ≡ position is_equals text.now }
{
    text.iter().position(|b| *b == b'=')
}

/// Whether the word may be a value: it is not empty, and doesn't begin with a dash.
fn is_fit(word: &[u8]) -> bool
    ensures { result ≡ is_fit word.now }
{
    match word {
        [] => false,
        [first, ..] => *first != b'-',
    }
}
