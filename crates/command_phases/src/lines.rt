ghost use Rattle.std.specs.Prelude.{◌≡◌, flat_map, IfOk};
ghost use Rattle.command_phases.specs.Check.{check_line, count_line};
ghost use Rattle.command_phases.specs.LineWritten.{SaysLine, WritesLine};
ghost use Rattle.command_phases.specs.Lines.{usage_line, cannot_read_line, memory_line, detail_line, part_line, source_line, refused_line, differs_line, kind_name, line_kind_name, end_line, fault_line};

use crate::outcome::{Detail, Part};
use core_syntax::Program;
use itoa::Buffer;
use serial_model::End;
use std::alloc::{AllocError, Global};
use value_core::{Code, Name};
use world_io::{Failed, Sink, write_all};

/// Says that the words are refused.
pub fn say_usage<E: Sink>(err: &mut E)
    ensures { SaysLine usage_line (E.seen err.old) (E.seen err.new) }
{
    let _ = write_all(b"chocola: bad command line\n", err);
}

/// Says that there is no memory.
pub(crate) fn say_memory<E: Sink>(err: &mut E)
    ensures { SaysLine memory_line (E.seen err.old) (E.seen err.new) }
{
    let _ = write_all(b"out of memory\n", err);
}

/// Says that the file of that name was not read.
pub(crate) fn say_not_read<E: Sink>(err: &mut E, name: &[u8])
    ensures { SaysLine (cannot_read_line name.now) (E.seen err.old) (E.seen err.new) }
{
    say(err, &[b"cannot read ", name, b"\n"]);
}

/// Says what is refused.
pub(crate) fn say_refused<E: Sink>(err: &mut E, detail: &Detail)
    ensures { SaysLine (detail_line detail.now) (E.seen err.old) (E.seen err.new) }
{
    let _ = write_detail(err, detail);
}

/// Writes the line of the detail. `Failed` comes only where the count of the sink's faults rose.
pub(crate) fn write_detail<E: Sink>(err: &mut E, detail: &Detail) -> Result<(), Failed>
    ensures { WritesLine (detail_line detail.now) result (E.seen err.old) (E.seen err.new) }
{
    match detail {
        Detail::Nothing => write_pieces(err, &[]),
        Detail::Refused {
            part,
            kind,
            line,
            column,
        } => write_refusal(err, *part, *kind, *line, *column),
        Detail::Differs { line, .. } => write_differs(err, *line),
    }
}

fn write_refusal<E: Sink>(
    err: &mut E,
    part: Part,
    kind: u8,
    line: u64,
    column: u64,
) -> Result<(), Failed>
    ensures { WritesLine (part_line part kind line column) result (E.seen err.old) (E.seen err.new) }
{
    match part {
        Part::Source => write_source(err, part, kind, line, column),
        Part::Scope => write_source(err, part, kind, line, column),
        Part::Trace => write_refused_line(err, b"trace", kind, line),
        Part::Schedule => write_refused_line(err, b"schedule", kind, line),
    }
}

fn write_source<E: Sink>(
    err: &mut E,
    part: Part,
    kind: u8,
    line: u64,
    column: u64,
) -> Result<(), Failed>
    ensures { WritesLine (source_line part kind line column) result (E.seen err.old) (E.seen err.new) }
{
    let mut line_digits = Buffer::new();
    let mut column_digits = Buffer::new();
    write_pieces(
        err,
        &[
            b"source ",
            line_digits.format(line).as_bytes(),
            b":",
            column_digits.format(column).as_bytes(),
            b" ",
            kind_name(part, kind).as_bytes(),
            b"\n",
        ],
    )
}

/// Writes the line of a refused text that is read line by line, which this word says.
fn write_refused_line<E: Sink>(
    err: &mut E,
    word: &'static [u8],
    kind: u8,
    line: u64,
) -> Result<(), Failed>
    ensures { WritesLine (refused_line word.now kind line) result (E.seen err.old) (E.seen err.new) }
{
    let mut line_digits = Buffer::new();
    write_pieces(
        err,
        &[
            word,
            b" ",
            line_digits.format(line).as_bytes(),
            b" ",
            line_kind_name(kind).as_bytes(),
            b"\n",
        ],
    )
}

fn write_differs<E: Sink>(err: &mut E, line: u64) -> Result<(), Failed>
    ensures { WritesLine (differs_line line) result (E.seen err.old) (E.seen err.new) }
{
    let mut line_digits = Buffer::new();
    write_pieces(
        err,
        &[
            b"replay differs at line ",
            line_digits.format(line).as_bytes(),
            b"\n",
        ],
    )
}

/// Writes how many functions, behaviours and globals the program has. `Failed` comes only where the count of the sink's
/// faults rose.
pub(crate) fn write_counts<K: Sink>(out: &mut K, program: &Program) -> Result<(), Failed>
    ensures { WritesLine (check_line program.now) result (K.seen out.old) (K.seen out.new) }
{
    write_numbers(
        out,
        program.functions(),
        program.behaviours(),
        program.globals(),
    )
}

/// Writes the line of so many functions, behaviours and globals.
fn write_numbers<K: Sink>(
    out: &mut K,
    functions: u32,
    behaviours: u32,
    globals: u32,
) -> Result<(), Failed>
    ensures { WritesLine (count_line functions behaviours globals) result (K.seen out.old) (K.seen out.new) }
{
    let mut function_digits = Buffer::new();
    let mut behaviour_digits = Buffer::new();
    let mut global_digits = Buffer::new();
    write_pieces(
        out,
        &[
            b"ok ",
            function_digits.format(functions).as_bytes(),
            b" functions ",
            behaviour_digits.format(behaviours).as_bytes(),
            b" behaviours ",
            global_digits.format(globals).as_bytes(),
            b" globals\n",
        ],
    )
}

/// Says the pieces, one after the other.
fn say<E: Sink>(err: &mut E, pieces: &[&[u8]])
    ensures { SaysLine (flat_map (λ piece. piece.now) pieces.now) (E.seen err.old) (E.seen err.new) }
{
    let _ = write_pieces(err, pieces);
}

/// Writes the pieces, one after the other, up to the first that fails. `Failed` comes only where the count of the sink's
/// faults rose.
fn write_pieces<K: Sink>(sink: &mut K, pieces: &[&[u8]]) -> Result<(), Failed>
    ensures { WritesLine (flat_map (λ piece. piece.now) pieces.now) result (K.seen sink.old) (K.seen sink.new) }
{
    for piece in pieces {
        write_all(piece, sink)?;
    }
    Ok(())
}

/// The line of an end: nothing where all is done.
pub fn end_line(alloc: Global, end: &End) -> Result<Vec<u8>, AllocError>
    ensures { IfOk result (λ line. line.items ≡ end_line end.now) }
{
    match end {
        End::Done => Ok(Vec::new(alloc)),
        End::Fault { code, at, unit } => fault_line(alloc, *code, at.line(), at.column(), unit),
        End::Spent { unit } => {
            let unit = unit.text(alloc)?;
            joined(alloc, &[b"spent fuel in ", unit.items(), b"\n"])
        }
        End::UnitsSpent => Vec::from_slice(alloc, b"spent units\n"),
    }
}

/// The line of a fault of that unit, at that line and column.
fn fault_line(
    alloc: Global,
    code: Code,
    line: u32,
    column: u32,
    unit: &Name,
) -> Result<Vec<u8>, AllocError>
    ensures { IfOk result (λ text. text.items ≡ fault_line code line column unit.now) }
{
    let unit = unit.text(alloc)?;
    let mut code_digits = Buffer::new();
    let mut line_digits = Buffer::new();
    let mut column_digits = Buffer::new();
    joined(
        alloc,
        &[
            b"fault ",
            code_digits.format(code.number()).as_bytes(),
            b" ",
            code.name().as_bytes(),
            b" at ",
            line_digits.format(line).as_bytes(),
            b":",
            column_digits.format(column).as_bytes(),
            b" in ",
            unit.items(),
            b"\n",
        ],
    )
}

/// The pieces, one after the other.
fn joined(alloc: Global, pieces: &[&[u8]]) -> Result<Vec<u8>, AllocError>
    ensures { IfOk result (λ text. text.items ≡ flat_map (λ piece. piece.now) pieces.now) }
{
    let mut text = Vec::new(alloc);
    for piece in pieces {
        text.extend_from_slice(piece)?;
    }
    Ok(text)
}

/// The name of the refusal with that number.
fn kind_name(part: Part, kind: u8) -> &'static str
    ensures { result.now ≡ kind_name part kind }
{
    match part {
        Part::Source => text_kind_name(kind),
        Part::Scope => scope_kind_name(kind),
        Part::Trace => line_kind_name(kind),
        Part::Schedule => line_kind_name(kind),
    }
}

fn text_kind_name(kind: u8) -> &'static str
    ensures { result.now ≡ kind_name Part.Source kind }
{
    match kind {
        1 => "BadByte",
        2 => "Unclosed",
        3 => "Unmatched",
        4 => "BadNumber",
        5 => "BadString",
        6 => "TooNested",
        7 => "TooLong",
        _ => "",
    }
}

fn scope_kind_name(kind: u8) -> &'static str
    ensures { result.now ≡ kind_name Part.Scope kind }
{
    match kind {
        1 => "Unknown",
        2 => "Twice",
        3 => "Arity",
        4 => "BadForm",
        5 => "EarlyGlobal",
        6 => "TooManyNodes",
        _ => "",
    }
}

fn line_kind_name(kind: u8) -> &'static str
    ensures { result.now ≡ line_kind_name kind }
{
    match kind {
        1 => "BadLine",
        2 => "TooLong",
        _ => "",
    }
}
