ghost use Rattle.std.specs.Prelude.{◌≡◌, ◌<◌, ◌^◌, ◌++◌, All, flat_map, IfOk, OnOk};
ghost use Rattle.value_core.specs.Name.{IsTextOf};
ghost use Rattle.serial_model.specs.Limits.{IsInRange};
ghost use Rattle.serial_model.specs.Trace.{IsEnd, IsEntry, IsTrace, end_text, entry_text, limits_text, line_of, trace_text};

use itoa::Buffer;
use serial_model::{End, Entry, Limits, Trace};
use std::alloc::{AllocError, Global};
use value_core::{Code, Name, Place, Text};

/// The text of the trace.
pub fn write_trace(alloc: Global, trace: &Trace) -> Result<Text, AllocError>
    ensures text { IfOk result (λ text. text ≡ trace_text trace.now) }
    ensures is_trace { OnOk result (IsTrace trace.now) }
{
    let mut text = Text::new(alloc);
    push_line(&mut text, &[b"chocola-trace 1"])?;
    push_limits(&mut text, trace.limits)?;
    for entry in trace.history.entries() {
        push_entry(alloc, &mut text, entry)?;
    }
    push_end(alloc, &mut text, &trace.end)?;
    Ok(text)
}

fn push_limits(text: &mut Text, limits: Limits) -> Result<(), AllocError>
    ensures line { OnOk result (text.new ≡ text.old ++ line_of (limits_text limits)) }
    ensures in_range { IsInRange limits }
{
    let mut fuel = Buffer::new();
    let mut units = Buffer::new();
    push_line(
        text,
        &[
            b"limits ",
            fuel.format(limits.fuel()).as_bytes(),
            b" ",
            units.format(limits.units()).as_bytes(),
        ],
    )
}

/// Appends the line of the entry.
pub fn push_entry(alloc: Global, text: &mut Text, entry: &Entry) -> Result<(), AllocError>
    ensures line { OnOk result (text.new ≡ text.old ++ line_of (entry_text entry.now)) }
    ensures is_entry { OnOk result (IsEntry entry.now) }
{
    match entry {
        Entry::Run(unit) => {
            let unit = name_text(alloc, unit)?;
            push_line(text, &[b"run ", unit.items()])
        }
        Entry::Take(actor, sender) => {
            let actor = name_text(alloc, actor)?;
            let sender = name_text(alloc, sender)?;
            push_line(text, &[b"take ", actor.items(), b" ", sender.items()])
        }
    }
}

fn push_end(alloc: Global, text: &mut Text, end: &End) -> Result<(), AllocError>
    ensures line { OnOk result (text.new ≡ text.old ++ line_of (end_text end.now)) }
    ensures is_end { OnOk result (IsEnd end.now) }
{
    match end {
        End::Done => push_line(text, &[b"end done"]),
        End::Fault { code, at, unit } => push_fault(alloc, text, *code, *at, unit),
        End::Spent { unit } => {
            let unit = name_text(alloc, unit)?;
            push_line(text, &[b"end spent ", unit.items()])
        }
        End::UnitsSpent => push_line(text, &[b"end units"]),
    }
}

fn push_fault(
    alloc: Global,
    text: &mut Text,
    code: Code,
    at: Place,
    unit: &Name,
) -> Result<(), AllocError>
    ensures line { OnOk result (text.new ≡ text.old ++ line_of (end_text (End.Fault code at unit.now))) }
    ensures is_end { OnOk result (IsEnd (End.Fault code at unit.now)) }
{
    let unit = name_text(alloc, unit)?;
    let mut number = Buffer::new();
    let mut line = Buffer::new();
    let mut column = Buffer::new();
    push_line(
        text,
        &[
            b"end fault ",
            number.format(code.number()).as_bytes(),
            b" ",
            line.format(at.line()).as_bytes(),
            b":",
            column.format(at.column()).as_bytes(),
            b" ",
            unit.items(),
        ],
    )
}

/// The name as it is written.
fn name_text(alloc: Global, name: &Name) -> Result<Text, AllocError>
    ensures { IfOk result (λ text. IsTextOf name.now text) }
{
    are_in_range(name.parts());
    name.text(alloc)
}

/// Says of the numbers of a name, and only says it, that they are below 2 ^ 32.
fn are_in_range(numbers: &[u32])
    ensures { All (λ number. number < 2 ^ 32) numbers.now }
{}

/// Appends a line of these pieces.
pub fn push_line(text: &mut Text, pieces: &[&[u8]]) -> Result<(), AllocError>
    ensures { OnOk result (text.new ≡ text.old ++ line_of (flat_map (λ piece. piece.now) pieces.now)) }
{
    for piece in pieces {
        text.extend(piece)?;
    }
    text.extend(b"\n")
}
