ghost use Rattle.std.specs.Prelude.{◌≡◌, ◌++◌, OnOk, codes};
ghost use Rattle.schedule_report.specs.Report.{given_text, report_line, told_text};
ghost use Rattle.serial_model.specs.Trace.{line_of};
ghost use Rattle.shared_world.specs.declared.given.Given.TheVariants as given;

use crate::told::Told;
use itoa::Buffer;
use shared_world::Given;
use std::alloc::{AllocError, Global};
use trace_text::{push_entry, push_line};
use unit_table::WaitOn;
use value_core::{Name, Text};

/// Appends the line of a report: the number of the schedule's line, and what came of it.
pub fn push_report(
    alloc: Global,
    text: &mut Text,
    number: u64,
    told: &Told,
) -> Result<(), AllocError>
    ensures { OnOk result (text.new ≡ text.old ++ report_line number told.now) }
{
    let mut buffer = Buffer::new();
    text.extend(buffer.format(number).as_bytes())?;
    text.extend(b" ")?;
    push_told(alloc, text, told)
}

/// Appends what came of a line.
fn push_told(alloc: Global, text: &mut Text, told: &Told) -> Result<(), AllocError>
    ensures { OnOk result (text.new ≡ text.old ++ line_of (told_text told.now)) }
{
    match told {
        Told::Answered(given) => push_given(alloc, text, given),
        Told::Kept => push_line(text, &[b"kept"]),
        Told::NotReady => push_line(text, &[b"not-ready"]),
    }
}

/// Appends what the world answered.
fn push_given(alloc: Global, text: &mut Text, given: &Given) -> Result<(), AllocError>
    ensures { OnOk result (text.new ≡ text.old ++ line_of (given_text given.now)) }
{
    match given {
        Given::Settled(entry) => {
            text.extend(b"settled ")?;
            push_entry(alloc, text, entry)
        }
        Given::Held => push_line(text, &[b"held"]),
        Given::Local => push_line(text, &[b"local"]),
        Given::Began { snapshot } => push_began(text, *snapshot),
        Given::Waiting(on) => push_waiting(alloc, text, on),
        Given::Aborted {
            unit,
            name,
            version,
        } => push_aborted(alloc, text, unit, name, *version),
        Given::Stale => push_line(text, &[b"stale"]),
    }
}

fn push_began(text: &mut Text, snapshot: u64) -> Result<(), AllocError>
    ensures { OnOk result (text.new ≡ text.old ++ line_of (given_text (given.Began snapshot))) }
{
    let mut buffer = Buffer::new();
    push_line(text, &[b"began ", buffer.format(snapshot).as_bytes()])
}

fn push_waiting(alloc: Global, text: &mut Text, on: &WaitOn) -> Result<(), AllocError>
    ensures { OnOk result (text.new ≡ text.old ++ line_of (given_text (given.Waiting on.now))) }
{
    match on {
        WaitOn::Finish(name) => {
            let name = name.text(alloc)?;
            push_line(text, &[b"waiting finish ", name.items()])
        }
        WaitOn::Definite(name) => {
            let name = name.text(alloc)?;
            push_line(text, &[b"waiting definite ", name.items()])
        }
    }
}

fn push_aborted(
    alloc: Global,
    text: &mut Text,
    unit: &Name,
    name: &Name,
    version: u64,
) -> Result<(), AllocError>
    ensures { OnOk result (text.new ≡ text.old ++ line_of (given_text (given.Aborted unit.now name.now version))) }
{
    let unit = unit.text(alloc)?;
    let name = name.text(alloc)?;
    let mut buffer = Buffer::new();
    push_line(
        text,
        &[
            b"aborted ",
            unit.items(),
            b" ref ",
            name.items(),
            b" version ",
            buffer.format(version).as_bytes(),
        ],
    )
}
