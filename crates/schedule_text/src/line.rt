ghost use Rattle.std.specs.Prelude.{IfErr, IfOk};
ghost use Rattle.value_core.specs.Name.{IsTextOf};
ghost use Rattle.schedule_text.specs.Refused.{IsLineWhy, IsNameWhy};
ghost use Rattle.schedule_text.specs.Schedule.{IsTextOfLine};

use crate::error::LineNo;
use serial_model::LineKind;
use std::alloc::Global;
use trace_text::cut::after_prefix;
use value_core::{Name, NameNo, Seq};

/// A line of a schedule.
#[derive(Drop)]
pub enum Line {
    /// The unit or task of that name is claimed, run, and given.
    Go(Name),
    /// It is claimed and run, and the result is kept.
    Hold(Name),
    /// The result that was kept under that name is given.
    Back(Name),
    /// The actor of that name is claimed and given.
    Turn(Name),
}

/// The lines of a schedule, in their order.
pub type Lines = Seq<Line>;

/// The line that the text writes, which stands at the line of that number.
pub(crate) fn read_line(alloc: Global, text: &[u8], number: u64) -> Result<Line, LineNo>
    ensures line { IfOk result (λ line. IsTextOfLine line text.now) }
    ensures refused { IfErr result (λ no. IsLineWhy no text.now number) }
{
    if let Some(word) = after_prefix(text, b"go ") {
        return Ok(Line::Go(read_name(alloc, word, number)?));
    }
    if let Some(word) = after_prefix(text, b"hold ") {
        return Ok(Line::Hold(read_name(alloc, word, number)?));
    }
    if let Some(word) = after_prefix(text, b"back ") {
        return Ok(Line::Back(read_name(alloc, word, number)?));
    }
    if let Some(word) = after_prefix(text, b"turn ") {
        return Ok(Line::Turn(read_name(alloc, word, number)?));
    }
    Err(LineNo::Refused {
        kind: LineKind::BadLine,
        line: number,
    })
}

/// The name that the word writes, in the line of that number.
fn read_name(alloc: Global, word: &[u8], number: u64) -> Result<Name, LineNo>
    ensures name { IfOk result (λ name. IsTextOf name word.now) }
    ensures refused { IfErr result (λ no. IsNameWhy no word.now number) }
{
    match Name::read(alloc, word) {
        Ok(name) => Ok(name),
        Err(NameNo::BadName) => Err(LineNo::Refused {
            kind: LineKind::BadLine,
            line: number,
        }),
        Err(NameNo::Memory) => Err(LineNo::Memory),
    }
}
