ghost use Rattle.std.specs.Prelude.{◌≡◌, ◌≤◌, [], ◌∷◌, ◌++◌, length, OnOk, IfOk, IfErr};
ghost use Rattle.schedule_text.specs.Refused.{IsWhy};
ghost use Rattle.schedule_text.specs.Schedule.{IsTextOfSchedule, schedule_limit};

use crate::error::LineNo;
use crate::line::{Line, Lines, read_line};
use serial_model::LineKind;
use std::alloc::Global;
use trace_text::cut::cut;
use value_core::Seq;

/// The most bytes that a schedule is read from.
pub const SCHEDULE_LIMIT: usize = 4_194_304;

/// The lines that the bytes are the text of. `Refused` comes exactly where they are no schedule's text, or too long.
pub fn read_schedule(alloc: Global, bytes: &[u8]) -> Result<Lines, LineNo>
    ensures lines { IfOk result (λ lines. IsTextOfSchedule lines bytes.now) }
    ensures refused { IfErr result (λ no. IsWhy no bytes.now) }
{
    if bytes.len() > SCHEDULE_LIMIT {
        return Err(LineNo::Refused {
            kind: LineKind::TooLong,
            line: 1,
        });
    }
    read_lines(alloc, bytes)
}

fn read_lines(alloc: Global, bytes: &[u8]) -> Result<Lines, LineNo>
    requires { length bytes.now ≤ schedule_limit }
    ensures lines { IfOk result (λ lines. IsTextOfSchedule lines bytes.now) }
    ensures refused { IfErr result (λ no. IsWhy no bytes.now) }
{
    let mut lines = Seq::new(alloc);
    let mut rest = bytes;
    let mut number = 1;
    while let Some((text, after)) = cut(rest, b'\n') {
        let line = read_line(alloc, text, number)?;
        push(&mut lines, line)?;
        rest = after;
        number += 1;
    }
    if !rest.is_empty() {
        return Err(LineNo::Refused {
            kind: LineKind::BadLine,
            line: number,
        });
    }
    Ok(lines)
}

fn push(lines: &mut Lines, line: Line) -> Result<(), LineNo>
    ensures ok { OnOk result (lines.new ≡ lines.old ++ line ∷ []) }
    ensures err { IfErr result (λ no. no ≡ LineNo.Memory) }
{
    lines.push(line).map_err(|_| LineNo::Memory)
}
