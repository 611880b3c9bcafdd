ghost use Rattle.std.specs.Prelude.{◌≡◌, ◌≤◌, [], ◌∷◌, ◌++◌, length, Ok, Err, OnOk, IfOk, IfErr, MatchResult};
ghost use Rattle.serial_model.specs.Trace.{IsTextOfTrace, trace_limit};
ghost use Rattle.trace_text.specs.Refused.{IsWhy, why_at};

use crate::cut::{after_prefix, cut};
use crate::error::TraceNo;
use crate::line::{Line, read_line};
use crate::no::LineNo;
use crate::parts::read_limits;
use serial_model::{End, Entry, History, Limits, LineKind, Trace};
use std::alloc::Global;

/// The most bytes that a trace is read from.
pub const TRACE_LIMIT: usize = 67_108_864;

/// The trace that the bytes are the text of. `Refused` comes exactly where they are no trace's text, or too long.
pub fn read_trace(alloc: Global, bytes: &[u8]) -> Result<Trace, TraceNo>
    ensures trace { IfOk result (λ trace. IsTextOfTrace trace bytes.now) }
    ensures refused { IfErr result (λ no. IsWhy no bytes.now) }
{
    if bytes.len() > TRACE_LIMIT {
        return Err(TraceNo::Refused {
            kind: LineKind::TooLong,
            line: 1,
        });
    }
    let mut history = History::new(alloc);
    match read_lines(alloc, bytes, &mut history) {
        Ok((limits, end)) => Ok(Trace {
            limits,
            history,
            end,
        }),
        Err(no) => {
            drop(history);
            Err(no)
        }
    }
}

/// The limits and the end of the trace that the bytes are the text of; its entries are put into the history, which has none yet.
fn read_lines(alloc: Global, bytes: &[u8], history: &mut History) -> Result<(Limits, End), TraceNo>
    requires within { length bytes.now ≤ trace_limit }
    requires none { history.old.items ≡ [] }
    ensures trace { IfOk result (λ (limits, end).
        IsTextOfTrace (record { limits = limits; history = history.new; end = end }) bytes.now) }
    ensures refused { IfErr result (λ no. IsWhy no bytes.now) }
{
    let after_head = after_prefix(bytes, b"chocola-trace 1\n").ok_or(LineNo::Bad.at(1))?;
    let (line, after_limits) = cut(after_head, b'\n').ok_or(LineNo::Bad.at(2))?;
    let limits = at_line(read_limits(alloc, line), 2)?;
    let mut rest = after_limits;
    let mut number = 3;
    while let Some((line, after)) = cut(rest, b'\n') {
        match at_line(read_line(alloc, line), number)? {
            Line::Entry(entry) => push(history, entry)?,
            Line::End(_) if !after.is_empty() => return Err(LineNo::Bad.at(number + 1)),
            Line::End(end) => return Ok((limits, end)),
        }
        rest = after;
        number += 1;
    }
    Err(LineNo::Bad.at(number))
}

/// What was read, or why a text with this at the line of that number is refused.
fn at_line<T>(read: Result<T, LineNo>, line: u64) -> Result<T, TraceNo>
    ensures { MatchResult read (λ value. result ≡ Ok value) (λ no. result ≡ Err (why_at no line)) }
{
    match read {
        Ok(value) => Ok(value),
        Err(no) => Err(no.at(line)),
    }
}

fn push(history: &mut History, entry: Entry) -> Result<(), TraceNo>
    ensures ok { OnOk result (history.new.items ≡ history.old.items ++ entry ∷ []) }
    ensures err { IfErr result (λ no. no ≡ TraceNo.Memory) }
{
    history.push(entry).map_err(|_| TraceNo::Memory)
}
