ghost use Rattle.std.specs.Prelude.{◌≡◌, ◌++◌, Err, IfOk, codes};
ghost use Rattle.trace_text.specs.Lines.{IsEntryText, IsEndText, IsLineText, IsNoLine};

use crate::cut::{after_prefix, are, cut};
use crate::no::LineNo;
use crate::parts::{read_code, read_place};
use crate::word::read_name;
use serial_model::{End, Entry};
use std::alloc::Global;

/// A line after the limits.
#[derive(Drop)]
pub enum Line {
    Entry(Entry),
    End(End),
}

/// The entry or the end that the line writes. `Bad` comes where it writes neither.
pub fn read_line(alloc: Global, line: &[u8]) -> Result<Line, LineNo>
    ensures ok { IfOk result (λ read. IsLineText read line.now) }
    ensures bad { result ≡ Err LineNo.Bad → IsNoLine line.now }
{
    if let Some(unit) = after_prefix(line, b"run ") {
        return Ok(Line::Entry(Entry::Run(read_name(alloc, unit)?)));
    }
    if let Some(names) = after_prefix(line, b"take ") {
        return Ok(Line::Entry(read_take(alloc, names)?));
    }
    let words = after_prefix(line, b"end ").ok_or(LineNo::Bad)?;
    Ok(Line::End(read_end(alloc, words)?))
}

/// The entry of an actor that takes a message, of the two names. `Bad` comes where these are not two names.
fn read_take(alloc: Global, names: &[u8]) -> Result<Entry, LineNo>
    ensures ok { IfOk result (λ entry. IsEntryText entry (codes "take " ++ names.now)) }
    ensures bad { result ≡ Err LineNo.Bad → IsNoLine (codes "take " ++ names.now) }
{
    let (actor, sender) = cut(names, b' ').ok_or(LineNo::Bad)?;
    let actor = read_name(alloc, actor)?;
    let sender = read_name(alloc, sender)?;
    Ok(Entry::Take(actor, sender))
}

/// The end that the words after `end` write. `Bad` comes where they write none.
fn read_end(alloc: Global, words: &[u8]) -> Result<End, LineNo>
    ensures ok { IfOk result (λ end. IsEndText end (codes "end " ++ words.now)) }
    ensures bad { result ≡ Err LineNo.Bad → IsNoLine (codes "end " ++ words.now) }
{
    if are(words, b"done") {
        return Ok(End::Done);
    }
    if are(words, b"units") {
        return Ok(End::UnitsSpent);
    }
    if let Some(unit) = after_prefix(words, b"spent ") {
        return Ok(End::Spent {
            unit: read_name(alloc, unit)?,
        });
    }
    let fault = after_prefix(words, b"fault ").ok_or(LineNo::Bad)?;
    read_fault(alloc, fault)
}

/// The end by a fault, of its code, its place and its unit. `Bad` comes where these are not such.
fn read_fault(alloc: Global, words: &[u8]) -> Result<End, LineNo>
    ensures ok { IfOk result (λ end. IsEndText end (codes "end fault " ++ words.now)) }
    ensures bad { result ≡ Err LineNo.Bad → IsNoLine (codes "end fault " ++ words.now) }
{
    let (code, rest) = cut(words, b' ').ok_or(LineNo::Bad)?;
    let (place, unit) = cut(rest, b' ').ok_or(LineNo::Bad)?;
    let code = read_code(alloc, code)?;
    let at = read_place(alloc, place)?;
    let unit = read_name(alloc, unit)?;
    Ok(End::Fault { code, at, unit })
}
