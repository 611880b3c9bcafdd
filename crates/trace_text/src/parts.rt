ghost use Rattle.std.specs.Prelude.{◌≡◌, ◌≢◌, Err, IfOk, IfSome, IsNone};
ghost use Rattle.value_core.specs.declared.code.Code.{Code};
ghost use Rattle.value_core.specs.FaultCodes.{code_number};
ghost use Rattle.value_core.specs.Place.{Spot};
ghost use Rattle.serial_model.specs.Limits.{Budget};
ghost use Rattle.trace_text.specs.Lines.{IsCodeText, IsLimitsText, IsPlaceText};

use crate::cut::{after_prefix, cut};
use crate::no::LineNo;
use crate::word::read_number;
use serial_model::Limits;
use std::alloc::Global;
use value_core::{Code, Place};

/// The limits that the line writes. `Bad` comes where it writes none.
pub fn read_limits(alloc: Global, line: &[u8]) -> Result<Limits, LineNo>
    ensures ok { IfOk result (λ limits. IsLimitsText limits line.now) }
    ensures bad { result ≡ Err LineNo.Bad → (limits : Budget) → ¬ IsLimitsText limits line.now }
{
    let numbers = after_prefix(line, b"limits ").ok_or(LineNo::Bad)?;
    let (fuel, units) = cut(numbers, b' ').ok_or(LineNo::Bad)?;
    let fuel = read_number(alloc, fuel)?;
    let units = read_number(alloc, units)?;
    Limits::checked(u64::from(fuel), units).ok_or(LineNo::Bad)
}

/// The place that the word writes. `Bad` comes where it writes none.
pub fn read_place(alloc: Global, word: &[u8]) -> Result<Place, LineNo>
    ensures ok { IfOk result (λ at. IsPlaceText at word.now) }
    ensures bad { result ≡ Err LineNo.Bad → (at : Spot) → ¬ IsPlaceText at word.now }
{
    let (line, column) = cut(word, b':').ok_or(LineNo::Bad)?;
    let line = read_number(alloc, line)?;
    let column = read_number(alloc, column)?;
    if line == 0 || column == 0 {
        return Err(LineNo::Bad);
    }
    Ok(Place::new(line, column))
}

/// The fault code that the word writes, by its position. `Bad` comes where it writes none.
pub fn read_code(alloc: Global, word: &[u8]) -> Result<Code, LineNo>
    ensures ok { IfOk result (λ failed. IsCodeText failed word.now) }
    ensures bad { result ≡ Err LineNo.Bad → (failed : Code) → ¬ IsCodeText failed word.now }
{
    let number = read_number(alloc, word)?;
    code_at(number).ok_or(LineNo::Bad)
}

/// The fault code at that position.
fn code_at(number: u32) -> Option<Code>
    ensures some { IfSome result (λ failed. code_number failed ≡ number) }
    ensures none { IsNone result → (failed : Code) → code_number failed ≢ number }
{
    match number {
        1 => Some(Code::WrongType),
        2 => Some(Code::DivideByZero),
        3 => Some(Code::Overflow),
        4 => Some(Code::Index),
        5 => Some(Code::NoTransaction),
        6 => Some(Code::NoTurn),
        7 => Some(Code::FutureEscapes),
        8 => Some(Code::ForkTooDeep),
        9 => Some(Code::TooDeep),
        10 => Some(Code::MessageArity),
        _ => None,
    }
}
