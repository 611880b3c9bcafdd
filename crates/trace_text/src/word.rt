ghost use Rattle.std.specs.Prelude.{◌≡◌, ◌≢◌, ℕ, List, [], ◌∷◌, Err, IfOk, IfSome, IsNone};
ghost use Rattle.value_core.specs.Name.{IsTextOf};
ghost use Rattle.trace_text.specs.Lines.{IsNumberText};

use crate::no::LineNo;
use std::alloc::Global;
use value_core::{Name, NameNo};

/// The name that the word writes. `Bad` comes where it writes none.
pub fn read_name(alloc: Global, word: &[u8]) -> Result<Name, LineNo>
    ensures ok { IfOk result (λ name. IsTextOf name word.now) }
    ensures bad { result ≡ Err LineNo.Bad → (name : List ℕ) → ¬ IsTextOf name word.now }
{
    Name::read(alloc, word).map_err(line_no)
}

/// The number that the word writes. `Bad` comes where it writes none below 2 ^ 32. A number is written as a name of one
/// part.
pub fn read_number(alloc: Global, word: &[u8]) -> Result<u32, LineNo>
    ensures ok { IfOk result (λ number. IsNumberText number word.now) }
    ensures bad { result ≡ Err LineNo.Bad → (number : ℕ) → ¬ IsNumberText number word.now }
{
    let name = read_name(alloc, word)?;
    alone(name.parts()).ok_or(LineNo::Bad)
}

// The number that stands alone.
fn alone(numbers: &[u32]) -> Option<u32>
    ensures some { IfSome result (λ number. numbers.now ≡ number ∷ []) }
    ensures none { IsNone result → (number : ℕ) → numbers.now ≢ number ∷ [] }
{
    match numbers {
        [number] => Some(*number),
        _ => None,
    }
}

fn line_no(no: NameNo) -> LineNo
    ensures bad { no ≡ NameNo.BadName → result ≡ LineNo.Bad }
    ensures memory { no ≡ NameNo.Memory → result ≡ LineNo.Memory }
{
    match no {
        NameNo::BadName => LineNo::Bad,
        NameNo::Memory => LineNo::Memory,
    }
}
