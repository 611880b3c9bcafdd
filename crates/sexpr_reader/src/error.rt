ghost use Rattle.std.specs.Prelude.{◌≡◌};
ghost use Rattle.sexpr_reader.specs.Kinds.{kind_number};

use thiserror::Error;
use value_core::Place;

/// Why a source is refused.
#[derive(Clone, Copy, Debug, PartialEq, Eq)]
pub enum ReadKind {
    /// A byte does not fit: the text is not UTF-8, or no name has this byte here.
    BadByte,
    /// The source ends inside a bracket, a string or after an `@`.
    Unclosed,
    /// A closing bracket does not match.
    Unmatched,
    /// A number is no integer of 64 bits.
    BadNumber,
    /// A string has a backslash that begins no escape.
    BadString,
    /// More than `NEST_LIMIT` brackets and `@`s would be open at once.
    TooNested,
    /// The source has more than `SOURCE_LIMIT` bytes.
    TooLong,
}

impl ReadKind {
    /// The number of the refusal, from 1 to 7.
    pub fn number(self) -> u8
        ensures { result ≡ kind_number self }
    {
        match self {
            ReadKind::BadByte => 1,
            ReadKind::Unclosed => 2,
            ReadKind::Unmatched => 3,
            ReadKind::BadNumber => 4,
            ReadKind::BadString => 5,
            ReadKind::TooNested => 6,
            ReadKind::TooLong => 7,
        }
    }
}

/// Why `read` gives no forms.
#[derive(Debug, Drop, Error)]
pub enum ReadNo {
    /// The source is refused, with the kind of the refusal and its place.
    #[error("the source is refused")]
    Refused { kind: ReadKind, at: Place },
    /// There is no memory.
    #[error("out of memory")]
    Memory,
}

/// The refusal of that kind and place.
pub fn refused(kind: ReadKind, at: Place) -> ReadNo
    ensures { result ≡ ReadNo.Refused kind at }
{
    ReadNo::Refused { kind, at }
}
