ghost use Rattle.std.specs.Prelude.{◌≡◌};
ghost use Rattle.scope_refusals.specs.Kinds.{kind_number};

use thiserror::Error;

/// What is wrong with the forms of a source.
#[derive(Clone, Copy, Debug, PartialEq, Eq, Error)]
pub enum ScopeKind {
    /// A symbol is neither a local, nor defined in the file, nor reserved.
    #[error("Unknown")]
    Unknown,
    /// A top-level name is defined a second time, or is a reserved word.
    #[error("Twice")]
    Twice,
    /// A form has a number of arguments that it does not take.
    #[error("Arity")]
    Arity,
    /// A form is malformed in another way.
    #[error("BadForm")]
    BadForm,
    /// A top-level definition or expression reaches a global that is defined by itself or below it.
    #[error("EarlyGlobal")]
    EarlyGlobal,
    /// The nodes up to and with a top-level form are too many.
    #[error("TooManyNodes")]
    TooManyNodes,
}

impl ScopeKind {
    /// The number of the refusal, from 1 to 6: at one place the lowest counts.
    pub fn number(self) -> u8
        ensures { result ≡ kind_number self }
    {
        match self {
            ScopeKind::Unknown => 1,
            ScopeKind::Twice => 2,
            ScopeKind::Arity => 3,
            ScopeKind::BadForm => 4,
            ScopeKind::EarlyGlobal => 5,
            ScopeKind::TooManyNodes => 6,
        }
    }
}
