ghost use Rattle.std.specs.Prelude.{◌≡◌};
ghost use Rattle.value_core.specs.declared.op_fault.OpFault.TheVariants.{Memory};

use std::alloc::AllocError;
use thiserror::Error;

/// Why a primitive gives no value.
#[derive(Clone, Copy, Debug, PartialEq, Eq, Error)]
pub enum OpFault {
    /// An argument is of a kind that the primitive does not take there.
    #[error("an argument of the wrong type")]
    WrongType,
    /// A division by 0.
    #[error("a division by zero")]
    DivideByZero,
    /// A result, or a partial result, outside 64 bits.
    #[error("a number outside 64 bits")]
    Overflow,
    /// A place that a vector does not have.
    #[error("an index out of range")]
    Index,
    /// A result deeper than 200.
    #[error("a value that is too deep")]
    TooDeep,
    /// There was no memory for the result.
    #[error("no memory")]
    Memory,
}

impl From<AllocError> for OpFault {
    ghost from_gives = { λ _ e. e ≡ Memory };

    fn from(_: AllocError) -> OpFault {
        OpFault::Memory
    }
}
