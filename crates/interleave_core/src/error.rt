ghost use Rattle.std.specs.Prelude.{◌≡◌};
ghost use Rattle.interleave_core.specs.declared.error.ClaimNo.TheVariants as claim;
ghost use Rattle.interleave_core.specs.declared.error.NamedNo.TheVariants as named;
ghost use Rattle.interleave_core.specs.declared.error.StepNo.TheVariants as step;

use std::alloc::AllocError;
use thiserror::Error;

/// Why nothing is claimed.
#[derive(Clone, Copy, Debug, PartialEq, Eq, Error)]
pub enum ClaimNo {
    /// Nothing is ready, and the run is not over.
    #[error("nothing is ready")]
    Idle,
    /// The run is over.
    #[error("the run is over")]
    Over,
    /// There is no memory.
    #[error("out of memory")]
    Memory,
}

impl From<AllocError> for ClaimNo {
    ghost from_gives = { λ _ refusal. refusal ≡ claim.Memory };

    fn from(_error: AllocError) -> Self {
        ClaimNo::Memory
    }
}

/// Why a piece that was named is not claimed.
#[derive(Clone, Copy, Debug, PartialEq, Eq, Error)]
pub enum NamedNo {
    /// The piece is not ready.
    #[error("the piece is not ready")]
    NotReady,
    /// There is no memory.
    #[error("out of memory")]
    Memory,
}

impl From<AllocError> for NamedNo {
    ghost from_gives = { λ _ refusal. refusal ≡ named.Memory };

    fn from(_error: AllocError) -> Self {
        NamedNo::Memory
    }
}

/// Why a result comes to nothing.
#[derive(Clone, Copy, Debug, PartialEq, Eq, Error)]
pub enum StepNo {
    /// There is no memory.
    #[error("out of memory")]
    Memory,
}

impl From<AllocError> for StepNo {
    ghost from_gives = { λ _ refusal. refusal ≡ step.Memory };

    fn from(_error: AllocError) -> Self {
        StepNo::Memory
    }
}
