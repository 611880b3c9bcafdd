ghost use Rattle.std.specs.Prelude.{◌≡◌};
ghost use Rattle.plan_errors.specs.declared.error.PlanNo.TheVariants.{Memory, Refused};
ghost use Rattle.plan_errors.specs.PlanNo.{plan_no};

use core_syntax::BuildNo;
use std::alloc::AllocError;
use thiserror::Error;
use value_core::Place;

/// What is wrong with resolved forms that have no program.
#[derive(Clone, Copy, Debug, PartialEq, Eq, Error)]
pub enum PlanKind {
    /// A top-level definition or expression reaches a global that is defined by itself or below it.
    #[error("EarlyGlobal")]
    EarlyGlobal,
    /// The nodes up to and with a top-level form are too many.
    #[error("TooManyNodes")]
    TooManyNodes,
}

/// Why resolved forms have no program.
#[derive(Clone, Copy, Debug, PartialEq, Eq, Error)]
pub enum PlanNo {
    /// The forms are no program: what is wrong, and where.
    #[error("{kind}")]
    Refused { kind: PlanKind, at: Place },
    /// There is no memory.
    #[error("out of memory")]
    Memory,
}

impl From<AllocError> for PlanNo {
    ghost from_gives = { λ _ refusal. refusal ≡ Memory };

    fn from(_error: AllocError) -> Self {
        PlanNo::Memory
    }
}

/// The refusal of that kind at that place.
pub fn refused(kind: PlanKind, at: Place) -> PlanNo
    ensures { result ≡ Refused kind at }
{
    PlanNo::Refused { kind, at }
}

/// Why forms have no program, where a node of the top-level form at that place is not taken into the table: its nodes are
/// too many, or there is no memory.
pub fn plan_no(refusal: BuildNo, at: Place) -> PlanNo
    ensures { result ≡ plan_no refusal at }
{
    match refusal {
        BuildNo::TooManyNodes => refused(PlanKind::TooManyNodes, at),
        BuildNo::Memory => PlanNo::Memory,
    }
}
