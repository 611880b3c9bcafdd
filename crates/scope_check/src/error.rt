ghost use Rattle.std.specs.Prelude.{◌≡◌};
ghost use Rattle.scope_check.specs.Check.{kind_of, scope_no};
ghost use Rattle.scope_check.specs.declared.error.ScopeNo.TheVariants.{Memory, Refused};

use program_plan::{PlanKind, PlanNo};
use scope_refusals::ScopeKind;
use std::alloc::AllocError;
use thiserror::Error;
use value_core::Place;

/// Why there is no program.
#[derive(Clone, Copy, Debug, PartialEq, Eq, Error)]
pub enum ScopeNo {
    /// The forms are no program: what is wrong, and where.
    #[error("{kind}")]
    Refused { kind: ScopeKind, at: Place },
    /// There is no memory.
    #[error("out of memory")]
    Memory,
}

impl From<AllocError> for ScopeNo {
    ghost from_gives = { λ _ refusal. refusal ≡ Memory };

    fn from(_error: AllocError) -> Self {
        ScopeNo::Memory
    }
}

/// The refusal of that kind at that place.
pub(crate) fn refused(kind: ScopeKind, at: Place) -> ScopeNo
    ensures { result ≡ Refused kind at }
{
    ScopeNo::Refused { kind, at }
}

/// The same refusal, of forms that are resolved.
pub(crate) fn scope_no(no: PlanNo) -> ScopeNo
    ensures { result ≡ scope_no no }
{
    match no {
        PlanNo::Refused { kind, at } => refused(kind_of(kind), at),
        PlanNo::Memory => ScopeNo::Memory,
    }
}

fn kind_of(kind: PlanKind) -> ScopeKind
    ensures { result ≡ kind_of kind }
{
    match kind {
        PlanKind::EarlyGlobal => ScopeKind::EarlyGlobal,
        PlanKind::TooManyNodes => ScopeKind::TooManyNodes,
    }
}
