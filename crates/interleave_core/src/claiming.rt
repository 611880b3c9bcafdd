// What can be claimed.
ghost use Rattle.std.specs.Prelude.{◌≡◌, ◌↔◌, IfNone, IfOk, IfSome, IsErrOf, OnErr, false, true};
ghost use Rattle.std.specs.Option.{option_copied};
ghost use Rattle.interleave_core.specs.Idle.{IsClaimOut};
ghost use Rattle.lent_pieces.specs.Claims.{IsClaimOn};
ghost use Rattle.world_steps.specs.Kept.{shared_of, IsSameBut};
ghost use Rattle.run_end.specs.Over.{IsIdle, IsRunOver};
ghost use Rattle.interleave_core.specs.declared.error.ClaimNo.TheVariants as no;
ghost use Rattle.interleave_core.specs.declared.error.NamedNo.TheVariants as named;
ghost use Rattle.shared_world.specs.Marks.{HasMarks};
ghost use Rattle.shared_world.specs.Shared.{ready};
ghost use Rattle.shared_world.specs.Stands.{Stands};
ghost use Rattle.value_core.specs.Named.{Name as Called};

use crate::error::{ClaimNo, NamedNo};
use lent_pieces::claim_piece;
use run_end::is_over;
use std::alloc::{AllocError, Global};
use value_core::Name;
use world_claim::Claim;
use world_steps::Kept;

/// A claim on a piece that is ready, whichever it is. Whether the run is over is looked at only where nothing is; where it is not, a
/// claim is out.
pub(crate) fn claim_any(kept: &mut Kept, alloc: Global) -> Result<Claim, ClaimNo>
    requires stands { Stands (shared_of kept.old) }
    requires marks { HasMarks (shared_of kept.old) }
    ensures claim { IfOk result (λ claim. IsClaimOn claim.piece (shared_of kept.old) claim (shared_of kept.new)) }
    ensures ready { IfOk result (λ claim. ready (shared_of kept.old) claim.piece ≡ true) }
    ensures over { IsErrOf result no.Over ↔ IsRunOver (shared_of kept.old) }
    ensures idle { IsErrOf result no.Idle ↔ IsIdle (shared_of kept.old) }
    ensures out { IsErrOf result no.Idle → IsClaimOut (shared_of kept.old) }
    ensures same { OnErr result (IsSameBut (shared_of kept.old) (shared_of kept.new)) }
{
    kept.units.claims_are_tied();
    let name = match first_ready(kept) {
        Some(name) => name.copy(alloc)?,
        None if is_over(kept) => return Err(ClaimNo::Over),
        None => return Err(ClaimNo::Idle),
    };
    Ok(claim_piece(kept, alloc, &name)?)
}

/// A claim on the piece of that name.
pub(crate) fn claim_named(kept: &mut Kept, alloc: Global, name: &Name) -> Result<Claim, NamedNo>
    requires stands { Stands (shared_of kept.old) }
    ensures claim { IfOk result (λ claim. IsClaimOn name.now (shared_of kept.old) claim (shared_of kept.new)) }
    ensures not_ready { IsErrOf result named.NotReady ↔ (ready (shared_of kept.old) name.now ≡ false) }
    ensures same { OnErr result (IsSameBut (shared_of kept.old) (shared_of kept.new)) }
{
    if !is_ready(kept, name) {
        return Err(NamedNo::NotReady);
    }
    Ok(claim_piece(kept, alloc, name)?)
}

/// Whether something can be done with the piece, and it is not lent. Once the run has ended nothing can. It takes no
/// memory.
pub(crate) fn is_ready(kept: &Kept, name: &Name) -> bool
    ensures { result ≡ ready (shared_of kept.now) name.now }
{
    match &kept.end {
        None => kept.units.is_ready(name),
        Some(_) => false,
    }
}

/// A piece that is ready. None exactly where nothing is. It takes no memory.
fn first_ready(kept: &Kept) -> Option<&Name>
    ensures some { IfSome (option_copied result) (λ name. ready (shared_of kept.now) name ≡ true) }
    ensures none { IfNone (option_copied result) ((name : Called) → ready (shared_of kept.now) name ≡ false) }
{
    match &kept.end {
        None => kept.units.first_ready(),
        Some(_) => None,
    }
}
