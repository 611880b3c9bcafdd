// Attempts whose unit runs ahead of the history, and those that can be decided on.
ghost use Rattle.std.specs.Prelude.{◌≡◌, IfSome, OnOk, false};
ghost use Rattle.std.specs.Option.{IsSome};
ghost use Rattle.attempt_commits.specs.Committing.{IsTrying};
ghost use Rattle.attempt_steps.specs.Waiting.{IsWaitingUnit};
ghost use Rattle.attempt_deciding.specs.TaskAt.{IsTaskAt, IsTaskIn};
ghost use Rattle.attempt_steps.specs.Waiting.{EndWaitsOr, TurnWaitsOr};
ghost use Rattle.unit_table.specs.Piece.{says_ready};
ghost use Rattle.value_core.specs.Named.{named};
ghost use Rattle.world_steps.specs.Kept.{shared_of};

use crate::tasks::mark_task;
use attempt_sends::post_sends;
use shared_world::Given;
use std::alloc::{AllocError, Global};
use unit_table::{Mark, WaitOn};
use value_core::Name;
use world_steps::Kept;

/// The task waits until the turn, which runs ahead, is definite and holds nothing. For want of memory nothing changes.
pub(crate) fn wait_for_turn(
    kept: &mut Kept,
    alloc: Global,
    owner: &Name,
    task: &Name,
) -> Result<Given, AllocError>
    requires there { IsTaskAt kept.old.units task.now }
    ensures { TurnWaitsOr (shared_of kept.old) owner.now task.now (shared_of kept.new) result }
{
    let turn = owner.copy(alloc)?;
    let told = owner.copy(alloc)?;
    mark_task(kept, task, Mark::Waiting(WaitOn::Definite(turn)));
    Ok(Given::Waiting(WaitOn::Definite(told)))
}

/// What the root of the unit's attempt has sent since it had done so much is put or kept, and the task waits so. For want of memory nothing
/// changes but room.
pub(crate) fn wait_at_end(
    kept: &mut Kept,
    alloc: Global,
    owner: &Name,
    task: &Name,
    before: usize,
) -> Result<Given, AllocError>
    requires at { IfSome (named owner.now kept.old.attempts.entries) (IsTaskIn (shared_of kept.old) owner.now task.now) }
    requires there { IsSome (named owner.now kept.old.attempts.entries) }
    ensures { EndWaitsOr (shared_of kept.old) owner.now task.now before (shared_of kept.new) result }
{
    let turn = owner.copy(alloc)?;
    let told = owner.copy(alloc)?;
    post_sends(kept, alloc, owner, before)?;
    mark_task(kept, task, Mark::Waiting(WaitOn::Definite(turn)));
    Ok(Given::Waiting(WaitOn::Definite(told)))
}

/// The unit has an attempt and stands where the history left it, and no claim is on it. What no run can meet, as a unit with an
/// attempt that does not wait, is taken for want of memory.
pub(crate) fn check_trying(kept: &Kept, owner: &Name) -> Result<(), AllocError>
    requires there { IsSome (named owner.now kept.now.attempts.entries) }
    ensures { OnOk result (IsTrying (shared_of kept.now) owner.now) }
{
    if kept.runs_ahead(owner) {
        return Err(AllocError);
    }
    check_waiting(kept, owner)?;
    kept.units.lent_are_ready();
    Ok(())
}

/// The unit is there, and waits.
fn check_waiting(kept: &Kept, owner: &Name) -> Result<(), AllocError>
    ensures { OnOk result (IsWaitingUnit kept.now.units owner.now) }
{
    match kept.units.unit(owner) {
        Some(unit) => check_waits(&unit.mark),
        None => Err(AllocError),
    }
}

/// The mark says that the piece waits.
fn check_waits(mark: &Mark) -> Result<(), AllocError>
    ensures { OnOk result (says_ready mark.now ≡ false) }
{
    match mark {
        Mark::Waiting(_) => Ok(()),
        Mark::Ready(_) | Mark::Resting | Mark::Finished(_) | Mark::Dropped => Err(AllocError),
    }
}
