// How an attempt is undone.
ghost use Rattle.std.specs.Prelude.{◌≡◌, ◌<◌, IfSome, None, Some, length};
ghost use Rattle.attempt_deciding.specs.Undoing.{HasAborted, HasConflicted, IsAborted, IsClaimToUndo};
ghost use Rattle.attempts_gone.specs.Dropping.{HasAttempt};
ghost use Rattle.shared_world.specs.Gave.{GaveTask};
ghost use Rattle.shared_world.specs.Marks.{AreMarked, AreMarkedBeside};
ghost use Rattle.shared_world.specs.Stands.{Stands};
ghost use Rattle.txn_commit.specs.Conflict.{IsFirstConflict};
ghost use Rattle.unit_table.specs.Board.{lent_to};
ghost use Rattle.value_core.specs.Named.{named, Name as Called};
ghost use Rattle.world_steps.specs.Kept.{shared_of};

use attempt_undoing::{Undone, undo_attempt, undo_claimed};
use shared_world::Given;
use std::alloc::Global;
use txn_commit::Conflict;
use txn_snapshot::Reads;
use value_core::{Name, Ticket};
use world_steps::Kept;

/// The attempt of the unit is undone with all that hangs on it, since that ref has that version, and the unit can begin a new one. It
/// takes no memory.
pub fn abort(kept: &mut Kept, alloc: Global, owner: &Name, name: Name, version: u64) -> Given
    requires stands { Stands (shared_of kept.old) }
    requires marks { AreMarkedBeside (shared_of kept.old) owner.now }
    requires going { kept.old.end ≡ None }
    requires attempt { HasAttempt (shared_of kept.old) owner.now }
    ensures { HasAborted (shared_of kept.old) owner.now name version (shared_of kept.new) result }
{
    let Undone { unit, reads } = undo_attempt(kept, alloc, owner);
    reads_go(reads);
    Given::Aborted {
        unit,
        name,
        version,
    }
}

/// The same, since the ref in the conflict's place among those that the attempt has read has the conflict's version.
pub(crate) fn abort_for(kept: &mut Kept, alloc: Global, owner: &Name, conflict: Conflict) -> Given
    requires stands { Stands (shared_of kept.old) }
    requires marks { AreMarkedBeside (shared_of kept.old) owner.now }
    requires going { kept.old.end ≡ None }
    requires attempt { HasAttempt (shared_of kept.old) owner.now }
    requires conflict { IfSome (named owner.now kept.old.attempts.entries) (λ tree. IsFirstConflict tree.reads kept.old.store.versions tree.snapshot conflict) }
    ensures { HasConflicted (shared_of kept.old) owner.now conflict (shared_of kept.new) result }
{
    let Undone { unit, reads } = undo_attempt(kept, alloc, owner);
    aborted(unit, reads, conflict)
}

/// The same, for the attempt of the task that is claimed under the ticket.
pub fn abort_claimed(kept: &mut Kept, alloc: Global, claim: Ticket, conflict: Conflict) -> Given
    requires stands { Stands (shared_of kept.old) }
    requires marks { AreMarked (shared_of kept.old) }
    requires going { kept.old.end ≡ None }
    requires claimed { IsClaimToUndo (shared_of kept.old) claim conflict }
    ensures { (task : Called) → lent_to kept.old.units claim ≡ Some task → GaveTask (shared_of kept.old) task result (shared_of kept.new) }
{
    let Undone { unit, reads } = undo_claimed(kept, alloc, claim);
    aborted(unit, reads, conflict)
}

/// The attempt of that unit is undone, since the ref in the conflict's place among these has the conflict's version. It takes no
/// memory.
fn aborted(unit: Name, reads: Reads, conflict: Conflict) -> Given
    requires { conflict.index < length reads.items }
    ensures { IsAborted unit reads.items conflict result }
{
    let name = reads.into_name(conflict.index);
    Given::Aborted {
        unit,
        name,
        version: conflict.version,
    }
}

/// Drops what an attempt has read.
fn reads_go(_reads: Reads) {}
