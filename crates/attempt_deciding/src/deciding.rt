// What comes of an attempt whose root is at its end.
ghost use Rattle.std.specs.Prelude.{◌≡◌, ◌↔◌, IfOk, IfSome, IsTrue, None, Some};
ghost use Rattle.attempt_commits.specs.Committing.{IsTrying};
ghost use Rattle.attempt_deciding.specs.Deciding.{DecidedOr, IsEndedAt, IsToDecide, IsValidated, SettledOr};
ghost use Rattle.attempt_deciding.specs.TaskAt.{IsTaskAt};
ghost use Rattle.attempt_deciding.specs.Undoing.{FindsToUndo};
ghost use Rattle.world_steps.specs.Kept.{shared_of};
ghost use Rattle.shared_world.specs.Marks.{AreMarkedBeside};
ghost use Rattle.shared_world.specs.Stands.{Stands};
ghost use Rattle.task_fork_join.specs.Attempt.{end_at};
ghost use Rattle.value_core.specs.Named.{named};

use crate::undoing::abort_for;
use attempt_commits::commit;
use ref_store::Store;
use shared_world::Given;
use std::alloc::{AllocError, Global};
use std::collections::BTreeMap;
use task_fork_join::{TaskEnd, Tree};
use txn_commit::{Conflict, validate};
use unit_table::{Piece, Units};
use value_core::Name;
use value_core::name_map::find;
use world_steps::Kept;

/// What comes of the attempt of the unit, whose root is at its end: it is undone where a ref that it read has been
/// written since, and else it commits or ends the run.
pub fn decide(kept: &mut Kept, alloc: Global, owner: &Name) -> Result<Given, AllocError>
    requires stands { Stands (shared_of kept.old) }
    requires marks { AreMarkedBeside (shared_of kept.old) owner.now }
    requires going { kept.old.end ≡ None }
    requires attempt { IsTrying (shared_of kept.old) owner.now }
    ensures { DecidedOr (shared_of kept.old) owner.now (shared_of kept.new) result }
{
    match find_changed(kept, owner) {
        Some(conflict) => Ok(abort_for(kept, alloc, owner, conflict)),
        None => settle_end(kept, alloc, owner),
    }
}

/// The first ref that the attempt of the task has read and that has a version above its snapshot, where the root of the attempt is at its
/// end and its unit stands where the history left it: the attempt is to be undone then. It takes no memory.
pub fn to_undo(kept: &Kept, task: &Name) -> Option<Conflict>
    ensures { FindsToUndo (shared_of kept.now) task.now result }
{
    let owner = kept.owners.get(task)?;
    if is_to_decide(kept, task, owner) {
        find_changed(kept, owner)
    } else {
        None
    }
}

/// Whether that is a task, the root of the unit's attempt is at its end, and the unit stands where the history left it.
fn is_to_decide(kept: &Kept, task: &Name, owner: &Name) -> bool
    ensures { IsTrue result ↔ IsToDecide (shared_of kept.now) task.now owner.now }
{
    is_task(&kept.units, task) && is_ended(&kept.attempts, owner) && !kept.runs_ahead(owner)
}

/// Whether a task stands under the name.
fn is_task(units: &Units, name: &Name) -> bool
    ensures { IsTrue result ↔ IsTaskAt units.now name.now }
{
    match units.piece(name) {
        Some(Piece::Task(_)) => true,
        _ => false,
    }
}

/// Whether the unit has an attempt whose root is at its end.
fn is_ended(attempts: &BTreeMap<Name, Tree>, owner: &Name) -> bool
    ensures { IsTrue result ↔ IsEndedAt attempts.now.entries owner.now }
{
    match find(attempts, owner) {
        Some(tree) => tree.outcome().is_some(),
        None => false,
    }
}

/// The first ref that the attempt read and that has been written since. It takes no memory.
fn find_changed(kept: &Kept, owner: &Name) -> Option<Conflict>
    ensures { IfSome (named owner.now kept.now.attempts.entries) (λ tree. IsValidated kept.now.store.versions tree result) }
{
    match find(&kept.attempts, owner) {
        Some(tree) => first_changed(tree, &kept.store),
        None => None,
    }
}

/// What comes of an attempt that is valid.
fn settle_end(kept: &mut Kept, alloc: Global, owner: &Name) -> Result<Given, AllocError>
    requires stands { Stands (shared_of kept.old) }
    requires going { kept.old.end ≡ None }
    requires attempt { IsTrying (shared_of kept.old) owner.now }
    ensures { SettledOr (shared_of kept.old) owner.now (shared_of kept.new) result }
{
    match end_of(kept, alloc, owner)? {
        TaskEnd::Value(value) => commit(kept, alloc, owner, value),
        TaskEnd::Fault(code, at) => kept.fail(alloc, owner, code, at),
        TaskEnd::Spent => kept.spend(alloc, owner),
    }
}

/// How the root of the attempt ended. Where it did not, of which no claim knows, it is taken for want of memory.
fn end_of(kept: &Kept, alloc: Global, owner: &Name) -> Result<TaskEnd, AllocError>
    ensures { IfOk result (λ ended. IfSome (named owner.now kept.now.attempts.entries) (λ tree. end_at tree ≡ Some ended)) }
{
    match find(&kept.attempts, owner) {
        Some(tree) => end_in(alloc, tree),
        None => Err(AllocError),
    }
}

/// How the root ended.
fn end_in(alloc: Global, tree: &Tree) -> Result<TaskEnd, AllocError>
    ensures { IfOk result (λ ended. end_at tree.now ≡ Some ended) }
{
    match tree.outcome() {
        Some(ended) => ended.copy(alloc),
        None => Err(AllocError),
    }
}

/// The first ref that the attempt read and that has a version above its snapshot.
fn first_changed(tree: &Tree, store: &Store) -> Option<Conflict>
    ensures { IsValidated store.now.versions tree.now result }
{
    match validate(tree.reads(), store, tree.snapshot()) {
        Ok(()) => None,
        Err(conflict) => Some(conflict),
    }
}
