// Attempts that are gone, with their tasks, and the versions that those which are left read.
ghost use Rattle.std.specs.Option.{option_copied, option_map};
ghost use Rattle.std.specs.Prelude.{◌≡◌, ◌≤◌, ◌∷◌, [], IfNone, IfSome, None, Some, length};
ghost use Rattle.std.specs.Vec.{vec_capacity};
ghost use Rattle.attempts_gone.specs.Dropping.{IsTaskGone, IsUndone, TasksGone};
ghost use Rattle.shared_world.specs.rows.Attempts.{ArePrunedFor};
ghost use Rattle.task_fork_join.specs.Attempt.{names_in};
ghost use Rattle.task_fork_join.specs.Following.{names_after};
ghost use Rattle.unit_table.specs.Board.{HasPlace, SameClaims, SamePieces};
ghost use Rattle.value_core.specs.Named.{named, Name as Called};

use crate::snapshots::{Snapshots, fill_snapshots, take_attempt};
use ref_store::Store;
use std::collections::BTreeMap;
use task_fork_join::{TaskNames, Tree};
use unit_table::{Mark, Piece, Units};
use value_core::Name;

/// The attempt of the unit is gone, with its tasks, whose names come back where it had one. Their places stay, for
/// [`forget_tasks`]. It takes no memory.
pub fn drop_attempt(
    attempts: &mut BTreeMap<Name, Tree>,
    units: &mut Units,
    owner: &Name,
) -> Option<TaskNames>
    ensures gone { IsUndone owner.now attempts.old.entries units.old attempts.new.entries units.new }
    ensures names { result ≡ option_map (λ tree. names_in tree.tasks) (named owner.now attempts.old.entries) }
    ensures fewer { length attempts.new.entries ≤ length attempts.old.entries }
    ensures places { (other : Called) → HasPlace units.old other → HasPlace units.new other }
{
    let tree = take_attempt(attempts, owner)?;
    drop_tasks(units, &tree);
    Some(tree.into_names())
}

/// Gives up the places of these names where nothing stands and for whose finish nothing waits. What stands and what is lent stays.
/// It takes no memory.
pub fn forget_tasks(units: &mut Units, names: Option<TaskNames>)
    ensures pieces { SamePieces units.old units.new }
    ensures claims { SameClaims units.old units.new }
{
    if let Some(names) = names {
        forget_names(units, names);
    }
}

/// The same, where there are names.
fn forget_names(units: &mut Units, mut names: TaskNames)
    ensures pieces { SamePieces units.old units.new }
    ensures claims { SameClaims units.old units.new }
{
    while let Some(name) = names.next() {
        units.forget(&name);
    }
}

/// What the live attempts read stays, and the newest version of each ref; of others few are kept. There is room for the snapshots,
/// which are looked at only where a ref may have too many versions.
pub fn prune(attempts: &BTreeMap<Name, Tree>, store: &mut Store, live: Vec<u64>)
    requires empty { live.items ≡ [] }
    requires room { length attempts.now.entries ≤ vec_capacity live }
    ensures pruned { ArePrunedFor attempts.now.entries store.old.versions store.new.versions }
{
    if !store.is_due(attempts.len()) {
        return;
    }
    prune_due(attempts, store, live);
}

/// The same, where a ref may have too many versions.
fn prune_due(attempts: &BTreeMap<Name, Tree>, store: &mut Store, mut live: Vec<u64>)
    requires empty { live.items ≡ [] }
    requires room { length attempts.now.entries ≤ vec_capacity live }
    ensures pruned { ArePrunedFor attempts.now.entries store.old.versions store.new.versions }
{
    fill_snapshots(attempts, &mut live);
    store.prune(live.as_slice());
}

/// The same, where no room was made: each attempt is looked at for each version that may go. It takes no memory.
pub fn prune_by_walk(attempts: &BTreeMap<Name, Tree>, store: &mut Store)
    ensures pruned { ArePrunedFor attempts.now.entries store.old.versions store.new.versions }
{
    store.prune_for(&Snapshots { attempts });
}

/// The tasks of the attempt are gone. Their places stay, for [`forget_tasks`]. It takes no memory.
pub fn drop_tasks(units: &mut Units, tree: &Tree)
    ensures gone { TasksGone (names_in tree.now.tasks) units.old units.new }
    ensures places { (other : Called) → HasPlace units.old other → HasPlace units.new other }
{
    let mut next = first_task(tree);
    while let Some(name) = next {
        drop_task(units, name);
        next = tree.next_task(Some(name));
    }
}

/// The name of the first task, in after-order.
fn first_task(tree: &Tree) -> Option<&Name>
    ensures some { IfSome (option_copied result) (λ name. names_after None tree.now.tasks ≡ name ∷ names_after (Some name) tree.now.tasks) }
    ensures none { IfNone (option_copied result) (names_after None tree.now.tasks ≡ []) }
{
    tree.next_task(None)
}

/// The task of that name is gone, where it is one.
fn drop_task(units: &mut Units, name: &Name)
    ensures gone { IsTaskGone name.now units.old units.new }
    ensures places { (other : Called) → HasPlace units.old other → HasPlace units.new other }
{
    if let Some(Piece::Task(_)) = units.piece(name) {
        units.mark(name, Mark::Dropped);
    }
}
