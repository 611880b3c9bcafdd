// How an attempt is undone.
ghost use Rattle.std.specs.Prelude.{◌≡◌, IfSome, None, Some};
ghost use Rattle.attempt_undoing.specs.Sends.{ActorsMarked};
ghost use Rattle.attempt_undoing.specs.Turns.{HangingGone};
ghost use Rattle.attempt_undoing.specs.Undoing.{HasUndone, IsClaimedTask, IsReadied, TookOut, UndoneFrom, UndoneTaken};
ghost use Rattle.attempts_gone.specs.Dropping.{HasAttempt};
ghost use Rattle.shared_world.specs.Marks.{AreMarkedBeside};
ghost use Rattle.shared_world.specs.rows.Undoing.{IdleEnd};
ghost use Rattle.shared_world.specs.Stands.{Stands};
ghost use Rattle.turns_ahead.specs.Leading.{ahead_of};
ghost use Rattle.unit_table.specs.Board.{LentAreReady};
ghost use Rattle.value_core.specs.Named.{each_as, named};
ghost use Rattle.world_steps.specs.Kept.{shared_of};

use crate::dropping::{drop_tree, drop_turn};
use crate::hanging::{next_hanging, numbered, standing};
use attempts_gone::{prune_by_walk, take_named};
use std::alloc::Global;
use std::collections::BTreeMap;
use std::mem;
use task_fork_join::Tree;
use turns_ahead::TurnAhead;
use txn_snapshot::Reads;
use unit_table::{Mark, Units, Work};
use value_core::{Name, Ticket};
use world_steps::Kept;

/// Whose attempt was undone, and what that had read.
#[derive(Drop)]
pub struct Undone {
    pub unit: Name,
    pub reads: Reads,
}

/// The attempt of the unit is undone with all that hangs on it, and the unit can begin a new one. It takes no memory.
pub fn undo_attempt(kept: &mut Kept, alloc: Global, owner: &Name) -> Undone
    requires stands { Stands (shared_of kept.old) }
    requires marks { AreMarkedBeside (shared_of kept.old) owner.now }
    requires going { kept.old.end ≡ None }
    requires attempt { HasAttempt (shared_of kept.old) owner.now }
    ensures undone { HasUndone (shared_of kept.old) owner.now (shared_of kept.new) }
    ensures claims { IdleEnd (shared_of kept.old) (shared_of kept.new) }
    ensures unit { result.unit ≡ owner.now }
    ensures reads { IfSome (named owner.now kept.old.attempts.entries) (λ tree. result.reads.items ≡ tree.reads) }
{
    kept.units.lent_are_ready();
    match take_named(&mut kept.attempts, owner) {
        Some((unit, tree)) => undo_taken(kept, alloc, unit, tree),
        None => unreachable!(),
    }
}

/// The same, for the attempt of the task that is claimed under the ticket: the unit's name is not asked for.
pub fn undo_claimed(kept: &mut Kept, alloc: Global, claim: Ticket) -> Undone
    requires stands { Stands (shared_of kept.old) }
    requires marks { (c : IsClaimedTask (shared_of kept.old) claim) → AreMarkedBeside (shared_of kept.old) c.owner }
    requires going { kept.old.end ≡ None }
    requires claimed { IsClaimedTask (shared_of kept.old) claim }
    ensures { (c : IsClaimedTask (shared_of kept.old) claim) → UndoneFrom (shared_of kept.old) c.owner (shared_of kept.new) result }
{
    kept.units.lent_are_ready();
    match take_claimed(kept, claim) {
        Some((unit, tree)) => undo_taken(kept, alloc, unit, tree),
        None => unreachable!(),
    }
}

/// The attempt of the task that is claimed under the ticket, which is gone then, with the name of its unit.
fn take_claimed(kept: &mut Kept, claim: Ticket) -> Option<(Name, Tree)>
    ensures out { (c : IsClaimedTask (shared_of kept.old) claim) → TookOut (shared_of kept.old) c.owner result (shared_of kept.new) }
    ensures others { kept.new ≡ record kept.old { attempts = kept.new.attempts } }
{
    let task = kept.units.piece_of(claim)?;
    let owner = kept.owners.get(task)?;
    take_named(&mut kept.attempts, owner)
}

/// The attempt of that unit, which is taken out, is undone with all that hangs on it.
fn undo_taken(kept: &mut Kept, alloc: Global, unit: Name, tree: Tree) -> Undone
    requires marks { ActorsMarked (shared_of kept.old) }
    ensures undone { UndoneTaken unit tree (shared_of kept.old) (shared_of kept.new) }
    ensures lent { LentAreReady kept.new.units }
    ensures unit { result.unit ≡ unit }
    ensures reads { result.reads.items ≡ tree.reads }
{
    let aheads = mem::replace(&mut kept.aheads, BTreeMap::new(alloc));
    let begun = mem::replace(&mut kept.begun, BTreeMap::new(alloc));
    let reads = drop_tree(kept, tree);
    drop_hanging(kept, &aheads, &begun);
    kept.aheads = standing(aheads, &kept.units);
    kept.begun = numbered(begun, &kept.aheads);
    make_ready(&mut kept.units, &unit);
    prune_by_walk(&kept.attempts, &mut kept.store);
    kept.units.lent_are_ready();
    Undone { unit, reads }
}

/// The turns that hang on what is gone are gone, one after another, with what they and their attempts have sent. It takes no memory.
fn drop_hanging(kept: &mut Kept, aheads: &BTreeMap<Name, TurnAhead>, begun: &BTreeMap<u64, Name>)
    requires marks { ActorsMarked (shared_of kept.old) }
    ensures gone { HangingGone (each_as ahead_of aheads.now.entries) (shared_of kept.old) (shared_of kept.new) }
    ensures others { kept.new ≡ record kept.old { units = kept.new.units; attempts = kept.new.attempts; mails = kept.new.mails; taken = kept.new.taken } }
{
    let mut last = 0;
    while let Some((name, turn)) = next_hanging(aheads, begun, last, &kept.taken, &kept.units) {
        drop_turn(kept, name, turn);
        last = turn.number();
    }
}

/// What stands under the name is ready to settle, where something does. Where it is that already, the claim on it stays.
fn make_ready(units: &mut Units, name: &Name)
    ensures { IsReadied name.now units.old units.new }
{
    match units.mark_of(name) {
        Some(Mark::Ready(Work::Settle)) | None => {}
        Some(_) => units.mark(name, Mark::Ready(Work::Settle)),
    }
}
