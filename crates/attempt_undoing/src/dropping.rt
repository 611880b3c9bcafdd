// Turns that are gone, with their attempts.
ghost use Rattle.std.specs.Prelude.{◌≡◌};
ghost use Rattle.attempt_undoing.specs.Dropping.{IsUnitGone};
ghost use Rattle.attempt_undoing.specs.Sends.{ActorsMarked};
ghost use Rattle.attempt_undoing.specs.Turns.{TreeGone, TriedGone, TurnGone};
ghost use Rattle.turns_ahead.specs.Leading.{ahead_of};
ghost use Rattle.world_steps.specs.Kept.{shared_of};

use crate::sends::{drop_done, drop_held};
use attempts_gone::{drop_tasks, forget_tasks, take_named};
use task_fork_join::Tree;
use turns_ahead::TurnAhead;
use txn_snapshot::Reads;
use unit_table::{Mark, Piece, Units};
use value_core::Name;
use world_steps::Kept;

/// The turn is gone, with its attempt, what both have sent, and its unit; it stays among those that run ahead. It takes no memory.
pub(crate) fn drop_turn(kept: &mut Kept, name: &Name, turn: &TurnAhead)
    requires marks { ActorsMarked (shared_of kept.old) }
    ensures gone { TurnGone name.now (ahead_of turn.now) (shared_of kept.old) (shared_of kept.new) }
    ensures marks { ActorsMarked (shared_of kept.new) }
    ensures others { kept.new ≡ record kept.old { units = kept.new.units; attempts = kept.new.attempts; mails = kept.new.mails; taken = kept.new.taken } }
{
    drop_held(kept, turn, name);
    drop_tried(kept, name);
    drop_unit(&mut kept.units, name);
}

/// The attempt of the unit is gone with its tasks and what it has sent, where it has one.
fn drop_tried(kept: &mut Kept, name: &Name)
    requires marks { ActorsMarked (shared_of kept.old) }
    ensures gone { TriedGone name.now (shared_of kept.old) (shared_of kept.new) }
    ensures marks { ActorsMarked (shared_of kept.new) }
    ensures others { kept.new ≡ record kept.old { units = kept.new.units; attempts = kept.new.attempts; mails = kept.new.mails; taken = kept.new.taken } }
{
    if let Some((_unit, tree)) = take_named(&mut kept.attempts, name) {
        let _reads = drop_tree(kept, tree);
    }
}

/// The tasks of the attempt, which is taken out, are gone, and what its root has sent. What they read is given back. It takes no memory.
pub(crate) fn drop_tree(kept: &mut Kept, tree: Tree) -> Reads
    requires marks { ActorsMarked (shared_of kept.old) }
    ensures gone { TreeGone tree (shared_of kept.old) (shared_of kept.new) }
    ensures reads { result.items ≡ tree.reads }
    ensures marks { ActorsMarked (shared_of kept.new) }
    ensures others { kept.new ≡ record kept.old { units = kept.new.units; mails = kept.new.mails; taken = kept.new.taken } }
{
    drop_done(kept, tree.root().effects(), tree.root_name());
    drop_tasks(&mut kept.units, &tree);
    let (names, reads) = tree.into_parts();
    forget_tasks(&mut kept.units, Some(names));
    reads
}

/// The unit of that name is gone with its place, where it is one.
fn drop_unit(units: &mut Units, name: &Name)
    ensures { IsUnitGone name.now units.old units.new }
{
    if let Some(Piece::Unit(_)) = units.piece(name) {
        units.mark(name, Mark::Dropped);
        units.forget(name);
    }
}
