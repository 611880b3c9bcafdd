// The tasks that wait until a turn is definite and holds nothing.
ghost use Rattle.std.specs.Prelude.{◌≡◌, ◌∷◌, [], IfNone, IfSome, None, Some, is_some};
ghost use Rattle.std.specs.Option.{option_copied};
ghost use Rattle.ahead_settling.specs.Leaving.{AreWoken, NoneWaits, WaitersAmong};
ghost use Rattle.ahead_settling.specs.Waking.{waits_for, IsWoken};
ghost use Rattle.task_fork_join.specs.Following.{names_after};
ghost use Rattle.unit_table.specs.Board.{piece_at, HasPlace, SameClaims};
ghost use Rattle.value_core.specs.Named.{named, Name as Called};
ghost use Rattle.value_core.specs.NameSet.{holds_at};

use std::collections::BTreeMap;
use task_fork_join::Tree;
use unit_table::{Mark, Piece, Units, WaitOn, Work};
use value_core::Name;
use value_core::name_map::find;

/// What waits for the turn is ready to settle: these are tasks of its attempt. It takes no memory.
pub(crate) fn wake_waiters(units: &mut Units, attempts: &BTreeMap<Name, Tree>, turn: &Name)
    requires waiters { WaitersAmong units.old turn.now (named turn.now attempts.now.entries) }
    ensures woken { NoneWaits turn.now units.old units.new }
    ensures claims { SameClaims units.old units.new }
    ensures places { (other : Called) → HasPlace units.old other → HasPlace units.new other }
{
    if let Some(tree) = find(attempts, turn) {
        wake_tasks(units, tree, turn);
    }
}

/// The tasks of the attempt that wait for the turn are ready to settle. It takes no memory.
fn wake_tasks(units: &mut Units, tree: &Tree, turn: &Name)
    ensures woken { AreWoken turn.now (λ name. is_some (named name tree.now.tasks)) units.old units.new }
    ensures claims { SameClaims units.old units.new }
    ensures places { (other : Called) → HasPlace units.old other → HasPlace units.new other }
{
    let mut next = first_task(tree);
    while let Some(task) = next {
        wake(units, task, turn);
        next = tree.next_task(Some(task));
    }
}

/// The name of the first task, in after-order.
fn first_task(tree: &Tree) -> Option<&Name>
    ensures some { IfSome (option_copied result) (λ name. names_after None tree.now.tasks ≡ name ∷ names_after (Some name) tree.now.tasks) }
    ensures none { IfNone (option_copied result) (names_after None tree.now.tasks ≡ []) }
{
    tree.next_task(None)
}

/// The task of that name is ready to settle, where it waits for the turn. It takes no memory.
fn wake(units: &mut Units, task: &Name, turn: &Name)
    ensures woken { IsWoken turn.now task.now units.old units.new }
    ensures claims { SameClaims units.old units.new }
    ensures places { (other : Called) → HasPlace units.old other → HasPlace units.new other }
{
    if hangs_on(units, task, turn) {
        units.claims_are_tied();
        units.lent_are_ready();
        units.mark(task, Mark::Ready(Work::Settle));
    }
}

/// Whether a task stands there that waits for the turn.
fn hangs_on(units: &Units, task: &Name, turn: &Name) -> bool
    ensures { result ≡ holds_at (waits_for turn.now) (piece_at units.now task.now) }
{
    match units.piece(task) {
        Some(Piece::Task(Mark::Waiting(WaitOn::Definite(on)))) => on == turn,
        _ => false,
    }
}
