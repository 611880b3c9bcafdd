// The tasks of an attempt, one after another.
ghost use Rattle.std.specs.Prelude.{◌≡◌, ◌∷◌, [], IfNone, IfSome, Some};
ghost use Rattle.std.specs.Option.{option_copied};
ghost use Rattle.std.specs.Range.Bound.{bound_map};
ghost use Rattle.task_fork_join.specs.Following.{after_bound, names_after};

use crate::task::Task;
use std::collections::{BTreeMap, Bound};
use value_core::Name;

/// The name of the first task that comes after that name, or of all where none is given.
pub(crate) fn next_task<'a>(
    tasks: &'a BTreeMap<Name, Task>,
    after: Option<&Name>,
) -> Option<&'a Name>
    ensures some { IfSome (option_copied result) (λ name. names_after (option_copied after.entry) tasks.now.entries ≡ name ∷ names_after (Some name) tasks.now.entries) }
    ensures none { IfNone (option_copied result) (names_after (option_copied after.entry) tasks.now.entries ≡ []) }
{
    let mut rest = tasks.range((start_after(after), Bound::Unbounded));
    match rest.next() {
        Some((name, _task)) => Some(name),
        None => None,
    }
}

/// From where on the names come after this one.
fn start_after(name: Option<&Name>) -> Bound<&Name>
    ensures { bound_map (λ q. q.now) result ≡ after_bound (option_copied name.entry) }
{
    match name {
        Some(name) => Bound::Excluded(name),
        None => Bound::Unbounded,
    }
}
