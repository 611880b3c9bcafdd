ghost use Rattle.std.specs.Prelude.{◌≡◌, ◌∷◌, [], IfNone, IfSome};

use crate::task::Task;
use std::collections::BTreeMap;
use std::marker::Model;
use value_core::Name;

/// The names of the tasks of an attempt that was given up, in after-order.
#[derive(Drop)]
pub struct TaskNames {
    pub(crate) tasks: BTreeMap<Name, Task>,
}

impl Model for TaskNames {
    ghost use Rattle.std.specs.Prelude.{List};
    ghost use Rattle.std.specs.Coded.{coded_list, coded_ℕ};
    ghost use Rattle.task_fork_join.specs.Attempt.{names_in};
    ghost use Rattle.value_core.specs.Named.{Name as Called};

    ghost Value = { List Called };

    ghost coded = { coded_list (coded_list coded_ℕ) };

    ghost view = { λ t. names_in t.tasks.entries };
}

impl TaskNames {
    /// The next of the names. None exactly where none is left. It takes no memory.
    pub fn next(&mut self) -> Option<Name>
        ensures some { IfSome result (λ name. self.old ≡ name ∷ self.new) }
        ensures none { IfNone result (self.old ≡ []) }
    {
        match self.tasks.pop_first() {
            Some(entry) => {
                let (name, _task) = entry;
                Some(name)
            }
            None => None,
        }
    }
}
