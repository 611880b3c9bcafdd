ghost use Rattle.std.specs.Prelude.{◌≡◌, []};
ghost use Rattle.serial_model.specs.Log.{new_log};

use std::alloc::Global;
use std::collections::BTreeSet;
use task_log::TaskLog;
use value_core::{Code, Name, Place, Value};

/// How a task of a transaction ends.
#[derive(Drop)]
pub enum TaskEnd {
    Value(Value),
    Fault(Code, Place),
    Spent,
    /// It asks for what is not there.
    Blocked,
}

/// A task: what it has done, and which results it came to know.
#[derive(Drop)]
pub struct Task {
    pub log: TaskLog,
    pub known: BTreeSet<Name>,
}

/// A task that ended.
#[derive(Drop)]
pub struct Done {
    pub end: TaskEnd,
    pub task: Task,
}

impl Task {
    /// A task of that name that has done nothing.
    pub(crate) fn new(alloc: Global, name: Name) -> Self
        ensures log { result.log ≡ new_log name }
        ensures known { result.known.keys ≡ [] }
    {
        Task {
            log: TaskLog::new(alloc, name),
            known: BTreeSet::new(alloc),
        }
    }
}
