ghost use Rattle.std.specs.Prelude.{◌≡◌, IfOk};

use std::alloc::{AllocError, Global};
use value_core::{Code, Place, Value};

/// How a task of a transaction ended: at its value, a fault at its place, or its spent budget.
#[derive(Drop)]
pub enum TaskEnd {
    Value(Value),
    Fault(Code, Place),
    Spent,
}

impl TaskEnd {
    /// The same end.
    pub fn copy(&self, alloc: Global) -> Result<TaskEnd, AllocError>
        ensures { IfOk result (λ copied. copied ≡ self.now) }
    {
        match self {
            TaskEnd::Value(value) => Ok(TaskEnd::Value(value.copy(alloc)?)),
            TaskEnd::Fault(code, at) => Ok(TaskEnd::Fault(*code, *at)),
            TaskEnd::Spent => Ok(TaskEnd::Spent),
        }
    }
}
