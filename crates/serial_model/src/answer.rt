ghost use Rattle.std.specs.Prelude.{◌≡◌, IfOk};

use std::alloc::{AllocError, Global};
use value_core::{Code, Value};

/// What a request is answered with.
#[derive(Drop)]
pub enum Answer {
    Value(Value),
    /// The request fails, with that code at the place of its form.
    Fault(Code),
}

impl Answer {
    /// An equal answer.
    pub fn copy(&self, alloc: Global) -> Result<Self, AllocError>
        ensures { IfOk result (λ copied. copied ≡ self.now) }
    {
        match self {
            Answer::Value(value) => Ok(Answer::Value(value.copy(alloc)?)),
            Answer::Fault(code) => Ok(Answer::Fault(*code)),
        }
    }
}
