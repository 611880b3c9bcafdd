ghost use Rattle.std.specs.Prelude.{◌≡◌, IfOk};

use crate::request::Request;
use std::alloc::{AllocError, Global};
use value_core::{Code, Place, Value};

/// Where an evaluation stops.
#[derive(Drop)]
pub enum Halt {
    /// At a request, which the form at that place makes.
    Ask(Request, Place),
    /// At its value.
    Value(Value),
    /// At a fault of the form at that place.
    Fault(Code, Place),
    /// Where it would enter one node more than it has fuel for.
    Spent,
}

impl Halt {
    /// An equal halt.
    pub fn copy(&self, alloc: Global) -> Result<Self, AllocError>
        ensures { IfOk result (λ copied. copied ≡ self.now) }
    {
        match self {
            Halt::Ask(request, at) => Ok(Halt::Ask(request.copy(alloc)?, *at)),
            Halt::Value(value) => Ok(Halt::Value(value.copy(alloc)?)),
            Halt::Fault(code, at) => Ok(Halt::Fault(*code, *at)),
            Halt::Spent => Ok(Halt::Spent),
        }
    }
}
