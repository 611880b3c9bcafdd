ghost use Rattle.std.specs.Prelude.{◌≡◌, IfOk};

use std::alloc::{AllocError, Global};
use value_core::{Code, Name, Place};

/// How a run ends.
#[derive(Drop)]
pub enum End {
    /// Every unit is finished.
    Done,
    /// A form of that unit failed, at that place.
    Fault { code: Code, at: Place, unit: Name },
    /// That unit, or a task of its transaction, would have entered one node more than it has fuel for.
    Spent { unit: Name },
    /// One unit more than the limit would have been made.
    UnitsSpent,
}

impl End {
    /// An equal end.
    pub fn copy(&self, alloc: Global) -> Result<Self, AllocError>
        ensures { IfOk result (λ copied. copied ≡ self.now) }
    {
        match self {
            End::Done => Ok(End::Done),
            End::Fault { code, at, unit } => Ok(End::Fault {
                code: *code,
                at: *at,
                unit: unit.copy(alloc)?,
            }),
            End::Spent { unit } => Ok(End::Spent {
                unit: unit.copy(alloc)?,
            }),
            End::UnitsSpent => Ok(End::UnitsSpent),
        }
    }
}
