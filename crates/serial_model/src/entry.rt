ghost use Rattle.std.specs.Prelude.{◌≡◌, IfOk};

use std::alloc::{AllocError, Global};
use value_core::Name;

/// One step of a history.
#[derive(Debug, Drop)]
pub enum Entry {
    /// The unit of that name goes to its next effect and does it whole, or finishes.
    Run(Name),
    /// The actor, the first of these, begins a turn on the first message that the unit sent to it.
    Take(Name, Name),
}

impl Entry {
    /// An equal entry.
    pub fn copy(&self, alloc: Global) -> Result<Self, AllocError>
        ensures { IfOk result (λ copied. copied ≡ self.now) }
    {
        match self {
            Entry::Run(unit) => Ok(Entry::Run(unit.copy(alloc)?)),
            Entry::Take(actor, sender) => {
                let actor = actor.copy(alloc)?;
                Ok(Entry::Take(actor, sender.copy(alloc)?))
            }
        }
    }
}
