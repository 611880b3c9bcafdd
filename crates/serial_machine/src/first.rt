ghost use Rattle.std.specs.Prelude.{◌≡◌, ℕ, List, IfOk, is_some, not};
ghost use Rattle.serial_model.specs.First.{first_of};
ghost use Rattle.serial_machine.specs.Now.{state_after};

use crate::now::Now;
use serial_model::Entry;
use std::alloc::{AllocError, Global};

impl Now {
    /// The entry that one thread settles next.
    pub(crate) fn first(&self, alloc: Global) -> Result<Option<Entry>, AllocError>
        ensures { IfOk result (λ found. (before : List ℕ) → found ≡ first_of (state_after before self.now)) }
    {
        if self.end.is_some() {
            return Ok(None);
        }
        match self.units.first_unfinished() {
            Some(name) => Ok(Some(Entry::Run(name.copy(alloc)?))),
            None => match self.queues.first() {
                Some((actor, sender)) => {
                    let actor = actor.copy(alloc)?;
                    Ok(Some(Entry::Take(actor, sender.copy(alloc)?)))
                }
                None => Ok(None),
            },
        }
    }

    /// Whether one thread settles nothing more.
    pub(crate) fn is_over(&self) -> bool
        ensures { (before : List ℕ) → result ≡ not (is_some (first_of (state_after before self.now))) }
    {
        self.end.is_some()
            || (self.units.first_unfinished().is_none() && self.queues.first().is_none())
    }
}
