ghost use Rattle.std.specs.Prelude.{◌≡◌, ◌+◌, ◌<◌, ◌≤◌, [], ◌∷◌, ◌++◌, IsOk, OnOk, OnErr};

use crate::entry::Entry;
use std::alloc::{AllocError, Global};
use std::marker::Model;
use value_core::Reserved;

/// The entries of a run, in the order in which they were settled. Contracts see it with its room: so many entries more
/// can be pushed and no memory is taken.
#[derive(Drop)]
pub struct History {
    entries: Reserved<Entry>,
}

impl Model for History {
    ghost use Rattle.value_core.specs.Roomy.{Roomy};
    ghost use Rattle.serial_model.specs.declared.entry.Entry.{Entry};

    ghost Value = { Roomy Entry };

    ghost view = { λ h. h.entries };
}

impl History {
    /// The empty history. It takes no memory.
    pub fn new(alloc: Global) -> Self
        ensures { result.items ≡ [] }
    {
        History {
            entries: Reserved::new(alloc),
        }
    }

    /// The entries in order.
    pub fn entries(&self) -> &[Entry]
        ensures { result.now ≡ self.now.items }
    {
        self.entries.items()
    }

    /// Makes room for `more` further entries, or finds no memory. The entries stay, and the room does not shrink.
    pub fn reserve(&mut self, more: usize) -> Result<(), AllocError>
        ensures items { self.new.items ≡ self.old.items }
        ensures room { OnOk result (more ≤ self.new.room) }
        ensures kept { self.old.room ≤ self.new.room }
    {
        self.entries.reserve(more)
    }

    /// Appends the entry. Where there is room it takes no memory, and succeeds. For want of memory the entries stay.
    pub fn push(&mut self, entry: Entry) -> Result<(), AllocError>
        ensures pushed { OnOk result (self.new.items ≡ self.old.items ++ entry ∷ []) }
        ensures full { OnErr result (self.new.items ≡ self.old.items) }
        ensures room { 0 < self.old.room → IsOk result × (self.old.room ≤ self.new.room + 1) }
    {
        self.entries.push(entry).map_err(|_| AllocError)
    }
}
