ghost use Rattle.std.specs.Prelude.{◌≡◌, ◌+◌, ◌<◌, ◌≤◌, [], ◌∷◌, ◌++◌, IsOk, OnOk, MatchResult};

use std::alloc::{AllocError, Global};
use std::marker::Model;

/// A list that contracts see with its room: so many items more can be pushed and no memory is taken.
#[derive(Drop)]
pub struct Reserved<T> {
    items: Vec<T>,
}

impl<T> Model for Reserved<T> {
    ghost use Rattle.std.specs.Prelude.{◌-◌};
    ghost use Rattle.std.specs.Vec.{vec_len, vec_capacity};
    ghost use Rattle.value_core.specs.Roomy.{Roomy, roomy_code};

    ghost Value = { Roomy T };

    ghost coded = { roomy_code T.code };

    ghost view = { λ a. record { items = a.items.items; room = vec_capacity a.items - vec_len a.items } };
}

impl<T> Reserved<T> {
    /// The empty list. It takes no memory.
    pub fn new(alloc: Global) -> Self
        ensures { result.items ≡ [] }
    {
        Reserved {
            items: Vec::new(alloc),
        }
    }

    /// The items in order.
    pub fn items(&self) -> &[T]
        ensures { result.now ≡ self.now.items }
    {
        self.items.as_slice()
    }

    /// Makes room for `more` further items, or finds no memory. The items stay, and the room does not shrink.
    pub fn reserve(&mut self, more: usize) -> Result<(), AllocError>
        ensures items { self.new.items ≡ self.old.items }
        ensures room { OnOk result (more ≤ self.new.room) }
        ensures kept { self.old.room ≤ self.new.room }
        ensures succeeds { more ≤ self.old.room → IsOk result }
    {
        self.items.reserve(more)
    }

    /// Appends the item. Where there is room it takes no memory, and succeeds. For want of memory it hands the item
    /// back, and the list stays.
    pub fn push(&mut self, item: T) -> Result<(), T>
        ensures pushed { MatchResult result (λ _. self.new.items ≡ self.old.items ++ item ∷ []) (λ back. (self.new.items ≡ self.old.items) × (back ≡ item)) }
        ensures room { 0 < self.old.room → IsOk result × (self.old.room ≤ self.new.room + 1) }
    {
        if self.items.len() < self.items.capacity() {
            self.items.push_reserved(item);
            return Ok(());
        }
        self.items.push(item).map_err(|refused| refused.value)
    }
}
