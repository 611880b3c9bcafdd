ghost use Rattle.std.specs.Prelude.{◌≡◌, false, [], ◌∷◌, IfOk, OnOk, MatchOption};
ghost use Rattle.std.specs.List.{slice_get};
ghost use Rattle.std.specs.Option.{option_copied};
ghost use Rattle.eval_step.specs.Resume.{needs_frame};

use crate::item::Item;
use shared_chain::SharedStack;
use std::alloc::{AllocError, Global};
use std::marker::Model;

/// What is still to be done, from the first thing on. Contracts see its items, that which comes first at the head. Copies
/// share all of them but a few at the head.
pub struct Stack {
    items: SharedStack<Item>,
}

impl Model for Stack {
    ghost use Rattle.std.specs.Prelude.{List};
    ghost use Rattle.std.specs.Coded.{coded_list};
    ghost use Rattle.eval_step.specs.contracts.item.Item as item;
    ghost use Rattle.eval_step.specs.declared.item.Item.{Item};

    ghost Value = { List Item };

    ghost coded = { coded_list (item.the_row).coded };

    ghost view = { λ s. s.items };
}

impl Drop for Stack {
    fn drop(self) {
        let Stack { items: _items } = self;
    }
}

impl Stack {
    /// The empty stack. It takes no memory.
    pub fn new(alloc: Global) -> Self
        ensures { result ≡ [] }
    {
        Stack {
            items: SharedStack::new(alloc),
        }
    }

    /// An equal stack.
    pub fn copy(&self) -> Result<Self, AllocError>
        ensures { IfOk result (λ copied. copied ≡ self.now) }
    {
        Ok(Stack {
            items: self.items.copy()?,
        })
    }

    /// Puts the item before the others.
    pub fn push(&mut self, item: Item) -> Result<(), AllocError>
        ensures { OnOk result (self.new ≡ item ∷ self.old) }
    {
        self.items.push(item)
    }

    /// Sees to it that the first item can be taken off without memory, and says whether there is one.
    pub fn fetch(&mut self) -> Result<bool, AllocError>
        ensures same { OnOk result (self.new ≡ self.old) }
        ensures none { IfOk result (λ is_there. is_there ≡ false → self.new ≡ []) }
    {
        self.items.fetch()
    }

    /// Takes the first item off where that takes no memory, as after `fetch`.
    pub fn pop(&mut self) -> Option<Item>
        ensures { MatchOption result (self.new ≡ self.old) (λ item. self.old ≡ item ∷ self.new) }
    {
        self.items.pop()
    }

    /// The item that comes after so many others.
    pub fn item(&self, depth: usize) -> Option<&Item>
        ensures { option_copied result ≡ slice_get self.now depth }
    {
        self.items.item(depth)
    }

    /// Whether the current frame is looked at again once the node that is evaluated has its value.
    pub fn needs_frame(&self) -> bool
        ensures { result ≡ needs_frame self.now }
    {
        match self.item(0) {
            None | Some(Item::Back(_)) => false,
            Some(_) => true,
        }
    }
}
