ghost use Rattle.std.specs.Prelude.{◌≡◌, ◌<◌, length, slice_set, [], ◌∷◌, ◌++◌, IfOk, OnOk, OnErr, MatchResult};

use std::alloc::{AllocError, Global};
use std::marker::Model;

/// A list that contracts see as its items alone, so that lists that lie inside a value are compared by what they hold.
#[derive(Drop)]
pub struct Seq<T> {
    items: Vec<T>,
}

impl<T> Model for Seq<T> {
    ghost use Rattle.std.specs.Prelude.{List};
    ghost use Rattle.std.specs.Coded.{coded_list};

    ghost Value = { List T };

    ghost coded = { coded_list T.code };

    ghost view = { λ a. a.items.items };
}

impl<T> Seq<T> {
    /// The empty list. It takes no memory.
    pub fn new(alloc: Global) -> Self
        ensures { result ≡ [] }
    {
        Seq {
            items: Vec::new(alloc),
        }
    }

    /// The items in order.
    pub fn items(&self) -> &[T]
        ensures { result.now ≡ self.now }
    {
        self.items.as_slice()
    }

    /// Makes room for `more` further items, or finds no memory. The items stay.
    pub fn reserve(&mut self, more: usize) -> Result<(), AllocError>
        ensures { self.new ≡ self.old }
    {
        self.items.reserve(more)
    }

    /// Appends the item. For want of memory it hands the item back, and the list stays.
    pub fn push(&mut self, item: T) -> Result<(), T>
        ensures { MatchResult result (λ _. self.new ≡ self.old ++ item ∷ []) (λ back. (self.new ≡ self.old) × (back ≡ item)) }
    {
        self.items.push(item).map_err(|refused| refused.value)
    }
}

impl<T: Drop> Seq<T> {
    /// Puts the item at the index, in the place of the one that is there. It takes no memory.
    pub fn set(&mut self, index: usize, item: T)
        requires { index < length self.old }
        ensures { self.new ≡ slice_set self.old index item }
    {
        self.items[index] = item;
    }
}

impl<T: Copy> Seq<T> {
    /// An equal list.
    pub fn copy(&self, alloc: Global) -> Result<Self, AllocError>
        ensures { IfOk result (λ seq. seq ≡ self.now) }
    {
        Seq::from_slice(alloc, self.items())
    }

    /// Appends these items, in their order. For want of memory the list stays.
    pub fn extend(&mut self, items: &[T]) -> Result<(), AllocError>
        ensures ok { OnOk result (self.new ≡ self.old ++ items.now) }
        ensures err { OnErr result (self.new ≡ self.old) }
    {
        self.items.extend_from_slice(items)
    }

    /// A list of these items, in their order.
    pub fn from_slice(alloc: Global, items: &[T]) -> Result<Self, AllocError>
        ensures { IfOk result (λ seq. seq ≡ items.now) }
    {
        Ok(Seq {
            items: Vec::from_slice(alloc, items)?,
        })
    }
}
