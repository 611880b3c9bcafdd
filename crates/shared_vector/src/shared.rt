ghost use Rattle.std.specs.Prelude.{◌≡◌, ◌<◌, length, slice_set, [], ◌∷◌, ◌++◌, IfOk, OnOk, OnErr, MatchResult};
ghost use Rattle.std.specs.Prelude.{Some, slice_get};
ghost use Rattle.std.specs.Borrow.{LendsIfOk, sem};
ghost use Rattle.shared_vector.specs.contracts.shared.Shared.{the_row};
ghost use Rattle.shared_vector.specs.Stored.{stored};

use crate::Copied;
use std::alloc::{AllocError, Global};
use std::marker::Model;
use std::sync::Arc;

/// A list whose copies share its items. Contracts see the items alone.
pub struct Shared<T> {
    alloc: Global,
    store: Option<Arc<Vec<T>>>,
}

impl<T> Model for Shared<T> {
    ghost use Rattle.std.specs.Prelude.{List};
    ghost use Rattle.std.specs.Coded.{coded_list};
    ghost use Rattle.shared_vector.specs.Stored.{stored};

    ghost Value = { List T };

    ghost coded = { coded_list T.code };

    ghost view = { λ a. stored a.store };
}

impl<T> Shared<T> {
    /// The empty list. It takes no memory.
    pub fn new(alloc: Global) -> Self
        ensures { result ≡ [] }
    {
        Shared { alloc, store: None }
    }

    /// The items in order.
    pub fn items(&self) -> &[T]
        ensures { result.now ≡ self.now }
    {
        match &self.store {
            Some(items) => items.as_slice(),
            None => &[],
        }
    }

    /// An equal list, which shares the items. It takes no memory, and fails only where there are too many copies to
    /// count.
    pub fn copy(&self) -> Result<Self, AllocError>
        ensures { IfOk result (λ copied. copied ≡ self.now) }
    {
        let store = match &self.store {
            Some(items) => Some(Arc::try_clone(items)?),
            None => None,
        };
        Ok(Shared {
            alloc: self.alloc,
            store,
        })
    }
}

// The items are let go with the last list that holds them.
impl<T: Drop> Drop for Shared<T> {
    fn drop(self) {
        let Shared {
            alloc: _alloc,
            store: _store,
        } = self;
    }
}

impl<T: Copied> Shared<T> {
    /// A list of equal items, in their order.
    pub fn from_slice(alloc: Global, items: &[T]) -> Result<Self, AllocError>
        ensures { IfOk result (λ list. list ≡ items.now) }
    {
        if items.is_empty() {
            return Ok(Shared::new(alloc));
        }
        let store = Some(Arc::new(alloc, copies(alloc, items, 0)?)?);
        Ok(Shared { alloc, store })
    }

    /// Makes room for `more` further items, or finds no memory. The items stay.
    pub fn reserve(&mut self, more: usize) -> Result<(), AllocError>
        ensures { self.new ≡ self.old }
    {
        if more == 0 {
            return Ok(());
        }
        self.own(more)?;
        match &mut self.store {
            Some(items) => match Arc::get_mut(items) {
                Some(items) => items.reserve(more),
                None => Err(AllocError),
            },
            None => Err(AllocError),
        }
    }

    /// Appends the item. For want of memory it hands the item back, and the list stays. No list that shares the items
    /// changes.
    pub fn push(&mut self, item: T) -> Result<(), T>
        ensures { MatchResult result (λ _. self.new ≡ self.old ++ item ∷ []) (λ back. (self.new ≡ self.old) × (back ≡ item)) }
    {
        if self.own(1).is_err() {
            return Err(item);
        }
        match &mut self.store {
            Some(items) => match Arc::get_mut(items) {
                Some(items) => items.push(item).map_err(|refused| refused.value),
                None => Err(item),
            },
            None => Err(item),
        }
    }

    /// Appends the item. For want of memory the list stays, and the item is dropped.
    pub fn add(&mut self, item: T) -> Result<(), AllocError>
        ensures ok { OnOk result (self.new ≡ self.old ++ item ∷ []) }
        ensures err { OnErr result (self.new ≡ self.old) }
    {
        self.push(item).map_err(|_| AllocError)
    }

    /// Puts the item at the index, in the place of the one that is there. For want of memory the list stays. No list
    /// that shares the items changes.
    pub fn set(&mut self, index: usize, item: T) -> Result<(), AllocError>
        requires { index < length self.old }
        ensures ok { OnOk result (self.new ≡ slice_set self.old index item) }
        ensures err { OnErr result (self.new ≡ self.old) }
    {
        self.own(0)?;
        match &mut self.store {
            Some(items) => match Arc::get_mut(items) {
                Some(items) => {
                    items[index] = item;
                    Ok(())
                }
                None => Err(AllocError),
            },
            None => Err(AllocError),
        }
    }

    /// Lends the item at the index, of a list of its own. For want of memory the list stays.
    pub(crate) fn at_mut(&mut self, index: usize) -> Result<&mut T, AllocError>
        requires { index < length self.old }
        ensures* writes_back { sem 𝓛 (LendsIfOk (the_row T.row) T.row self.entry result (λ item. slice_set self.old index item) self.old) }
        ensures item { IfOk result (λ item. Some item.now ≡ slice_get self.old index) }
    {
        self.own(0)?;
        match &mut self.store {
            Some(items) => match Arc::get_mut(items) {
                Some(items) => Ok(&mut items[index]),
                None => Err(AllocError),
            },
            None => Err(AllocError),
        }
    }

    // Sees to it that no other list shares the items; where one does, it copies them with room for so many more. The
    // items stay.
    fn own(&mut self, more: usize) -> Result<(), AllocError>
        ensures { self.new ≡ self.old }
    {
        let alloc = self.alloc;
        let own = match &self.store {
            Some(items) => {
                if Arc::strong_count(items) == 1 {
                    return Ok(());
                }
                copies(alloc, items.as_slice(), more)?
            }
            None => Vec::new(alloc),
        };
        self.store = Some(Arc::new(alloc, own)?);
        Ok(())
    }
}

impl<T: Copied + Copy> Shared<T> {
    /// Appends these items, in their order. For want of memory the list stays. No list that shares the items changes.
    pub fn extend(&mut self, items: &[T]) -> Result<(), AllocError>
        ensures ok { OnOk result (self.new ≡ self.old ++ items.now) }
        ensures err { OnErr result (self.new ≡ self.old) }
    {
        self.own(items.len())?;
        match &mut self.store {
            Some(own) => match Arc::get_mut(own) {
                Some(own) => own.extend_from_slice(items),
                None => Err(AllocError),
            },
            None => Err(AllocError),
        }
    }
}

// Equal items, with room for so many more.
fn copies<T: Copied>(alloc: Global, items: &[T], more: usize) -> Result<Vec<T>, AllocError>
    ensures { IfOk result (λ copies. copies.items ≡ items.now) }
{
    let mut copies = Vec::with_capacity(alloc, items.len().saturating_add(more))?;
    for item in items {
        copies.push(item.copied(alloc)?)?;
    }
    Ok(copies)
}
