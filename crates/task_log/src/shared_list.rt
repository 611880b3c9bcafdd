ghost use Rattle.std.specs.Prelude.{◌≡◌, ◌∷◌, ◌++◌, [], length, reverse, IfOk, OnErr, OnOk};
ghost use Rattle.std.specs.Option.{option_copied};
ghost use Rattle.shared_chain.specs.Links.{from_link};

use serial_model::Effect;
use shared_chain::{Chain, Link};
use std::alloc::{AllocError, Global};
use std::marker::Model;
use value_core::Name;

/// A list that is extended at its end, and whose copies share its items: a copy takes no memory. Contracts see the items in
/// their order.
pub struct SharedList<T> {
    // The last item first.
    last: Chain<T>,
    len: usize,
}

impl<T> Model for SharedList<T> {
    ghost use Rattle.std.specs.Prelude.{◌≡◌, List, length, reverse};
    ghost use Rattle.std.specs.Coded.{coded_list};

    ghost Value = { List T };

    ghost coded = { coded_list T.code };

    ghost view = { λ l. reverse l.last };

    ghost invariant = { λ l. l.len ≡ length (reverse l.last) };
}

impl<T: Drop> SharedList<T> {
    /// The empty list. It takes no memory.
    pub fn new(alloc: Global) -> Self
        ensures { result ≡ [] }
    {
        SharedList {
            last: Chain::new(alloc),
            len: 0,
        }
    }

    /// An equal list, which shares the items. It takes no memory, and fails only where there are too many copies to count.
    pub fn copy(&self) -> Result<Self, AllocError>
        ensures { IfOk result (λ copied. copied ≡ self.now) }
    {
        Ok(SharedList {
            last: self.last.copy()?,
            len: self.len,
        })
    }

    /// Puts the item behind the others. No list that shares them changes. For want of memory the list stays.
    pub fn push(&mut self, item: T) -> Result<(), AllocError>
        ensures pushed { OnOk result (self.new ≡ self.old ++ item ∷ []) }
        ensures same { OnErr result (self.new ≡ self.old) }
    {
        let len = self.len.checked_add(1).ok_or(AllocError)?;
        self.last.push(item).map_err(|_| AllocError)?;
        self.len = len;
        Ok(())
    }

    /// How many items there are. It takes no memory.
    pub fn len(&self) -> usize
        ensures { result ≡ length self.now }
    {
        self.len
    }

    /// The link of the last item, with those before it below it.
    pub fn last(&self) -> Option<&Link<T>>
        ensures { reverse (from_link (option_copied result)) ≡ self.now }
    {
        self.last.top()
    }
}

impl<T: Drop> Drop for SharedList<T> {
    fn drop(self) {
        let SharedList {
            last: _last,
            len: _,
        } = self;
    }
}

/// Equal effects, in the same order.
pub fn list_effects(alloc: Global, effects: &SharedList<Effect>) -> Result<Vec<Effect>, AllocError>
    ensures { IfOk result (λ list. list.items ≡ effects.now) }
{
    let mut list = Vec::new(alloc);
    let mut last = effects.last();
    while let Some(link) = last {
        let (effect, before) = link.parts();
        list.push(effect.copy(alloc)?)?;
        last = before;
    }
    list.reverse();
    Ok(list)
}

/// Equal names, in the same order.
pub(crate) fn list_names(alloc: Global, names: &SharedList<Name>) -> Result<Vec<Name>, AllocError>
    ensures { IfOk result (λ list. list.items ≡ names.now) }
{
    let mut list = Vec::new(alloc);
    let mut last = names.last();
    while let Some(link) = last {
        let (name, before) = link.parts();
        list.push(name.copy(alloc)?)?;
        last = before;
    }
    list.reverse();
    Ok(list)
}
