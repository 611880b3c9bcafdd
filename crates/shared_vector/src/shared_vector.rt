ghost use Rattle.std.specs.Prelude.{◌≡◌, ◌<◌, ◌≤◌, ◌+◌, ◌-◌, ◌^◌, ◌==◌, drop, length, take, slice_get, slice_set, [], ◌∷◌, ◌++◌, IfOk, OnOk, OnErr};
ghost use Rattle.std.specs.Option.{option_copied};
ghost use Rattle.shared_vector.specs.VectorItems.{items_left};

use crate::layer::{Layer, PIECE, set_item};
use crate::{Copied, Shared, VectorItems};
use std::alloc::{AllocError, Global};
use std::marker::Model;

/// A list whose copies share its items, in chunks of 32: what changes one of two copies copies the chunk that changes and
/// the way to it. Contracts see the items alone.
pub struct SharedVector<V> {
    alloc: Global,
    chunks: Layer<Shared<V>>,
    last: Shared<V>,
}

impl<V> Model for SharedVector<V> {
    ghost use Rattle.std.specs.Prelude.{List, ◌++◌};
    ghost use Rattle.std.specs.Coded.{coded_list};
    ghost use Rattle.shared_vector.specs.Pieces.{ArePieces, joined};

    ghost Value = { List V };

    ghost coded = { coded_list V.code };

    ghost view = { λ v. joined v.chunks ++ v.last };

    ghost invariant = { λ v. ArePieces 274877906944 v.chunks v.last };
}

impl<V> SharedVector<V> {
    /// The empty list. It takes no memory.
    pub fn new(alloc: Global) -> Self
        ensures { result ≡ [] }
    {
        SharedVector {
            alloc,
            chunks: Layer::new(alloc),
            last: Shared::new(alloc),
        }
    }

    /// How many items there are. It takes no memory.
    pub fn len(&self) -> usize
        ensures length { result ≡ length self.now }
        ensures bound { result < 2 ^ 44 }
    {
        self.chunks.len() * PIECE + self.last.items().len()
    }

    /// Whether there is no item. It takes no memory.
    pub fn is_empty(&self) -> bool
        ensures { result ≡ (length self.now == 0) }
    {
        self.len() == 0
    }

    /// The item at the index, if there is one. It takes no memory.
    pub fn get(&self, index: usize) -> Option<&V>
        ensures { option_copied result ≡ slice_get self.now index }
    {
        match self.chunks.get(index / PIECE) {
            Some(chunk) => chunk.items().get(index % PIECE),
            None => self.last.items().get(index - self.chunks.len() * PIECE),
        }
    }

    /// The last item, if there is one. It takes no memory.
    pub fn last(&self) -> Option<&V>
        ensures { option_copied result ≡ slice_get self.now (length self.now - 1) }
    {
        self.get(self.len().saturating_sub(1))
    }

    /// Items from the start on that lie side by side: one at least, where there are any. It takes no memory.
    pub fn chunk_from(&self, start: usize) -> &[V]
        ensures prefix { drop start self.now ≡ result.now ++ drop (start + length result.now) self.now }
        ensures some { start < length self.now → 0 < length result.now }
        ensures fits { start + length result.now < 2 ^ 64 }
    {
        match self.chunks.get(start / PIECE) {
            Some(chunk) => from(chunk.items(), start % PIECE),
            None => from(self.last.items(), start - self.chunks.len() * PIECE),
        }
    }

    /// The items in order. It takes no memory.
    pub fn iter(&self) -> VectorItems<'_, V>
        ensures { items_left result ≡ self.now }
    {
        VectorItems::of(self)
    }
}

// The items from the start on.
fn from<V>(items: &[V], start: usize) -> &[V]
    ensures { result.now ≡ drop start items.now }
{
    items.get(start..).unwrap_or(&[])
}

// The items of one piece, which are few enough for one.
fn in_one_piece<V: Drop>(alloc: Global, items: Shared<V>) -> SharedVector<V>
    requires { length items ≤ 32 }
    ensures { result ≡ items }
{
    SharedVector {
        alloc,
        chunks: Layer::new(alloc),
        last: items,
    }
}

// The items are let go with the last list that holds them.
impl<V: Drop> Drop for SharedVector<V> {
    fn drop(self) {
        let SharedVector {
            alloc: _alloc,
            chunks: _chunks,
            last: _last,
        } = self;
    }
}

impl<V: Drop> SharedVector<V> {
    /// An equal list, which shares the items. It takes no memory, and fails only where there are too many copies to
    /// count.
    pub fn copy(&self) -> Result<Self, AllocError>
        ensures { IfOk result (λ copied. copied ≡ self.now) }
    {
        Ok(SharedVector {
            alloc: self.alloc,
            chunks: self.chunks.copy()?,
            last: self.last.copy()?,
        })
    }
}

impl<V: Copied> SharedVector<V> {
    /// A list of equal items, in their order.
    pub fn from_slice(alloc: Global, items: &[V]) -> Result<Self, AllocError>
        ensures { IfOk result (λ list. list ≡ items.now) }
    {
        if items.len() <= PIECE {
            return Ok(in_one_piece(alloc, Shared::from_slice(alloc, items)?));
        }
        let mut list = SharedVector::new(alloc);
        list.extend(items)?;
        Ok(list)
    }

    /// Appends the item. For want of memory the list stays, and the item is dropped. No list that shares the items
    /// changes.
    pub fn push(&mut self, item: V) -> Result<(), AllocError>
        ensures ok { OnOk result (self.new ≡ self.old ++ item ∷ []) }
        ensures err { OnErr result (self.new ≡ self.old) }
    {
        if self.last.items().len() < PIECE {
            return self.last.add(item);
        }
        let mut last = Shared::new(self.alloc);
        last.add(item)?;
        self.chunks.push(self.last.copy()?)?;
        self.last = last;
        Ok(())
    }

    /// Appends equal items, in their order. For want of memory only some of them may be there. No list that shares the
    /// items changes.
    pub fn extend(&mut self, items: &[V]) -> Result<(), AllocError>
        ensures { OnOk result (self.new ≡ self.old ++ items.now) }
    {
        for item in items {
            self.push(item.copied(self.alloc)?)?;
        }
        Ok(())
    }

    /// Appends equal items of the other list, in their order. For want of memory only some of them may be there. No list
    /// that shares the items changes.
    pub fn append(&mut self, more: &SharedVector<V>) -> Result<(), AllocError>
        ensures { OnOk result (self.new ≡ self.old ++ more.now) }
    {
        for item in more.iter() {
            self.push(item.copied(self.alloc)?)?;
        }
        Ok(())
    }

    /// A list of equal items, from the one place up to the other.
    pub fn part(&self, start: usize, end: usize) -> Result<Self, AllocError>
        requires ordered { start ≤ end }
        requires in_range { end ≤ length self.now }
        ensures { IfOk result (λ part. part ≡ take (end - start) (drop start self.now)) }
    {
        let mut part = SharedVector::new(self.alloc);
        for index in start..end {
            if let Some(item) = self.get(index) {
                part.push(item.copied(self.alloc)?)?;
            }
        }
        Ok(part)
    }

    /// Puts the item at the index, in the place of the one that is there. For want of memory the list stays, and the
    /// item is dropped. No list that shares the items changes.
    pub fn set(&mut self, index: usize, item: V) -> Result<(), AllocError>
        requires { index < length self.old }
        ensures ok { OnOk result (self.new ≡ slice_set self.old index item) }
        ensures err { OnErr result (self.new ≡ self.old) }
    {
        let chunks = self.chunks.len();
        if index / PIECE < chunks {
            set_item(&mut self.chunks, index / PIECE, index % PIECE, item)
        } else {
            self.last.set(index - chunks * PIECE, item)
        }
    }
}
