ghost use Rattle.std.specs.Prelude.{◌≡◌, ◌<◌, length, reverse, IfOk};
ghost use Rattle.std.specs.List.{slice_get};
ghost use Rattle.std.specs.Option.{option_copied};

use std::alloc::{AllocError, Global};
use std::marker::Model;
use value_core::Copied;

/// A piece of a stack. Contracts see its items, the last one pushed first.
pub struct Chunk<T> {
    items: Vec<T>,
}

impl<T> Model for Chunk<T> {
    ghost use Rattle.std.specs.Prelude.{List, reverse};
    ghost use Rattle.std.specs.Coded.{coded_list};

    ghost Value = { List T };

    ghost coded = { coded_list T.code };

    ghost view = { λ c. reverse c.items.items };
}

impl<T: Drop> Drop for Chunk<T> {
    fn drop(self) {
        let Chunk { items: _items } = self;
    }
}

impl<T: Copied> Copied for Chunk<T> {
    fn copied(&self, alloc: Global) -> Result<Self, AllocError> {
        Ok(Chunk {
            items: copies(alloc, &self.items)?,
        })
    }
}

impl<T: Drop> Chunk<T> {
    /// The piece with these items, of which the last one is the first to come.
    pub fn of(items: Vec<T>) -> Self
        ensures { result ≡ reverse items.items }
    {
        Chunk { items }
    }

    /// Its items, that which comes last first.
    pub fn into_items(self) -> Vec<T>
        ensures { reverse result.items ≡ self }
    {
        let Chunk { items } = self;
        items
    }

    /// Its items, that which comes last first.
    pub fn items(&self) -> &[T]
        ensures { reverse result.now ≡ self.now }
    {
        self.items.as_slice()
    }
}

/// Equal items.
pub fn copies<T: Copied>(alloc: Global, items: &[T]) -> Result<Vec<T>, AllocError>
    ensures { IfOk result (λ copies. copies.items ≡ items.now) }
{
    let mut copies = Vec::with_capacity(alloc, items.len())?;
    for item in items {
        copies.push(item.copied(alloc)?)?;
    }
    Ok(copies)
}
