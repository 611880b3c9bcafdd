ghost use Rattle.std.specs.Prelude.{◌≡◌};
ghost use Rattle.std.specs.Iterator.{YieldsFirstRef, item_count};
ghost use Rattle.shared_vector.specs.VectorItems.{items_left};

use crate::SharedVector;

/// The items of a list in order, chunk by chunk.
#[derive(Drop)]
pub struct VectorItems<'a, V> {
    chunk: &'a [V],
    list: &'a SharedVector<V>,
    next: usize,
}

impl<'a, V> VectorItems<'a, V> {
    pub(crate) fn of(list: &'a SharedVector<V>) -> Self
        ensures { items_left result ≡ list.now }
    {
        VectorItems {
            chunk: &[],
            list,
            next: 0,
        }
    }
}

impl<'a, V> Iterator for VectorItems<'a, V> {
    type Item = &'a V;

    ghost next_gives = { YieldsFirstRef items_left };

    ghost remaining = { item_count items_left };

    fn next(&mut self) -> Option<&'a V> {
        if self.chunk.is_empty() {
            self.chunk = self.list.chunk_from(self.next);
            self.next += self.chunk.len();
        }
        let (first, others) = self.chunk.split_first()?;
        self.chunk = others;
        Some(first)
    }
}
