ghost use Rattle.std.specs.Prelude.{◌≡◌, ◌<◌, ◌≤◌, ◌^◌, length, slice_get, slice_set, slice_index_or, [], ◌∷◌, ◌++◌, IfOk, OnOk, OnErr};
ghost use Rattle.std.specs.Option.{option_copied};
ghost use Rattle.shared_vector.specs.Pieces.{set_within};

use crate::{Copied, Shared};
use std::alloc::{AllocError, Global};
use std::marker::Model;

/// How many items a full piece has.
pub(crate) const PIECE: usize = 32;

/// How many full pieces there are at most. A further one finds no memory.
const MOST: usize = 4_294_967_296;

/// A list in full pieces, and the items behind them, which copies share piece by piece.
pub(crate) struct Layer<V> {
    alloc: Global,
    full: Shared<Shared<V>>,
    rest: Shared<V>,
}

impl<V> Model for Layer<V> {
    ghost use Rattle.std.specs.Prelude.{List, ◌++◌};
    ghost use Rattle.std.specs.Coded.{coded_list};
    ghost use Rattle.shared_vector.specs.Pieces.{ArePieces, joined};

    ghost Value = { List V };

    ghost coded = { coded_list V.code };

    ghost view = { λ l. joined l.full ++ l.rest };

    ghost invariant = { λ l. ArePieces 4294967296 l.full l.rest };
}

impl<V> Layer<V> {
    /// The empty list. It takes no memory.
    pub(crate) fn new(alloc: Global) -> Self
        ensures { result ≡ [] }
    {
        Layer {
            alloc,
            full: Shared::new(alloc),
            rest: Shared::new(alloc),
        }
    }

    /// How many items there are.
    pub(crate) fn len(&self) -> usize
        ensures length { result ≡ length self.now }
        ensures bound { result < 2 ^ 38 }
    {
        self.full.items().len() * PIECE + self.rest.items().len()
    }

    /// The item at the index, if there is one.
    pub(crate) fn get(&self, index: usize) -> Option<&V>
        ensures { option_copied result ≡ slice_get self.now index }
    {
        let full = self.full.items();
        match full.get(index / PIECE) {
            Some(piece) => piece.items().get(index % PIECE),
            None => self.rest.items().get(index - full.len() * PIECE),
        }
    }
}

impl<V: Drop> Layer<V> {
    /// An equal list, which shares the items. It takes no memory, and fails only where there are too many copies to
    /// count.
    pub(crate) fn copy(&self) -> Result<Self, AllocError>
        ensures { IfOk result (λ copied. copied ≡ self.now) }
    {
        Ok(Layer {
            alloc: self.alloc,
            full: self.full.copy()?,
            rest: self.rest.copy()?,
        })
    }
}

// The items are let go with the last list that holds them.
impl<V: Drop> Drop for Layer<V> {
    fn drop(self) {
        let Layer {
            alloc: _alloc,
            full: _full,
            rest: _rest,
        } = self;
    }
}

impl<V: Copied> Layer<V> {
    /// Appends the item. For want of memory the list stays. No list that shares the items changes.
    pub(crate) fn push(&mut self, item: V) -> Result<(), AllocError>
        ensures ok { OnOk result (self.new ≡ self.old ++ item ∷ []) }
        ensures err { OnErr result (self.new ≡ self.old) }
        ensures bound { OnOk result (length self.new ≤ 2 ^ 38) }
    {
        if self.rest.items().len() < PIECE {
            return self.rest.add(item);
        }
        if self.full.items().len() >= MOST {
            return Err(AllocError);
        }
        let mut rest = Shared::new(self.alloc);
        rest.add(item)?;
        self.full.add(self.rest.copy()?)?;
        self.rest = rest;
        Ok(())
    }
}

/// Puts the item at the place of the item of that number. For want of memory the list stays. No list that shares the items
/// changes.
pub(crate) fn set_item<V: Copied>(
    layer: &mut Layer<Shared<V>>,
    number: usize,
    place: usize,
    item: V,
) -> Result<(), AllocError>
    requires number_in_range { number < length layer.old }
    requires place_in_range { place < length (slice_index_or layer.old number []) }
    ensures ok { OnOk result (layer.new ≡ set_within layer.old number place item) }
    ensures err { OnErr result (layer.new ≡ layer.old) }
{
    let full = layer.full.items().len();
    if number / PIECE < full {
        set_in_piece(&mut layer.full, number / PIECE, number % PIECE, place, item)
    } else {
        set_in(&mut layer.rest, number - full * PIECE, place, item)
    }
}

// Puts the item at the place of the list of that number, in one of the pieces.
fn set_in_piece<V: Copied>(
    pieces: &mut Shared<Shared<Shared<V>>>,
    piece: usize,
    number: usize,
    place: usize,
    item: V,
) -> Result<(), AllocError>
    requires piece_in_range { piece < length pieces.old }
    requires number_in_range { number < length (slice_index_or pieces.old piece []) }
    requires place_in_range { place < length (slice_index_or (slice_index_or pieces.old piece []) number []) }
    ensures ok { OnOk result (pieces.new ≡ slice_set pieces.old piece (set_within (slice_index_or pieces.old piece []) number place item)) }
    ensures err { OnErr result (pieces.new ≡ pieces.old) }
{
    set_in(pieces.at_mut(piece)?, number, place, item)
}

// Puts the item at the place of the list of that number.
fn set_in<V: Copied>(
    lists: &mut Shared<Shared<V>>,
    number: usize,
    place: usize,
    item: V,
) -> Result<(), AllocError>
    requires number_in_range { number < length lists.old }
    requires place_in_range { place < length (slice_index_or lists.old number []) }
    ensures ok { OnOk result (lists.new ≡ set_within lists.old number place item) }
    ensures err { OnErr result (lists.new ≡ lists.old) }
{
    lists.at_mut(number)?.set(place, item)
}
