ghost use Rattle.std.specs.Prelude.{◌≡◌, ◌<◌, ◌↔◌, [], ◌∷◌, ◌++◌, length, IsTrue};
ghost use Rattle.value_core.specs.Name.{after_cmp};

use crate::name::compare;
use std::cmp::Ordering;
use std::marker::Model;

/// Up to four numbers. The places behind them hold the greatest number, so that two such lists are compared place by place.
#[derive(Debug, Drop)]
pub struct Few {
    places: [u32; 4],
    count: usize,
}

impl Model for Few {
    ghost use Rattle.std.specs.Prelude.{ℕ, List, take};
    ghost use Rattle.value_core.specs.Few.{IsFew};

    ghost Value = { List ℕ };

    ghost view = { λ f. take f.count f.places };

    ghost invariant = { λ f. IsFew f.places f.count };
}

impl Few {
    /// No number.
    pub fn new() -> Self
        ensures { result ≡ [] }
    {
        Few {
            places: [u32::MAX; 4],
            count: 0,
        }
    }

    /// Equal numbers.
    pub fn copy(&self) -> Self
        ensures { result ≡ self.now }
    {
        Few {
            places: self.places,
            count: self.count,
        }
    }

    /// The numbers in order.
    #[inline]
    pub fn as_slice(&self) -> &[u32]
        ensures { result.now ≡ self.now }
    {
        &self.places[..self.count]
    }

    /// Whether there is room for one number more.
    pub fn has_room(&self) -> bool
        ensures { IsTrue result ↔ (length self.now < 4) }
    {
        self.count < 4
    }

    /// Appends the number, for which there must be room.
    pub fn push(&mut self, number: u32)
        requires { length self.old < 4 }
        ensures { self.new ≡ self.old ++ number ∷ [] }
    {
        self.places[self.count] = number;
        self.count += 1;
    }

    /// How these numbers stand to the others in after-order.
    #[inline]
    pub fn cmp_after(&self, other: &Few) -> Ordering
        ensures { result ≡ after_cmp self.now other.now }
    {
        let found = compare(&self.places, &other.places);
        if found.is_ne() {
            found
        } else {
            other.count.cmp(&self.count)
        }
    }
}
