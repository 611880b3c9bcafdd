//! The kinds of step that a seat makes, each with what it tells the seat.
use crate::grows::Grows;
use crate::view::View;
use atomic_table::{Join, Play, Split};

/// Takes the word, and the slot with it.
pub struct Take;

impl<T: Grows> Play<Option<T>, View<T, T::Setup, T::Item>> for Take {
    ghost use Rattle.world_lock.specs.Steps.{Takes};

    ghost then = { λ _ me found after. Takes T.setup T.history me found after };
}

/// Gives the slot back, and the word with it.
pub struct Give;

impl<T: Grows> Play<Option<T>, View<T, T::Setup, T::Item>> for Give {
    ghost use Rattle.world_lock.specs.Steps.{Gives};

    ghost then = { λ _ me _ after. Gives T.history me after };
}

/// Looks at the word after a join.
pub struct Look;

impl<T: Grows> Play<Option<T>, View<T, T::Setup, T::Item>> for Look {
    ghost use Rattle.world_lock.specs.Steps.{Looks};

    ghost then = { λ _ me _ after. Looks me after };
}

/// Cuts one share off.
pub struct OneShare;

impl<T, S, I> Split<View<T, S, I>> for OneShare {
    ghost use Rattle.world_lock.specs.Views.{without_one, with_one};

    ghost left = { without_one };

    ghost right = { with_one };
}

/// Puts two seats together.
pub struct BothShares;

impl<T, S, I> Join<View<T, S, I>> for BothShares {
    ghost use Rattle.world_lock.specs.Views.{joined, spent};

    ghost both = { joined };

    ghost spent = { spent };
}
