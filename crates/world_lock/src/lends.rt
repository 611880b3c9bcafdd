//! `Turn::value` has a file of its own: its clause names the row of `Turn`, which the file that declares `Turn` cannot import.
ghost use Rattle.std.specs.Prelude.{◌≡◌};
ghost use Rattle.std.specs.Borrow.{Lends, sem};
ghost use Rattle.world_lock.specs.contracts.turn.Turn.{the_row};
ghost use Rattle.world_lock.specs.Known.{with_value};

use crate::grows::Grows;
use crate::turn::Turn;

impl<T: Grows> Turn<T> {
    /// The value. When the borrow ends, the turn has what was written through it.
    pub fn value(&mut self) -> &mut T
        ensures* writes_back { sem 𝓛 (Lends (the_row T.row T.Setup.row T.Item.row T.Grows) T.row self.entry result (with_value self.old)) }
        ensures value { result.now ≡ self.old.value }
    {
        &mut self.value
    }
}
