// When the run is over.
ghost use Rattle.std.specs.Prelude.{◌≡◌, ◌↔◌, IsTrue, Some};
ghost use Rattle.std.specs.Option.{option_copied};
ghost use Rattle.run_end.specs.Over.{IsOverWith, IsRunOver};
ghost use Rattle.serial_model.specs.declared.end.End.{End as Ending};
ghost use Rattle.serial_model.specs.declared.end.End.TheVariants as ends;
ghost use Rattle.shared_world.specs.Rest.{IsAtRest};
ghost use Rattle.shared_world.specs.Stands.{Stands};
ghost use Rattle.world_steps.specs.Kept.{shared_of};

use serial_model::End;
use world_steps::Kept;

/// Whether the run is over. It takes no memory.
pub fn is_over(kept: &Kept) -> bool
    requires stands { Stands (shared_of kept.now) }
    ensures { IsTrue result ↔ IsRunOver (shared_of kept.now) }
{
    end_by(kept, &End::Done).is_some()
}

/// The end of the run: the one that is set, or the given one, which is Done. None exactly where the run is not over. It takes
/// no memory.
pub fn end_by<'a>(kept: &'a Kept, done: &'a End) -> Option<&'a End>
    requires stands { Stands (shared_of kept.now) }
    requires done { done.now ≡ ends.Done }
    ensures { (end : Ending) → IsOverWith (shared_of kept.now) end ↔ (option_copied result ≡ Some end) }
{
    match &kept.end {
        Some(end) => Some(end),
        None if is_at_rest(kept) => Some(done),
        None => None,
    }
}

/// Whether every unit is finished, and nobody has mail. It takes no memory.
fn is_at_rest(kept: &Kept) -> bool
    ensures { IsTrue result ↔ IsAtRest (shared_of kept.now) }
{
    match kept.units.open_unit() {
        Some(_) => false,
        None => kept.mails.is_empty(),
    }
}
