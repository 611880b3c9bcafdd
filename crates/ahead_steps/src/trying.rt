// A turn that runs ahead and begins an attempt.
ghost use Rattle.std.specs.Prelude.{◌<◌, length};
ghost use Rattle.std.specs.Arc.{arc_value};
ghost use Rattle.ahead_steps.specs.Leads.{TriesOr};
ghost use Rattle.shared_world.specs.Stands.{Stands};
ghost use Rattle.world_steps.specs.Kept.{shared_of, IsUnitOf};

use crate::leads::check_definite;
use core_syntax::NodeId;
use eval_step::Machine;
use shared_world::Given;
use std::alloc::{AllocError, Global};
use value_core::{Name, Place, Values};
use world_steps::Kept;

/// The turn begins an attempt at its transaction. It waits for the root of that, or settles what it holds where it is definite.
pub(crate) fn begin_ahead(
    kept: &mut Kept,
    alloc: Global,
    name: &Name,
    moved: Machine,
    body: NodeId,
    values: Values,
    at: Place,
) -> Result<Given, AllocError>
    requires stands { Stands (shared_of kept.old) }
    requires unit { IsUnitOf (shared_of kept.old) name.now moved }
    requires body { body.index < length (arc_value kept.old.program).nodes }
    ensures { TriesOr (shared_of kept.old) name.now body values at (shared_of kept.new) result }
{
    let definite = check_definite(kept, name)?;
    kept.begin_marked(alloc, name, moved, body, values, at, definite)
}
