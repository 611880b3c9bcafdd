// The next that a turn holds is settled.
ghost use Rattle.std.specs.Prelude.{◌≡◌, IfOk, None, OnOk};
ghost use Rattle.std.specs.Option.{IsSome};
ghost use Rattle.ahead_settling.specs.Settling.{IsNextHeld, SettlesComes};
ghost use Rattle.shared_world.specs.Marks.{AreMarked};
ghost use Rattle.shared_world.specs.Stands.{Stands};
ghost use Rattle.unit_table.specs.Board.{unit_at};
ghost use Rattle.world_steps.specs.Kept.{shared_of};

use crate::beginning::settle_begin;
use crate::requests::settle_request;
use shared_world::Given;
use std::alloc::{AllocError, Global};
use turns_ahead::NextHeld;
use unit_table::Units;
use value_core::Name;
use value_core::name_map::find;
use world_steps::Kept;

/// The next that a turn holds is settled: its begin, where that is held, and else the first request. The turn is definite. A turn that
/// holds nothing then runs ahead no more, and the tasks that wait for that are ready to settle. What no run can meet, as a unit that
/// does not run ahead, is taken for want of memory, where nothing changes but room.
pub fn settle_next(kept: &mut Kept, alloc: Global, name: &Name) -> Result<Given, AllocError>
    requires stands { Stands (shared_of kept.old) }
    requires marks { AreMarked (shared_of kept.old) }
    requires going { kept.old.end ≡ None }
    ensures { SettlesComes (shared_of kept.old) name.now (shared_of kept.new) result }
{
    check_unit(&kept.units, name)?;
    match next_held(kept, alloc, name)? {
        NextHeld::Begin(actor) => settle_begin(kept, alloc, name, &actor),
        NextHeld::Asked(request) => settle_request(kept, alloc, name, request),
    }
}

/// A unit stands there.
fn check_unit(units: &Units, name: &Name) -> Result<(), AllocError>
    ensures { OnOk result (IsSome (unit_at units.now name.now)) }
{
    match units.unit(name) {
        Some(_) => Ok(()),
        None => Err(AllocError),
    }
}

/// What the turn holds first.
fn next_held(kept: &Kept, alloc: Global, name: &Name) -> Result<NextHeld, AllocError>
    ensures { IfOk result (IsNextHeld (shared_of kept.now) name.now) }
{
    match find(&kept.aheads, name) {
        Some(turn) => turn.next_held(alloc),
        None => Err(AllocError),
    }
}
