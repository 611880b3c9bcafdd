// A turn that waits until it is definite and holds nothing.
ghost use Rattle.std.specs.Prelude.{◌≡◌, Some, true};
ghost use Rattle.ahead_steps.specs.Leads.{WaitsOr};
ghost use Rattle.shared_world.specs.Ahead.{Ahead as Leading};
ghost use Rattle.shared_world.specs.Stands.{Stands};
ghost use Rattle.turns_ahead.specs.Leading.{ahead_of};
ghost use Rattle.value_core.specs.Named.{each_as, named, with_named};
ghost use Rattle.world_steps.specs.Kept.{shared_of, IsUnitOf};

use crate::leads::{check_definite, mark_ahead};
use eval_step::Machine;
use shared_world::Given;
use std::alloc::{AllocError, Global};
use std::collections::BTreeMap;
use turns_ahead::TurnAhead;
use unit_table::{Mark, WaitOn};
use value_core::Name;
use world_steps::{Kept, move_to};

/// The turn waits until it is definite and holds nothing, or settles what it holds where it is definite.
pub(crate) fn wait_ahead(
    kept: &mut Kept,
    alloc: Global,
    name: &Name,
    moved: Machine,
) -> Result<Given, AllocError>
    requires stands { Stands (shared_of kept.old) }
    requires unit { IsUnitOf (shared_of kept.old) name.now moved }
    ensures { WaitsOr (shared_of kept.old) name.now (shared_of kept.new) result }
{
    let definite = check_definite(kept, name)?;
    let waits = name.copy(alloc)?;
    let told = name.copy(alloc)?;
    let made = kept.made_of(name);
    wait_in(&mut kept.aheads, name);
    let mark = mark_ahead(definite, Mark::Waiting(WaitOn::Definite(waits)));
    move_to(&mut kept.units, name, moved, made, mark);
    Ok(Given::Waiting(WaitOn::Definite(told)))
}

/// The turn of that name waits. It takes no memory.
fn wait_in(aheads: &mut BTreeMap<Name, TurnAhead>, name: &Name)
    ensures { (h : Leading) → named name.now (each_as ahead_of aheads.old.entries) ≡ Some h → each_as ahead_of aheads.new.entries ≡ with_named (each_as ahead_of aheads.old.entries) name.now (record h { waits = true }) }
{
    if let Some(turn) = aheads.get_mut(name) {
        turn.wait();
    }
}
