// What becomes of all pieces, before any of it is done.
ghost use Rattle.std.specs.Prelude.{◌≡◌, ◌<◌, IfOk, OnOk};
ghost use Rattle.std.specs.Option.{IsSome};
ghost use Rattle.actor_mails.specs.Mails.{held, room_at, KeepsRoom};
ghost use Rattle.shared_world.specs.Stands.{Stands};
ghost use Rattle.value_core.specs.Named.{named};
ghost use Rattle.value_core.specs.Placed.{filled};
ghost use Rattle.world_reset.specs.Plan.{ArePlanned, IsNextOr, IsPlannedAlso};
ghost use Rattle.world_steps.specs.Kept.{shared_of};

use crate::back::{Back, back_of};
use actor_mailbox::Message;
use actor_mails::Mails;
use std::alloc::{AllocError, Global};
use std::collections::BTreeMap;
use unit_table::Units;
use value_core::name_map::put;
use value_core::{Name, Places};
use world_steps::Kept;

/// What becomes of each piece, and room for the message that an actor took to be the first of its mail again. Nothing changes but room.
pub(crate) fn plan_all(kept: &mut Kept, alloc: Global) -> Result<BTreeMap<Name, Back>, AllocError>
    requires stands { Stands (shared_of kept.old) }
    ensures same { shared_of kept.new ≡ shared_of kept.old }
    ensures others { kept.new ≡ record kept.old { mails = kept.new.mails } }
    ensures planned { IfOk result (λ plan. ArePlanned (shared_of kept.old) kept.new.mails plan.entries) }
{
    let mut plan = BTreeMap::new(alloc);
    let mut passed = None;
    for _ in 0..u64::MAX {
        match next_piece(&kept.units, alloc, &passed)? {
            Some(name) => {
                plan_piece(kept, alloc, &mut plan, &name)?;
                passed = Some(name);
            }
            None => return Ok(plan),
        }
    }
    Err(AllocError)
}

/// The first piece behind that one, or of all where none is given.
pub fn next_piece(
    units: &Units,
    alloc: Global,
    passed: &Option<Name>,
) -> Result<Option<Name>, AllocError>
    ensures { IfOk result (IsNextOr units.now passed.now) }
{
    match units.next_after(passed.as_ref()) {
        Some(name) => Ok(Some(name.copy(alloc)?)),
        None => Ok(None),
    }
}

/// Plans what becomes of that piece too.
fn plan_piece(
    kept: &mut Kept,
    alloc: Global,
    plan: &mut BTreeMap<Name, Back>,
    name: &Name,
) -> Result<(), AllocError>
    requires stands { Stands (shared_of kept.old) }
    ensures same { shared_of kept.new ≡ shared_of kept.old }
    ensures others { kept.new ≡ record kept.old { mails = kept.new.mails } }
    ensures room { KeepsRoom kept.old.mails kept.new.mails }
    ensures planned { OnOk result (IsPlannedAlso (shared_of kept.old) kept.new.mails name.now plan.old.entries plan.new.entries) }
{
    let back = back_of(kept, alloc, name)?;
    room_for_taken(&mut kept.mails, &kept.taken, alloc, name)?;
    put(plan, name.copy(alloc)?, back)
}

/// Room for the message that the actor took, where it took one.
fn room_for_taken(
    mails: &mut Mails,
    taken: &Places<Message>,
    alloc: Global,
    name: &Name,
) -> Result<(), AllocError>
    ensures mail { held mails.new ≡ held mails.old }
    ensures kept { KeepsRoom mails.old mails.new }
    ensures room { OnOk result (IsSome (named name.now (filled taken.now)) → 0 < room_at mails.new name.now) }
{
    match taken.get(name) {
        Some(_) => mails.reserve(alloc, name, 1),
        None => Ok(()),
    }
}
