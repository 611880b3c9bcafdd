// Back to where the history left everything.
ghost use Rattle.std.specs.Prelude.{◌≡◌, [], None, OnErr, OnOk};
ghost use Rattle.shared_world.specs.rows.Attempts.{ArePrunedFor};
ghost use Rattle.shared_world.specs.rows.Resetting.{Resets};
ghost use Rattle.shared_world.specs.Stands.{Stands};
ghost use Rattle.value_core.specs.Placed.{filled};
ghost use Rattle.world_reset.specs.Putting.{NoneMoreOut};
ghost use Rattle.world_steps.specs.Kept.{shared_of, IsSameBut};

use crate::plan::plan_all;
use crate::putting::put_all;
use attempts_gone::prune;
use std::alloc::{AllocError, Global};
use value_core::Places;
use world_steps::Kept;

/// Every attempt, every request that is held and every turn whose begin is held is undone: each unit stands where the history left it, and
/// no message waits that is not settled. For want of memory nothing changes but room; what no run can meet, as a turn that runs ahead with
/// an answer that could not be told, is taken for that.
pub fn reset(kept: &mut Kept, alloc: Global) -> Result<(), AllocError>
    requires stands { Stands (shared_of kept.old) }
    ensures resets { OnOk result (Resets (shared_of kept.old) (shared_of kept.new)) }
    ensures claims { OnOk result (NoneMoreOut kept.old.units kept.new.units) }
    ensures same { OnErr result (IsSameBut (shared_of kept.old) (shared_of kept.new)) }
{
    let plan = plan_all(kept, alloc)?;
    kept.mails.drop_unsettled();
    put_all(kept, plan);
    forget(kept, alloc);
    Ok(())
}

/// No message is taken, no turn runs ahead, and no attempt is there; of each ref the newest version is left, and few others. It takes no
/// memory.
fn forget(kept: &mut Kept, alloc: Global)
    ensures taken { filled kept.new.taken ≡ [] }
    ensures aheads { kept.new.aheads.entries ≡ [] }
    ensures attempts { kept.new.attempts.entries ≡ [] }
    ensures versions { ArePrunedFor kept.new.attempts.entries kept.old.store.versions kept.new.store.versions }
    ensures others { kept.new ≡ record kept.old { store = kept.new.store; taken = kept.new.taken; aheads = kept.new.aheads; begun = kept.new.begun; attempts = kept.new.attempts } }
{
    kept.taken = Places::new(alloc);
    kept.aheads.clear();
    kept.begun.clear();
    kept.attempts.clear();
    prune(&kept.attempts, &mut kept.store, Vec::new(alloc));
}
