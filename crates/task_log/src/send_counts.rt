// How many effects send something to an actor.
ghost use Rattle.std.specs.Prelude.{◌≡◌, ◌+◌, OnErr, OnOk};
ghost use Rattle.task_log.specs.Logged.{count_at, IsCounted};
ghost use Rattle.value_core.specs.Named.{with_named};

use serial_model::What;
use shared_map::SharedMap;
use std::alloc::{AllocError, Global};
use value_core::Name;

/// How many are counted for the actor.
pub(crate) fn count_of(sends: &SharedMap<usize>, actor: &Name) -> usize
    ensures { result ≡ count_at actor.now sends.now }
{
    match sends.get(actor) {
        Some(count) => *count,
        None => 0,
    }
}

/// Counts what the effect sends, where it sends something. For want of memory the counts stay.
pub(crate) fn count_send(
    alloc: Global,
    sends: &mut SharedMap<usize>,
    what: &What,
) -> Result<(), AllocError>
    ensures counted { OnOk result (IsCounted what.now sends.old sends.new) }
    ensures same { OnErr result (sends.new ≡ sends.old) }
{
    match what {
        What::Send(actor, _) => count_one(alloc, sends, actor),
        What::Bytes(_) | What::Spawn(_, _, _) | What::Become(_, _) => Ok(()),
    }
}

/// Counts one send more to the actor. For want of memory the counts stay.
fn count_one(alloc: Global, sends: &mut SharedMap<usize>, actor: &Name) -> Result<(), AllocError>
    ensures counted { OnOk result (sends.new ≡ with_named sends.old actor.now (count_at actor.now sends.old + 1)) }
    ensures same { OnErr result (sends.new ≡ sends.old) }
{
    let count = count_of(sends, actor).checked_add(1).ok_or(AllocError)?;
    sends.put(actor.copy(alloc)?, count)
}
