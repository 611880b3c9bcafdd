ghost use Rattle.std.specs.Prelude.{◌≡◌, length, IfOk};
ghost use Rattle.attempt_names.specs.Trying.{AreTryingNames};

use serial_model::History;
use std::alloc::{AllocError, Global};
use value_core::Name;

/// An attempt that begins: its root, and the same for the wait of its unit; its unit, as the owner of the root; and the number of
/// entries.
#[derive(Drop)]
pub struct Trying {
    pub root: Name,
    pub wait: Name,
    pub owner: Name,
    pub snapshot: u64,
}

/// The names of an attempt of a unit that has made so many things, on the refs as they are after that history. It fails for want
/// of memory, and where there are too many entries to count.
pub fn trying_names(
    alloc: Global,
    name: &Name,
    made: u32,
    history: &History,
) -> Result<Trying, AllocError>
    ensures { IfOk result (AreTryingNames name.now made (length history.now.items)) }
{
    let snapshot = count_entries(history)?;
    let root = name.child(alloc, made)?;
    let wait = root.copy(alloc)?;
    let owner = name.copy(alloc)?;
    Ok(Trying {
        root,
        wait,
        owner,
        snapshot,
    })
}

/// How many entries the history has.
fn count_entries(history: &History) -> Result<u64, AllocError>
    ensures { IfOk result (λ number. number ≡ length history.now.items) }
{
    u64::try_from(history.entries().len()).map_err(|_| AllocError)
}
