//! The results that are kept, by the names of the pieces.
ghost use Rattle.std.specs.Prelude.{◌≡◌, IfNone, OnErr, OnOk};
ghost use Rattle.schedule_drive.specs.Drive.{has_result};
ghost use Rattle.shared_world.specs.rows.Attempts.{IsWithout};
ghost use Rattle.value_core.specs.Named.{named, with_named};

use std::alloc::{AllocError, Global};
use std::collections::BTreeMap;
use value_core::Name;
use value_core::name_map::{find, put};
use world_claim::Done;

/// Whether a result is kept under the name.
pub(crate) fn is_kept(kept: &BTreeMap<Name, Done>, name: &Name) -> bool
    ensures { result ≡ has_result kept.now.entries name.now }
{
    find(kept, name).is_some()
}

/// Keeps the result under the name. For want of memory the others stay.
pub(crate) fn keep(
    alloc: Global,
    kept: &mut BTreeMap<Name, Done>,
    name: &Name,
    done: Done,
) -> Result<(), AllocError>
    ensures kept { OnOk result (kept.new.entries ≡ with_named kept.old.entries name.now done) }
    ensures same { OnErr result (kept.new.entries ≡ kept.old.entries) }
{
    let name = name.copy(alloc)?;
    put(kept, name, done)
}

/// The result that is kept under the name, which is kept no more.
pub(crate) fn take(kept: &mut BTreeMap<Name, Done>, name: &Name) -> Option<Done>
    ensures done { result ≡ named name.now kept.old.entries }
    ensures gone { IsWithout name.now kept.old.entries kept.new.entries }
    ensures same { IfNone result (kept.new.entries ≡ kept.old.entries) }
{
    kept.remove(name)
}
