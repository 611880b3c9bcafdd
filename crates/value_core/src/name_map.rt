ghost use Rattle.std.specs.Prelude.{◌≡◌, None, OnErr, OnOk};
ghost use Rattle.std.specs.Option.{option_copied};
ghost use Rattle.value_core.specs.Named.{named, with_named, Rises};

use crate::Name;
use std::alloc::AllocError;
use std::collections::BTreeMap;

/// What stands under the name, where something does.
#[tactic(auto, using(crate::proofs::NameMaps::lookup_is_named))]
pub fn find<'a, X>(map: &'a BTreeMap<Name, X>, name: &Name) -> Option<&'a X>
    ensures { option_copied result ≡ named name.now map.now.entries }
{
    map.get(name)
}

/// Puts the item under the name, in the place of what stands there. For want of memory the map stays; where something
/// stands under the name it takes none, and succeeds.
#[tactic(auto, using(crate::proofs::NameMaps::inserted_is_named, crate::proofs::NameMaps::rises_with_named))]
pub fn put<X: Drop>(map: &mut BTreeMap<Name, X>, name: Name, item: X) -> Result<(), AllocError>
    ensures put { OnOk result (map.new.entries ≡ with_named map.old.entries name item) }
    ensures rises { OnOk result (Rises map.old.entries → Rises map.new.entries) }
    ensures same { OnErr result (map.new.entries ≡ map.old.entries) }
    ensures absent { OnErr result (named name map.old.entries ≡ None) }
{
    match map.insert(name, item) {
        Ok(_) => Ok(()),
        Err(_) => Err(AllocError),
    }
}
