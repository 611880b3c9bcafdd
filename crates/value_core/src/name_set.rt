ghost use Rattle.std.specs.Prelude.{◌≡◌, IfOk, OnErr, OnOk};
ghost use Rattle.std.specs.Option.{option_copied};
ghost use Rattle.value_core.specs.NameSet.{HasBoth, IsFirst, IsWith, IsWithout};

use crate::Name;
use std::alloc::{AllocError, Global};
use std::collections::BTreeSet;

/// Adds the name. For want of memory the set stays.
#[tactic(auto, using(crate::proofs::NameSets::added_is_there))]
pub fn add(names: &mut BTreeSet<Name>, name: Name) -> Result<(), AllocError>
    ensures added { OnOk result (IsWith name names.old names.new) }
    ensures same { OnErr result (names.new.keys ≡ names.old.keys) }
{
    match names.insert(name) {
        Ok(_) => Ok(()),
        Err(_) => Err(AllocError),
    }
}

/// Adds a copy of the name, and answers another one, by which it can be taken out again. For want of memory the set stays.
pub fn mark(names: &mut BTreeSet<Name>, alloc: Global, name: &Name) -> Result<Name, AllocError>
    ensures copy { IfOk result (λ marked. marked ≡ name.now) }
    ensures added { OnOk result (IsWith name.now names.old names.new) }
    ensures same { OnErr result (names.new.keys ≡ names.old.keys) }
{
    let marked = name.copy(alloc)?;
    add(names, name.copy(alloc)?)?;
    Ok(marked)
}

/// Adds copies of the other set's names. For want of memory some of them may be there.
pub fn add_all(
    names: &mut BTreeSet<Name>,
    alloc: Global,
    more: &BTreeSet<Name>,
) -> Result<(), AllocError>
    ensures { IfOk result (λ _. HasBoth names.old more.now names.new) }
{
    for name in more {
        add(names, name.copy(alloc)?)?;
    }
    Ok(())
}

/// Takes the name out. It takes no memory.
#[tactic(auto, using(crate::proofs::NameSets::removed_is_gone))]
pub fn remove(names: &mut BTreeSet<Name>, name: &Name)
    ensures { IsWithout name.now names.old names.new }
{
    names.remove(name);
}

/// The first of the names in after-order.
pub fn first(names: &BTreeSet<Name>) -> Option<&Name>
    ensures { IsFirst names.now (option_copied result) }
{
    names.first()
}
