ghost use Rattle.std.specs.Prelude.{◌≡◌};
ghost use Rattle.std.specs.Option.{option_copied};
ghost use Rattle.serial_units.specs.Tasks.{around_of};

use crate::units::Units;
use core_syntax::Program;
use std::collections::BTreeMap;
use value_core::name_map::find;
use value_core::{Name, Value};

/// What the tasks of a transaction are run with: the program, the fuel of each, the turn's actor where there is one, the
/// refs, and the units.
#[derive(Drop)]
pub struct Around<'a> {
    pub program: &'a Program,
    pub fuel: u64,
    pub actor: Option<&'a Name>,
    pub refs: &'a BTreeMap<Name, Value>,
    pub units: &'a Units,
}

impl Around<'_> {
    /// The value of the ref, as it is in the store.
    pub(crate) fn stored(&self, name: &Name) -> Option<&Value>
        ensures { option_copied result ≡ (around_of self.now).store name.now }
    {
        find(self.refs, name)
    }

    /// The value of the unit, where it is finished.
    pub(crate) fn finished(&self, name: &Name) -> Option<&Value>
        ensures { option_copied result ≡ (around_of self.now).finished name.now }
    {
        match self.units.get(name) {
            Some(unit) => unit.value.as_ref(),
            None => None,
        }
    }
}
