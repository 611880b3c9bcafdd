ghost use Rattle.std.specs.Prelude.{◌≡◌, [], None, Some, OnOk, IfOk};
ghost use Rattle.std.specs.Option.{option_copied};
ghost use Rattle.serial_model.specs.First.{first_unit};
ghost use Rattle.value_core.specs.Named.{named, with_named, IsChanged};
ghost use Rattle.serial_model.specs.State.{Setup};
ghost use Rattle.serial_units.specs.Units.{is_unfinished, unit_of, units_of, settled, AreUnits, AsksAt, IsFinishedIn, IsRun, IsUnit, SameUnfinished};
ghost use Rattle.value_core.specs.NameSet.{HasJust};

use crate::unit::{Becoming, Unit};
use core_syntax::Program;
use serial_model::{Halt, Limits};
use std::alloc::{AllocError, Global};
use std::collections::{BTreeMap, BTreeSet};
use std::marker::Model;
use value_core::name_map::{find, put};
use value_core::name_set::{first, mark, remove};
use value_core::{Name, Value};

/// Units by name, of which it finds the first that is not finished.
#[derive(Drop)]
pub struct Units {
    all: BTreeMap<Name, Unit>,
    unfinished: BTreeSet<Name>,
}

impl Model for Units {
    ghost use Rattle.value_core.specs.Named.{Named};
    ghost use Rattle.serial_units.specs.declared.unit.Unit.{Unit as Kept};
    ghost use Rattle.serial_units.specs.Codes.{units_code};
    ghost use Rattle.value_core.specs.NameSet.{HasJust};
    ghost use Rattle.serial_units.specs.Units.{is_unfinished};

    ghost Value = { Named Kept };

    ghost coded = { units_code };

    ghost view = { λ u. u.all.entries };

    ghost invariant = { λ u. HasJust is_unfinished u.unfinished u.all.entries };
}

impl Units {
    /// No units.
    pub fn new(alloc: Global) -> Self
        ensures { result ≡ [] }
    {
        Units {
            all: BTreeMap::new(alloc),
            unfinished: BTreeSet::new(alloc),
        }
    }

    /// The unit of that name.
    pub fn get(&self, name: &Name) -> Option<&Unit>
        ensures { option_copied result ≡ named name.now self.now }
    {
        find(&self.all, name)
    }

    /// The first unit that is not finished.
    pub fn first_unfinished(&self) -> Option<&Name>
        ensures { option_copied result ≡ first_unit (units_of self.now) }
    {
        // tells that the names rise
        let _count = self.all.len();
        first(&self.unfinished)
    }

    /// Puts a unit that begins under the name.
    pub fn begin(&mut self, alloc: Global, name: Name, unit: Unit) -> Result<(), AllocError>
        requires { unit.value ≡ None }
        ensures { OnOk result (self.new ≡ with_named self.old name unit) }
    {
        begin(&mut self.all, &mut self.unfinished, alloc, name, unit)
    }

    /// The unit goes on to where it stops, where it is there and not finished.
    pub fn go_on(
        &mut self,
        alloc: Global,
        program: &Program,
        limits: Limits,
        name: &Name,
    ) -> Result<Option<Halt>, AllocError>
        requires { AreUnits (record { program = program.now; limits = limits }) self.old }
        ensures { IfOk result (λ halt. IsRun (record { program = program.now; limits = limits }) name.now self.old self.new halt) }
    {
        go_on(&mut self.all, alloc, program, limits, name)
    }

    /// The unit's request is settled.
    pub fn settle(
        &mut self,
        alloc: Global,
        name: &Name,
        made: bool,
        becomes: Option<Becoming>,
        value: Value,
    ) -> Result<(), AllocError>
        requires { AsksAt name.now self.old }
        ensures { OnOk result (IsChanged name.now self.old self.new
            (λ unit after. (unit_of after ≡ settled made becomes (unit_of unit) value) × ((setup : Setup) → IsUnit setup unit → IsUnit setup after))) }
    {
        settle(&mut self.all, alloc, name, made, becomes, value)
    }

    /// The unit is finished with that value.
    pub fn finish(&mut self, name: &Name, value: Value)
        ensures { IsChanged name.now self.old self.new (λ unit after. after ≡ record unit { value = Some value }) }
    {
        finish(&mut self.all, name, value);
        remove(&mut self.unfinished, name);
    }
}

/// Marks the name, and puts the unit under it. Where there is no memory for it, the mark is taken back.
fn begin(
    all: &mut BTreeMap<Name, Unit>,
    unfinished: &mut BTreeSet<Name>,
    alloc: Global,
    name: Name,
    unit: Unit,
) -> Result<(), AllocError>
    requires begins { unit.value ≡ None }
    requires marked { HasJust is_unfinished unfinished.old all.old.entries }
    ensures put { OnOk result (all.new.entries ≡ with_named all.old.entries name unit) }
    ensures marked { HasJust is_unfinished unfinished.new all.new.entries }
{
    let marked = match mark(unfinished, alloc, &name) {
        Ok(marked) => marked,
        Err(error) => {
            drop(unit);
            return Err(error);
        }
    };
    match put(all, name, unit) {
        Ok(()) => Ok(()),
        Err(error) => {
            remove(unfinished, &marked);
            Err(error)
        }
    }
}

fn go_on(
    units: &mut BTreeMap<Name, Unit>,
    alloc: Global,
    program: &Program,
    limits: Limits,
    name: &Name,
) -> Result<Option<Halt>, AllocError>
    requires { AreUnits (record { program = program.now; limits = limits }) units.old.entries }
    ensures run { IfOk result (λ halt. IsRun (record { program = program.now; limits = limits }) name.now units.old.entries units.new.entries halt) }
    ensures unfinished { SameUnfinished units.old.entries units.new.entries }
{
    match units.get_mut(name) {
        Some(unit) => unit.go_on(alloc, program, limits),
        None => Ok(None),
    }
}

fn settle(
    units: &mut BTreeMap<Name, Unit>,
    alloc: Global,
    name: &Name,
    made: bool,
    becomes: Option<Becoming>,
    value: Value,
) -> Result<(), AllocError>
    requires { AsksAt name.now units.old.entries }
    ensures settled { OnOk result (IsChanged name.now units.old.entries units.new.entries
        (λ unit after. (unit_of after ≡ settled made becomes (unit_of unit) value) × ((setup : Setup) → IsUnit setup unit → IsUnit setup after))) }
    ensures unfinished { SameUnfinished units.old.entries units.new.entries }
{
    match units.get_mut(name) {
        Some(unit) => unit.settle(alloc, made, becomes, value),
        None => Ok(()),
    }
}

fn finish(units: &mut BTreeMap<Name, Unit>, name: &Name, value: Value)
    ensures changed { IsChanged name.now units.old.entries units.new.entries (λ unit after. after ≡ record unit { value = Some value }) }
    ensures finished { IsFinishedIn name.now units.old.entries units.new.entries }
{
    match units.get_mut(name) {
        Some(unit) => unit.finish(value),
        None => {}
    }
}
