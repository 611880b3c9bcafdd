ghost use Rattle.std.specs.Prelude.{◌≡◌, [], None, OnErr, OnOk, Some, cond};
ghost use Rattle.std.specs.Option.{option_and_then, option_copied};
ghost use Rattle.value_core.specs.Named.{Name as Naming, named, same_name, with_named};
ghost use Rattle.value_core.specs.Placed.{filled, HasPlace, IsEmptied, IsPrepared};

use crate::Name;
use crate::name_map::{find, put};
use std::alloc::{AllocError, Global};
use std::collections::BTreeMap;
use std::marker::Model;
use std::mem;

/// Items by name, whose places can be made before the items are there. A place that is not filled shows nothing; one that
/// is made is filled without taking memory.
#[derive(Drop)]
pub struct Places<X> {
    all: BTreeMap<Name, Option<X>>,
}

impl<X> Model for Places<X> {
    ghost use Rattle.value_core.specs.Placed.{Placed, placed_code};
    ghost use Rattle.value_core.specs.Named.{Rises};

    ghost Value = { Placed X };

    ghost coded = { placed_code X.code };

    ghost view = { λ p. p.all.entries };

    ghost invariant = { λ p. Rises p.all.entries };
}

impl<X> Places<X> {
    /// No places. It takes no memory.
    pub fn new(alloc: Global) -> Self
        ensures { result ≡ [] }
    {
        Places {
            all: BTreeMap::new(alloc),
        }
    }

    /// The item under the name, where its place is filled.
    pub fn get(&self, name: &Name) -> Option<&X>
        ensures { option_copied result ≡ named name.now (filled self.now) }
    {
        match find(&self.all, name) {
            Some(place) => place.as_ref(),
            None => None,
        }
    }
}

impl<X: Drop> Places<X> {
    /// Makes a place under the name, where there is none. The items stay, and so do the other places.
    pub fn prepare(&mut self, name: Name) -> Result<(), AllocError>
        ensures shows { filled self.new ≡ filled self.old }
        ensures place { OnOk result (HasPlace name self.new) }
        ensures others { (other : Naming) → HasPlace other self.old → HasPlace other self.new }
    {
        prepare(&mut self.all, name)
    }

    /// Puts the item into the place under the name. It takes no memory, and the places stay.
    pub fn fill(&mut self, name: &Name, item: X)
        requires { HasPlace name.now self.old }
        ensures shows { filled self.new ≡ with_named (filled self.old) name.now item }
        ensures places { (other : Naming) → HasPlace other self.old → HasPlace other self.new }
    {
        fill(&mut self.all, name, item);
    }

    /// Takes the item out of its place, where that is filled. It takes no memory, and the places stay.
    pub fn take(&mut self, name: &Name) -> Option<X>
        ensures item { result ≡ named name.now (filled self.old) }
        ensures shows { (other : Naming) → named other (filled self.new) ≡ cond (same_name other name.now) None (named other (filled self.old)) }
        ensures places { (other : Naming) → HasPlace other self.old → HasPlace other self.new }
    {
        empty(&mut self.all, name)
    }
}

/// Makes a place under the name, where there is none.
fn prepare<X: Drop>(places: &mut BTreeMap<Name, Option<X>>, name: Name) -> Result<(), AllocError>
    ensures prepared { OnOk result (IsPrepared name places.old.entries places.new.entries) }
    ensures same { OnErr result (places.new.entries ≡ places.old.entries) }
{
    match find(places, &name) {
        Some(_) => Ok(()),
        None => put(places, name, None),
    }
}

/// Puts the item into the place under the name.
fn fill<X: Drop>(places: &mut BTreeMap<Name, Option<X>>, name: &Name, item: X)
    requires { HasPlace name.now places.old.entries }
    ensures { places.new.entries ≡ with_named places.old.entries name.now (Some item) }
{
    if let Some(place) = places.get_mut(name) {
        *place = Some(item);
    }
}

/// Takes the item out of its place, where that is filled.
fn empty<X: Drop>(places: &mut BTreeMap<Name, Option<X>>, name: &Name) -> Option<X>
    ensures item { result ≡ option_and_then (λ place. place) (named name.now places.old.entries) }
    ensures emptied { IsEmptied name.now (named name.now places.old.entries) places.old.entries places.new.entries }
{
    match places.get_mut(name) {
        Some(place) => mem::replace(place, None),
        None => None,
    }
}
