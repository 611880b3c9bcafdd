ghost use Rattle.std.specs.Prelude.{◌≡◌, ◌+◌, ◌<◌, ◌≤◌, [], IfErr, IfOk, IsOk, IsSome, OnErr, OnOk};
ghost use Rattle.std.specs.Option.{option_copied};
ghost use Rattle.value_core.specs.Named.{named, with_named, Rises};
ghost use Rattle.ref_store.specs.Writes.{IsGapFor, IsPlaceOf};

use std::alloc::{AllocError, Global};
use std::marker::Model;
use value_core::{Name, Value};

/// The refs that a transaction has set, in after-order, each with the value that it gets.
#[derive(Drop)]
pub struct Writes {
    items: Vec<(Name, Value)>,
}

impl Model for Writes {
    ghost use Rattle.std.specs.Prelude.{◌-◌};
    ghost use Rattle.std.specs.Vec.{vec_capacity, vec_len};
    ghost use Rattle.value_core.specs.declared.value.Value.{Value as Datum};
    ghost use Rattle.value_core.specs.Named.{Name as Naming, Rises};
    ghost use Rattle.value_core.specs.Roomy.{Roomy};
    ghost use Rattle.ref_store.specs.Writes.{writes_code};

    ghost Value = { Roomy (Naming × Datum) };

    ghost coded = { writes_code };

    ghost view = { λ w. record { items = w.items.items; room = vec_capacity w.items - vec_len w.items } };

    ghost invariant = { λ w. Rises w.items.items };
}

impl Writes {
    /// No writes. It takes no memory.
    pub fn new(alloc: Global) -> Self
        ensures { result.items ≡ [] }
    {
        Writes {
            items: Vec::new(alloc),
        }
    }

    /// The writes in after-order, one for each ref.
    pub fn items(&self) -> &[(Name, Value)]
        ensures items { result.now ≡ self.now.items }
        ensures rises { Rises self.now.items }
    {
        self.items.as_slice()
    }

    /// Makes room for `more` further writes, or finds no memory. The writes stay, and the room does not shrink.
    pub fn reserve(&mut self, more: usize) -> Result<(), AllocError>
        ensures items { self.new.items ≡ self.old.items }
        ensures room { OnOk result (more ≤ self.new.room) }
        ensures kept { self.old.room ≤ self.new.room }
        ensures succeeds { more ≤ self.old.room → IsOk result }
    {
        self.items.reserve(more)
    }

    /// Sets the value that the ref gets, in the place of an earlier one. For want of memory the writes stay; where there
    /// is room, or the ref has been written, none is taken.
    pub fn put(&mut self, name: Name, value: Value) -> Result<(), AllocError>
        ensures put { OnOk result (self.new.items ≡ with_named self.old.items name value) }
        ensures same { OnErr result (self.new.items ≡ self.old.items) }
        ensures room { 0 < self.old.room → IsOk result × (self.old.room ≤ self.new.room + 1) }
        ensures present { IsSome (named name self.old.items) → IsOk result }
    {
        match self.search(&name) {
            Ok(at) => {
                self.items[at] = (name, value);
                Ok(())
            }
            Err(at) => Ok(self.items.insert(at, (name, value))?),
        }
    }

    /// The value that the ref gets, where it is written. It takes no memory, and looks at about as many names as the number
    /// of writes has binary digits.
    pub fn get(&self, name: &Name) -> Option<&Value>
        ensures { option_copied result ≡ named name.now self.now.items }
    {
        match self.search(name) {
            Ok(at) => Some(&self.items[at].1),
            Err(_) => None,
        }
    }

    // Where the ref stands, or where it would go.
    fn search(&self, name: &Name) -> Result<usize, usize>
        ensures found { IfOk result (IsPlaceOf self.now.items name.now) }
        ensures absent { IfErr result (IsGapFor self.now.items name.now) }
    {
        self.items.binary_search_by(|write| write.0.cmp_after(name))
    }

    /// The writes as a list; it is given up for them.
    pub(crate) fn into_items(self) -> Vec<(Name, Value)>
        ensures items { result.items ≡ self.items }
        ensures rises { Rises result.items }
    {
        self.items
    }
}
