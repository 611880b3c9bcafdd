ghost use Rattle.std.specs.Prelude.{◌≡◌, ◌+◌, ◌<◌, ◌≤◌, [], IfErr, IfOk, IsOk, OnErr, OnOk, Some, length, slice_get};
ghost use Rattle.ref_store.specs.Writes.{IsGapFor, IsPlaceOf};
ghost use Rattle.txn_snapshot.specs.Reads.{marked, with_read, ReadsRise};

use shared_map::SharedNames;
use std::alloc::{AllocError, Global};
use std::marker::Model;
use value_core::Name;

/// The refs that a task has read from the store, in after-order.
#[derive(Drop)]
pub struct Reads {
    items: Vec<Name>,
}

impl Model for Reads {
    ghost use Rattle.std.specs.Prelude.{◌-◌};
    ghost use Rattle.std.specs.Vec.{vec_capacity, vec_len};
    ghost use Rattle.value_core.specs.Named.{Name as Naming};
    ghost use Rattle.value_core.specs.Roomy.{Roomy};
    ghost use Rattle.txn_snapshot.specs.Reads.{reads_code, ReadsRise};

    ghost Value = { Roomy Naming };

    ghost coded = { reads_code };

    ghost view = { λ r. record { items = r.items.items; room = vec_capacity r.items - vec_len r.items } };

    ghost invariant = { λ r. ReadsRise r.items.items };
}

impl Reads {
    /// No refs. It takes no memory.
    pub fn new(alloc: Global) -> Self
        ensures { result.items ≡ [] }
    {
        Reads {
            items: Vec::new(alloc),
        }
    }

    /// The refs in after-order, each once.
    pub fn items(&self) -> &[Name]
        ensures items { result.now ≡ self.now.items }
        ensures rises { ReadsRise self.now.items }
    {
        self.items.as_slice()
    }

    /// Makes room for `more` further refs, or finds no memory. The refs stay, and the room does not shrink.
    pub fn reserve(&mut self, more: usize) -> Result<(), AllocError>
        ensures items { self.new.items ≡ self.old.items }
        ensures room { OnOk result (more ≤ self.new.room) }
        ensures kept { self.old.room ≤ self.new.room }
        ensures succeeds { more ≤ self.old.room → IsOk result }
    {
        self.items.reserve(more)
    }

    /// Adds the ref in its place, where it is not there. For want of memory the refs stay; where there is room none is
    /// taken.
    pub fn put(&mut self, name: Name) -> Result<(), AllocError>
        ensures put { OnOk result (self.new.items ≡ with_read self.old.items name) }
        ensures same { OnErr result (self.new.items ≡ self.old.items) }
        ensures room { 0 < self.old.room → IsOk result × (self.old.room ≤ self.new.room + 1) }
    {
        match self.search(&name) {
            Ok(_) => Ok(()),
            Err(at) => Ok(self.items.insert(at, name)?),
        }
    }

    /// The ref at that place among them; the others are let go. It takes no memory.
    pub fn into_name(self, index: usize) -> Name
        requires { index < length self.items }
        ensures { slice_get self.items index ≡ Some result }
    {
        let Reads { mut items } = self;
        items.swap_remove(index)
    }

    /// These names, listed.
    pub fn of(names: &SharedNames) -> Result<Self, AllocError>
        ensures { IfOk result (λ reads. reads.items ≡ names.now) }
    {
        Ok(Reads {
            items: names.list()?,
        })
    }

    /// The same refs.
    pub fn copy(&self, alloc: Global) -> Result<Self, AllocError>
        ensures { IfOk result (λ copied. copied.items ≡ self.now.items) }
    {
        Ok(Reads {
            items: copy_names(alloc, &self.items)?,
        })
    }

    // Where the ref stands, or where it would go.
    fn search(&self, name: &Name) -> Result<usize, usize>
        ensures found { IfOk result (IsPlaceOf (marked self.now.items) name.now) }
        ensures absent { IfErr result (IsGapFor (marked self.now.items) name.now) }
    {
        self.items.binary_search_by(|read| read.cmp_after(name))
    }
}

/// Equal names, in the same order.
fn copy_names(alloc: Global, names: &[Name]) -> Result<Vec<Name>, AllocError>
    ensures { IfOk result (λ copied. copied.items ≡ names.now) }
{
    let mut copied = Vec::with_capacity(alloc, names.len())?;
    for name in names {
        copied.push(name.copy(alloc)?)?;
    }
    Ok(copied)
}
