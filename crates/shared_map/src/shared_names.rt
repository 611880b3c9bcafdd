ghost use Rattle.std.specs.Prelude.{◌≡◌, ◌||◌, [], IfOk, OnErr, OnOk, fold};
ghost use Rattle.shared_map.specs.Names.{with_member, MembersRise};
ghost use Rattle.value_core.specs.Named.{Name as Called, is_among, same_name};

use crate::SharedMap;
use std::alloc::{AllocError, Global};
use std::marker::Model;
use value_core::Name;

/// A set of names whose copies share its names: a copy takes no memory. Contracts see the names in after-order.
pub struct SharedNames {
    names: SharedMap<()>,
}

impl Model for SharedNames {
    ghost use Rattle.std.specs.Prelude.{List};
    ghost use Rattle.std.specs.Coded.{coded_list, coded_ℕ};
    ghost use Rattle.shared_map.specs.Names.{names_of};
    ghost use Rattle.value_core.specs.Named.{Name as Called};

    ghost Value = { List Called };

    ghost coded = { coded_list (coded_list coded_ℕ) };

    ghost view = { λ s. names_of s.names };
}

impl SharedNames {
    /// No names. It takes no memory.
    pub fn new(alloc: Global) -> Self
        ensures { result ≡ [] }
    {
        SharedNames {
            names: SharedMap::new(alloc),
        }
    }

    /// The same names, shared. It takes no memory, and fails only where there are too many copies to count.
    pub fn copy(&self) -> Result<Self, AllocError>
        ensures { IfOk result (λ copied. copied ≡ self.now) }
    {
        Ok(SharedNames {
            names: self.names.copy()?,
        })
    }

    /// Whether the name is there. It takes no memory.
    pub fn contains(&self, name: &Name) -> bool
        ensures { result ≡ is_among name.now self.now }
    {
        self.names.contains(name)
    }

    /// Adds the name in its place, where it is not there. No other set that shares the names changes. For want of memory the
    /// names stay.
    pub fn add(&mut self, name: Name) -> Result<(), AllocError>
        ensures added { OnOk result (self.new ≡ with_member self.old name) }
        ensures among { OnOk result ((q : Called) → is_among q self.new ≡ (is_among q self.old || same_name q name)) }
        ensures same { OnErr result (self.new ≡ self.old) }
    {
        self.names.put(name, ())
    }

    /// Adds the names of the other set. For want of memory the names stay.
    pub fn add_all(&mut self, more: &SharedNames) -> Result<(), AllocError>
        ensures added { OnOk result (self.new ≡ fold with_member self.old more.now) }
        ensures among { OnOk result ((q : Called) → is_among q self.new ≡ (is_among q self.old || is_among q more.now)) }
        ensures same { OnErr result (self.new ≡ self.old) }
    {
        let mut both = self.copy()?;
        for name in more.list()? {
            both.add(name)?;
        }
        *self = both;
        Ok(())
    }

    /// The names in after-order, each once.
    pub fn list(&self) -> Result<Vec<Name>, AllocError>
        ensures items { IfOk result (λ names. names.items ≡ self.now) }
        ensures rises { MembersRise self.now }
    {
        self.names.names()
    }
}

impl Drop for SharedNames {
    fn drop(self) {
        let SharedNames { names: _names } = self;
    }
}
