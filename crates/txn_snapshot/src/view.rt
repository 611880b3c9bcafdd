ghost use Rattle.std.specs.Prelude.{◌≡◌, [], IfOk};
ghost use Rattle.std.specs.Option.{option_copied};
ghost use Rattle.shared_chain.specs.Links.{from_link};
ghost use Rattle.txn_snapshot.specs.Views.{layered};
ghost use Rattle.value_core.specs.Named.{named, over};

use shared_chain::{Chain, Link};
use shared_map::SharedMap;
use std::alloc::{AllocError, Global};
use std::marker::Model;
use value_core::{Name, Value};

/// The values that a task sees before the store: for each fork above it, what its forking task had written then. Copies share
/// what they hold. Contracts see the values in after-order.
#[derive(Drop)]
pub struct View {
    // The uppermost first.
    layers: Chain<SharedMap<Value>>,
}

impl Model for View {
    ghost use Rattle.std.specs.Coded.{coded×, coded_list, coded_ℕ};
    ghost use Rattle.txn_snapshot.specs.Views.{layered};
    ghost use Rattle.value_core.specs.contracts.value.Value as value;
    ghost use Rattle.value_core.specs.declared.value.Value.{Value as Datum};
    ghost use Rattle.value_core.specs.Named.{Named};

    ghost Value = { Named Datum };

    ghost coded = { coded_list (coded× (coded_list coded_ℕ) (value.the_row).coded) };

    ghost view = { λ v. layered v.layers };
}

impl View {
    /// No values. It takes no memory.
    pub fn new(alloc: Global) -> Self
        ensures { result ≡ [] }
    {
        View {
            layers: Chain::new(alloc),
        }
    }

    /// The same values, shared. It takes no memory, and fails only where there are too many copies to count.
    pub fn copy(&self) -> Result<Self, AllocError>
        ensures { IfOk result (λ copied. copied ≡ self.now) }
    {
        Ok(View {
            layers: self.layers.copy()?,
        })
    }

    /// The values under these writes, all shared.
    pub fn under(&self, writes: &SharedMap<Value>) -> Result<Self, AllocError>
        ensures { IfOk result (λ view. view ≡ over writes.now self.now) }
    {
        let mut layers = self.layers.copy()?;
        match layers.push(writes.copy()?) {
            Ok(()) => Ok(View { layers }),
            Err(_) => Err(AllocError),
        }
    }

    /// The value of the ref, where there is one. It takes no memory, and looks at as many maps as there are forks above.
    pub fn get(&self, name: &Name) -> Option<&Value>
        ensures { option_copied result ≡ named name.now self.now }
    {
        seen_from(self.layers.top(), name)
    }
}

/// The value of the ref in the uppermost of these maps that has one.
fn seen_from<'a>(top: Option<&'a Link<SharedMap<Value>>>, name: &Name) -> Option<&'a Value>
    ensures { option_copied result ≡ named name.now (layered (from_link (option_copied top.entry))) }
{
    let mut top = top;
    while let Some(link) = top {
        let (upper, lower) = link.parts();
        if let Some(value) = upper.get(name) {
            return Some(value);
        }
        top = lower;
    }
    None
}
