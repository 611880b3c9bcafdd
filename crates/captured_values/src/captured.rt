ghost use Rattle.std.specs.Prelude.{◌≡◌, ◌↔◌, [], IfOk, IfSome, IsTrue};
ghost use Rattle.captured_values.specs.Told.{entries_of};

use crate::entry::{Entry, same_entries};
use crate::regular::are_regular;
use std::alloc::{AllocError, Global};
use std::marker::Model;
use std::sync::Arc;
use value_core::lists::equal_values;
use value_core::{Value, Values};

/// After so many uses it pays to look at the values once for all.
const OFTEN: u32 = 8;

/// Values that stay, with a form of them that is compared fast, where it was made. Contracts see the values.
pub struct Captured {
    values: Values,
    told: Option<Arc<Vec<Entry>>>,
    uses: u32,
}

impl Model for Captured {
    ghost use Rattle.std.specs.Prelude.{List};
    ghost use Rattle.std.specs.Coded.{coded_list};
    ghost use Rattle.captured_values.specs.Told.{IsToldOf};
    ghost use Rattle.value_core.specs.contracts.value.Value as value;
    ghost use Rattle.value_core.specs.declared.value.Value.{Value as Datum};

    ghost Value = { List Datum };

    ghost coded = { coded_list (value.the_row).coded };

    ghost view = { λ c. c.values };

    ghost invariant = { λ c. IsToldOf c.told c.values };
}

impl Drop for Captured {
    fn drop(self) {
        let Captured {
            values: _values,
            told: _told,
            uses: _,
        } = self;
    }
}

impl Captured {
    /// These values, which were not used yet. It takes no memory.
    pub fn of(values: Values) -> Self
        ensures { result ≡ values }
    {
        Captured {
            values,
            told: None,
            uses: 0,
        }
    }

    /// The values in order.
    pub fn values(&self) -> &Values
        ensures { result.now ≡ self.now }
    {
        &self.values
    }

    /// Equal values, which are shared.
    pub fn copy(&self) -> Result<Self, AllocError>
        ensures { IfOk result (λ copied. copied ≡ self.now) }
    {
        let told = match &self.told {
            Some(entries) => Some(Arc::try_clone(entries)?),
            None => None,
        };
        Ok(Captured {
            values: self.values.copy()?,
            told,
            uses: self.uses,
        })
    }

    /// Takes note that the values were used once more. Where they are used often, those that are long vectors of things made in a row are told
    /// by their runs from then on, where there is memory for that. The values stay.
    pub fn note_use(&mut self, alloc: Global)
        ensures { self.new ≡ self.old }
    {
        self.uses = self.uses.saturating_add(1);
        if self.uses == OFTEN && has_regular(&self.values) {
            self.told = told(alloc, &self.values).ok();
        }
    }

    /// Whether the two are the same values. It takes no memory. Where both are told by their runs, it takes no longer than there are
    /// runs.
    pub fn same(&self, other: &Captured) -> bool
        ensures { IsTrue result ↔ (self.now ≡ other.now) }
    {
        match (&self.told, &other.told) {
            (Some(entries), Some(others)) => same_entries(entries.as_slice(), others.as_slice()),
            _ => equal_values(&self.values, &other.values),
        }
    }
}

// Whether one of the values is a long vector that has few runs. It is a guess.
fn has_regular(values: &Values) -> bool {
    for value in values.iter() {
        if let Value::Vector(items) = value {
            if are_regular(items) {
                return true;
            }
        }
    }
    false
}

// The values as they are told.
fn told(alloc: Global, values: &Values) -> Result<Arc<Vec<Entry>>, AllocError>
    ensures { IfOk result (λ told. entries_of told ≡ values.now) }
{
    let mut entries = Vec::with_capacity(alloc, values.len())?;
    for value in values.iter() {
        entries.push(Entry::of(alloc, value)?)?;
    }
    Ok(Arc::new(alloc, entries)?)
}
