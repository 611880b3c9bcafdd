ghost use Rattle.std.specs.Prelude.{◌≡◌, IfOk, IsTrue};
ghost use Rattle.value_core.specs.declared.value.Value.TheVariants.{Nil};
ghost use Rattle.value_ops.specs.Depths.{IsShallow};

use std::alloc::{AllocError, Global};
use std::marker::Model;
use value_core::Value;

/// A value, and whether it is known to be at most 200 deep. Contracts see the value.
pub struct Known {
    value: Value,
    is_shallow: bool,
}

impl Model for Known {
    ghost use Rattle.std.specs.Prelude.{IsTrue};
    ghost use Rattle.value_core.specs.contracts.value.Value as datum;
    ghost use Rattle.value_core.specs.declared.value.Value.{Value as Datum};
    ghost use Rattle.value_ops.specs.Depths.{IsShallow};

    ghost Value = { Datum };

    ghost coded = { (datum.the_row).coded };

    ghost view = { λ k. k.value };

    ghost invariant = { λ k. IsTrue k.is_shallow → IsShallow k.value };
}

impl Drop for Known {
    fn drop(self) {
        let Known {
            value: _value,
            is_shallow: _,
        } = self;
    }
}

impl Known {
    /// A value of which that is known, if it is so.
    pub fn new(value: Value, is_shallow: bool) -> Self
        requires { IsTrue is_shallow → IsShallow value }
        ensures { result ≡ value }
    {
        Known { value, is_shallow }
    }

    /// A value of which nothing is known but what shows at once: what is no collection is not deep.
    pub fn unseen(value: Value) -> Self
        ensures { result ≡ value }
    {
        let is_shallow = !matches!(value, Value::Vector(_) | Value::Map(_));
        Known { value, is_shallow }
    }

    /// Nil.
    pub fn nil() -> Self
        ensures { result ≡ Nil }
    {
        Known::unseen(Value::Nil)
    }

    /// The value.
    pub fn value(&self) -> &Value
        ensures { result.now ≡ self.now }
    {
        &self.value
    }

    /// The value alone.
    pub fn into_value(self) -> Value
        ensures { result ≡ self }
    {
        let Known {
            value,
            is_shallow: _,
        } = self;
        value
    }

    /// An equal value, of which the same is known.
    pub fn copy(&self, alloc: Global) -> Result<Self, AllocError>
        ensures { IfOk result (λ copied. copied ≡ self.now) }
    {
        Ok(Known {
            value: self.value.copy(alloc)?,
            is_shallow: self.is_shallow,
        })
    }

    /// Whether it is known to be at most 200 deep.
    pub fn is_shallow(&self) -> bool
        ensures { IsTrue result → IsShallow self.now }
    {
        self.is_shallow
    }
}
