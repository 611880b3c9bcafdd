ghost use Rattle.std.specs.Prelude.{◌≡◌, ◌↔◌, IsTrue, [], ◌∷◌, ◌++◌, IfOk, OnErr, OnOk};

use crate::value::equal_items;
use crate::{Seq, Value, Values};
use std::alloc::{AllocError, Global};

/// Appends the item. For want of memory the list stays, and the item is dropped.
pub fn add<T: Drop>(list: &mut Seq<T>, item: T) -> Result<(), AllocError>
    ensures ok { OnOk result (list.new ≡ list.old ++ item ∷ []) }
    ensures err { OnErr result (list.new ≡ list.old) }
{
    list.push(item).map_err(|_| AllocError)
}

/// The list of equal values.
pub fn copy_list(alloc: Global, values: &[Value]) -> Result<Values, AllocError>
    ensures { IfOk result (λ copied. copied ≡ values.now) }
{
    Values::from_slice(alloc, values)
}

/// Whether the two lists hold the same values. It takes no memory.
pub fn equal_values(left: &Values, right: &Values) -> bool
    ensures { IsTrue result ↔ (left.now ≡ right.now) }
{
    equal_items(left, right)
}
