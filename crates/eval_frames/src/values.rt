ghost use Rattle.std.specs.Prelude.{◌≡◌, ◌++◌, IfOk, OnOk};
ghost use Rattle.value_core.specs.primitives.Kinds.{is_false as is_false_of};
ghost use Rattle.serial_model.specs.Operation.{local_value, hidden_values, some_future as some_future_of};

use crate::frame::Frame;
use core_syntax::Locals;
use std::alloc::{AllocError, Global};
use value_core::Value;

/// Equal values.
pub fn copy_values(alloc: Global, values: &[Value]) -> Result<Vec<Value>, AllocError>
    ensures { IfOk result (λ copied. copied.items ≡ values.now) }
{
    let mut copied = Vec::with_capacity(alloc, values.len())?;
    for value in values {
        copied.push(value.copy(alloc)?)?;
    }
    Ok(copied)
}

/// The value at that place of a frame, and nil outside it.
pub fn local(alloc: Global, frame: &[Value], place: u32) -> Result<Value, AllocError>
    ensures { IfOk result (λ value. value ≡ local_value frame.now place) }
{
    match frame.get(place as usize) {
        Some(value) => value.copy(alloc),
        None => Ok(Value::Nil),
    }
}

/// Appends the values at these places of a frame.
pub fn push_locals(
    alloc: Global,
    frame: &Frame,
    places: &Locals,
    values: &mut Frame,
) -> Result<(), AllocError>
    ensures { OnOk result (values.new ≡ values.old ++ hidden_values frame.now places.now) }
{
    for place in places.items() {
        values.push(frame.local(alloc, *place)?)?;
    }
    Ok(())
}

/// Whether one of the values holds a future.
pub fn some_future(values: &[Value]) -> bool
    ensures { result ≡ some_future_of values.now }
{
    for value in values {
        if value.holds_future() {
            return true;
        }
    }
    false
}

/// Whether the value is nil or false.
pub fn is_false(value: &Value) -> bool
    ensures { result ≡ is_false_of value.now }
{
    matches!(value, Value::Nil | Value::Bool(false))
}
