ghost use Rattle.std.specs.Prelude.{◌≡◌, Ok};
ghost use Rattle.value_core.specs.declared.value.Value.TheVariants.{Bool as bool_value};
ghost use Rattle.value_core.specs.primitives.Apply.{Gives, of_one};
ghost use Rattle.value_ops.specs.Kinds.{has_kind};

use crate::OpFault;
use value_core::Value;

/// What a value is asked for.
#[derive(Clone, Copy, Debug, PartialEq, Eq)]
pub(crate) enum Kind {
    /// Whether it counts as false, as nil and false do.
    False,
    Nil,
    /// Whether it is not nil.
    Some,
    Int,
    String,
    Keyword,
    Boolean,
    Vector,
    Map,
}

/// `not`, and the primitives that ask for a kind.
pub(crate) fn asked(kind: Kind, args: &[Value]) -> Result<Value, OpFault>
    ensures { Gives result (of_one (λ v. Ok (bool_value (has_kind kind v))) args.now) }
{
    match args {
        [only] => Ok(Value::Bool(has_kind(kind, only))),
        _ => Err(OpFault::WrongType),
    }
}

fn has_kind(kind: Kind, value: &Value) -> bool
    ensures { result ≡ has_kind kind value.now }
{
    match kind {
        Kind::False => is_false(value),
        Kind::Nil => matches!(value, Value::Nil),
        Kind::Some => !matches!(value, Value::Nil),
        Kind::Int => matches!(value, Value::Int(_)),
        Kind::String => matches!(value, Value::Str(_)),
        Kind::Keyword => matches!(value, Value::Kw(_)),
        Kind::Boolean => matches!(value, Value::Bool(_)),
        Kind::Vector => matches!(value, Value::Vector(_)),
        Kind::Map => matches!(value, Value::Map(_)),
    }
}

fn is_false(value: &Value) -> bool
    ensures { result ≡ has_kind Kind.False value.now }
{
    match value {
        Value::Nil => true,
        Value::Bool(value) => !*value,
        _ => false,
    }
}
