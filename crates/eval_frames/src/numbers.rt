ghost use Rattle.std.specs.Prelude.{◌≡◌, ◌↔◌, IsTrue, true, false, pos, ◌+ℤ◌, ◌-ℤ◌, [], ◌∷◌, IfSome, MatchOption};
ghost use Rattle.value_core.specs.declared.op.Op.TheVariants as op;
ghost use Rattle.value_core.specs.declared.value.Value.TheVariants.{Int};
ghost use Rattle.value_core.specs.primitives.Ints.{in_range};
ghost use Rattle.serial_model.specs.Operation.{Gives, applied};

use value_core::{Op, Value};

/// What the primitive gives for one or two integers, where that is a sum, a difference or a comparison and no fault.
pub fn of_numbers(op: Op, values: &[Value]) -> Option<Value>
    ensures { IfSome result (λ v. applied op values.now ≡ Gives v) }
{
    match values {
        [Value::Int(left), Value::Int(right)] => of_two(op, *left, *right),
        [Value::Int(only)] => of_one(op, *only),
        _ => None,
    }
}

fn of_two(op: Op, left: i64, right: i64) -> Option<Value>
    ensures { IfSome result (λ v. applied op (Int left ∷ Int right ∷ []) ≡ Gives v) }
{
    match op {
        Op::Add => sum(left, right),
        Op::Subtract => difference(left, right),
        Op::Below => Some(Value::Bool(left < right)),
        Op::AtMost => Some(Value::Bool(left <= right)),
        Op::Above => Some(Value::Bool(left > right)),
        Op::AtLeast => Some(Value::Bool(left >= right)),
        Op::Same => same(left, right),
        _ => None,
    }
}

fn same(left: i64, right: i64) -> Option<Value>
    ensures { IfSome result (λ v. applied op.Same (Int left ∷ Int right ∷ []) ≡ Gives v) }
{
    Some(Value::Bool(are_same(left, right)))
}

fn are_same(left: i64, right: i64) -> bool
    ensures { IsTrue result ↔ (left ≡ right) }
{
    left == right
}

fn of_one(op: Op, only: i64) -> Option<Value>
    ensures { IfSome result (λ v. applied op (Int only ∷ []) ≡ Gives v) }
{
    match op {
        Op::Inc => next(only),
        Op::Dec => previous(only),
        _ => None,
    }
}

fn sum(left: i64, right: i64) -> Option<Value>
    ensures { IfSome result (λ v. applied op.Add (Int left ∷ Int right ∷ []) ≡ Gives v) }
{
    let start = added(0, left)?;
    let sum = added(start, right)?;
    Some(Value::Int(sum))
}

fn difference(left: i64, right: i64) -> Option<Value>
    ensures { IfSome result (λ v. applied op.Subtract (Int left ∷ Int right ∷ []) ≡ Gives v) }
{
    let difference = taken(left, right)?;
    Some(Value::Int(difference))
}

fn next(only: i64) -> Option<Value>
    ensures { IfSome result (λ v. applied op.Inc (Int only ∷ []) ≡ Gives v) }
{
    let next = added(only, 1)?;
    Some(Value::Int(next))
}

fn previous(only: i64) -> Option<Value>
    ensures { IfSome result (λ v. applied op.Dec (Int only ∷ []) ≡ Gives v) }
{
    let previous = added(only, -1)?;
    Some(Value::Int(previous))
}

// The sum, where it is in range.
fn added(left: i64, right: i64) -> Option<i64>
    ensures { MatchOption result (in_range (left +ℤ right) ≡ false) (λ n. (in_range (left +ℤ right) ≡ true) × (n ≡ left +ℤ right)) }
{
    left.checked_add(right)
}

// The difference, where it is in range.
fn taken(left: i64, right: i64) -> Option<i64>
    ensures { MatchOption result (in_range (left -ℤ right) ≡ false) (λ n. (in_range (left -ℤ right) ≡ true) × (n ≡ left -ℤ right)) }
{
    left.checked_sub(right)
}
