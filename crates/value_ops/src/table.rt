ghost use Rattle.std.specs.Prelude.{◌≡◌, length, All, IsTrue, Ok};
ghost use Rattle.value_core.specs.declared.value.Value.TheVariants.{Str};
ghost use Rattle.value_core.specs.Texts.{str_text};
ghost use Rattle.value_core.specs.primitives.Apply.{Gives, apply_of, rule_of, limited};
ghost use Rattle.value_core.specs.primitives.Equality.{all_same, same_value};
ghost use Rattle.value_core.specs.primitives.Words.{takes_of};
ghost use Rattle.value_ops.specs.Depths.{FirstIsShallow, IsPart, KeepsShallow};

use crate::kinds::Kind;
use crate::{OpFault, entries, kinds, parts};
use int_ops::{Division, Extreme, Order, Sign};
use std::alloc::Global;
use value_core::{Op, Value};
use value_print::str_of;

/// The value of the primitive for these arguments, or the fault that it has there. Of several faults the order is
/// WrongType, DivideByZero, Overflow, Index and TooDeep; a result is at most 200 deep.
pub fn apply(alloc: Global, op: Op, args: &[Value]) -> Result<Value, OpFault>
    requires { IsTrue (takes_of op (length args.now)) }
    ensures { Gives result (apply_of op args.now) }
{
    match rule(alloc, op, args) {
        Ok(value) => limited(value),
        Err(fault) => Err(fault),
    }
}

/// The same for arguments that are given away: `conj`, `into`, `assoc` and `dissoc` change a collection where it lies, if
/// nothing else holds it. Of a first argument that is known to be at most 200 deep they look at no part.
pub fn apply_to_own(
    alloc: Global,
    op: Op,
    args: Vec<Value>,
    first_is_shallow: bool,
) -> Result<Value, OpFault>
    requires takes { IsTrue (takes_of op (length args.items)) }
    requires first { IsTrue first_is_shallow → FirstIsShallow args.items }
    ensures { Gives result (apply_of op args.items) }
{
    let stays_shallow = first_is_shallow && keeps_shallow(op, &args);
    match own_rule(alloc, op, args) {
        Ok(value) => {
            if stays_shallow {
                return Ok(value);
            }
            limited(value)
        }
        Err(fault) => Err(fault),
    }
}

// Whether it is found that what the primitive gives is at most 200 deep, if its first argument is.
fn keeps_shallow(op: Op, args: &[Value]) -> bool
    ensures { IsTrue result → KeepsShallow op args.now }
{
    let Some((_, more)) = args.split_first() else {
        return false;
    };
    match op {
        Op::Conj => are_parts(more),
        Op::Into => are_parts(more),
        Op::Assoc => are_parts(more),
        Op::Dissoc => true,
        _ => false,
    }
}

// Whether each value is less than 200 deep.
fn are_parts(values: &[Value]) -> bool
    ensures { IsTrue result → All IsPart values.now }
{
    for value in values {
        if value.depth() >= 200 {
            return false;
        }
    }
    true
}

fn limited(value: Value) -> Result<Value, OpFault>
    ensures { Gives result (limited (Ok value)) }
{
    if value.depth() <= 200 {
        Ok(value)
    } else {
        Err(OpFault::TooDeep)
    }
}

// What the primitive gives for arguments that are given away, with no bound on depth.
fn own_rule(alloc: Global, op: Op, args: Vec<Value>) -> Result<Value, OpFault>
    ensures { Gives result (rule_of op args.items) }
{
    match op {
        Op::Conj => parts::conj(args),
        Op::Into => parts::into(args),
        Op::Assoc => entries::assoc(alloc, args),
        Op::Dissoc => entries::dissoc(alloc, args),
        _ => rule(alloc, op, &args),
    }
}

// What the primitive gives, with no bound on depth.
fn rule(alloc: Global, op: Op, args: &[Value]) -> Result<Value, OpFault>
    ensures { Gives result (rule_of op args.now) }
{
    match op {
        Op::Add => int_ops::sum(args),
        Op::Multiply => int_ops::product(args),
        Op::Subtract => int_ops::difference(args),
        Op::Inc => int_ops::increase(args, 1),
        Op::Dec => int_ops::increase(args, -1),
        Op::Max => int_ops::chosen(Extreme::Greatest, args),
        Op::Min => int_ops::chosen(Extreme::Least, args),
        Op::Quot => int_ops::divided(Division::Quot, args),
        Op::Rem => int_ops::divided(Division::Rem, args),
        Op::Mod => int_ops::divided(Division::Mod, args),
        Op::Below => int_ops::ordered(Order::Below, args),
        Op::AtMost => int_ops::ordered(Order::AtMost, args),
        Op::Above => int_ops::ordered(Order::Above, args),
        Op::AtLeast => int_ops::ordered(Order::AtLeast, args),
        Op::Same => Ok(Value::Bool(all_same(args))),
        Op::NotSame => Ok(Value::Bool(!all_same(args))),
        Op::Not => kinds::asked(Kind::False, args),
        Op::IsZero => int_ops::signed(Sign::Zero, args),
        Op::IsPositive => int_ops::signed(Sign::Positive, args),
        Op::IsNegative => int_ops::signed(Sign::Negative, args),
        Op::IsNil => kinds::asked(Kind::Nil, args),
        Op::IsSome => kinds::asked(Kind::Some, args),
        Op::IsInt => kinds::asked(Kind::Int, args),
        Op::IsString => kinds::asked(Kind::String, args),
        Op::IsKeyword => kinds::asked(Kind::Keyword, args),
        Op::IsBoolean => kinds::asked(Kind::Boolean, args),
        Op::IsVector => kinds::asked(Kind::Vector, args),
        Op::IsMap => kinds::asked(Kind::Map, args),
        Op::Vector => parts::vector(alloc, args),
        Op::Count => parts::count(args),
        Op::Get => parts::get(alloc, args),
        Op::Nth => parts::nth(alloc, args),
        Op::Conj => parts::conj(parts::copies(alloc, args)?),
        Op::Assoc => entries::assoc(alloc, parts::copies(alloc, args)?),
        Op::Dissoc => entries::dissoc(alloc, parts::copies(alloc, args)?),
        Op::Contains => parts::contains(alloc, args),
        Op::Keys => parts::keys(alloc, args),
        Op::Vals => parts::vals(alloc, args),
        Op::First => parts::first(alloc, args),
        Op::Last => parts::last(alloc, args),
        Op::Rest => parts::rest(alloc, args),
        Op::IsEmpty => parts::empty(args),
        Op::Subvec => parts::subvec(args),
        Op::Into => parts::into(parts::copies(alloc, args)?),
        Op::Str => string(alloc, args),
    }
}

// Whether all are the first one.
fn all_same(args: &[Value]) -> bool
    ensures { result ≡ all_same args.now }
{
    let Some((first, others)) = args.split_first() else {
        return true;
    };
    for other in others {
        if !is_same(first, other) {
            return false;
        }
    }
    true
}

fn is_same(left: &Value, right: &Value) -> bool
    ensures { result ≡ same_value left.now right.now }
{
    left.equal(right)
}

// `str`
fn string(alloc: Global, args: &[Value]) -> Result<Value, OpFault>
    ensures { Gives result (Ok (Str (str_text args.now))) }
{
    Ok(Value::Str(str_of(alloc, args)?))
}
