ghost use Rattle.std.specs.Prelude.{◌≡◌, ◌≢◌, ◌≤◌, ℤ, pos, true, false, map, drop, length, MatchOption, int_rem, [], ◌∷◌};
ghost use Rattle.std.specs.List.{list_all};
ghost use Rattle.value_core.specs.primitives.Apply.{Gives};
ghost use Rattle.value_core.specs.primitives.Ints.{in_range, checked, folded, on_ints, sum_rule, product_rule, difference_rule, increase_rule, extreme_rule, division_rule, order_rule, test_rule, int_mod, in_order};
ghost use Rattle.int_ops.specs.Ints.{step_of, quotient_of, choice_of, relation_of, test_of};
ghost use Rattle.value_core.specs.primitives.Kinds.{is_int, int_of};

use value_core::{OpFault, Value};

/// How a sum, a product or a difference goes on.
#[derive(Clone, Copy, Debug, PartialEq, Eq)]
enum Arithmetic {
    Add,
    Multiply,
    Subtract,
}

/// What is taken of a division.
#[derive(Clone, Copy, Debug, PartialEq, Eq)]
pub enum Division {
    Quot,
    Rem,
    Mod,
}

/// Which of two numbers is chosen.
#[derive(Clone, Copy, Debug, PartialEq, Eq)]
pub enum Extreme {
    Greatest,
    Least,
}

/// A relation of two numbers.
#[derive(Clone, Copy, Debug, PartialEq, Eq)]
pub enum Order {
    Below,
    AtMost,
    Above,
    AtLeast,
}

/// A test of one number.
#[derive(Clone, Copy, Debug, PartialEq, Eq)]
pub enum Sign {
    Zero,
    Positive,
    Negative,
}

pub fn is_int(value: &Value) -> bool
    ensures { result ≡ is_int value.now }
{
    match value {
        Value::Int(_) => true,
        _ => false,
    }
}

/// An integer's number, and 0 for the other kinds.
pub fn int_of(value: &Value) -> i64
    ensures { result ≡ int_of value.now }
{
    match value {
        Value::Int(number) => *number,
        _ => 0,
    }
}

fn all_ints(args: &[Value]) -> bool
    ensures { result ≡ list_all is_int args.now }
{
    for value in args {
        if !is_int(value) {
            return false;
        }
    }
    true
}

/// `+`
pub fn sum(args: &[Value]) -> Result<Value, OpFault>
    ensures { Gives result (on_ints sum_rule args.now) }
{
    if !all_ints(args) {
        return Err(OpFault::WrongType);
    }
    folded(Arithmetic::Add, 0, args, 0)
}

/// `*`
pub fn product(args: &[Value]) -> Result<Value, OpFault>
    ensures { Gives result (on_ints product_rule args.now) }
{
    if !all_ints(args) {
        return Err(OpFault::WrongType);
    }
    folded(Arithmetic::Multiply, 1, args, 0)
}

/// `-`
pub fn difference(args: &[Value]) -> Result<Value, OpFault>
    ensures { Gives result (on_ints difference_rule args.now) }
{
    if !all_ints(args) {
        return Err(OpFault::WrongType);
    }
    match args {
        [only] => single(Arithmetic::Subtract, 0, int_of(only)),
        [first, _, ..] => folded(Arithmetic::Subtract, int_of(first), args, 1),
        _ => Err(OpFault::WrongType),
    }
}

/// `inc` and `dec`, which add 1 or -1.
pub fn increase(args: &[Value], by: i64) -> Result<Value, OpFault>
    ensures { Gives result (on_ints (increase_rule by) args.now) }
{
    if !all_ints(args) {
        return Err(OpFault::WrongType);
    }
    match args {
        [only] => single(Arithmetic::Add, int_of(only), by),
        _ => Err(OpFault::WrongType),
    }
}

// The arguments from this place on, from the left onto the start.
fn folded(kind: Arithmetic, start: i64, args: &[Value], from: usize) -> Result<Value, OpFault>
    requires { from ≤ length args.now }
    ensures { Gives result (folded (step_of kind) start (map int_of (drop from args.now))) }
{
    let mut so_far = start;
    for index in from..args.len() {
        so_far = step(kind, so_far, int_of(&args[index])).ok_or(OpFault::Overflow)?;
    }
    Ok(Value::Int(so_far))
}

fn single(kind: Arithmetic, left: i64, right: i64) -> Result<Value, OpFault>
    ensures { Gives result (checked (step_of kind left right)) }
{
    match step(kind, left, right) {
        Some(number) => Ok(Value::Int(number)),
        None => Err(OpFault::Overflow),
    }
}

// One step, where its result is in range.
fn step(kind: Arithmetic, left: i64, right: i64) -> Option<i64>
    ensures { MatchOption result (in_range (step_of kind left right) ≡ false) (λ n. (in_range (step_of kind left right) ≡ true) × (n ≡ step_of kind left right)) }
{
    match kind {
        Arithmetic::Add => left.checked_add(right),
        Arithmetic::Multiply => left.checked_mul(right),
        Arithmetic::Subtract => left.checked_sub(right),
    }
}

/// `max` and `min`
pub fn chosen(kind: Extreme, args: &[Value]) -> Result<Value, OpFault>
    ensures { Gives result (on_ints (extreme_rule (choice_of kind)) args.now) }
{
    if !all_ints(args) {
        return Err(OpFault::WrongType);
    }
    let Some(first) = args.first() else {
        return Err(OpFault::WrongType);
    };
    let mut best = int_of(first);
    for index in 1..args.len() {
        best = choice(kind, best, int_of(&args[index]));
    }
    Ok(Value::Int(best))
}

fn choice(kind: Extreme, left: i64, right: i64) -> i64
    ensures { result ≡ choice_of kind left right }
{
    match kind {
        Extreme::Greatest => left.max(right),
        Extreme::Least => left.min(right),
    }
}

/// `quot`, `rem` and `mod`
pub fn divided(kind: Division, args: &[Value]) -> Result<Value, OpFault>
    ensures { Gives result (on_ints (division_rule (quotient_of kind)) args.now) }
{
    if !all_ints(args) {
        return Err(OpFault::WrongType);
    }
    match args {
        [left, right] => divide(kind, int_of(left), int_of(right)),
        _ => Err(OpFault::WrongType),
    }
}

fn divide(kind: Division, left: i64, right: i64) -> Result<Value, OpFault>
    ensures { Gives result (division_rule (quotient_of kind) (left ∷ right ∷ [])) }
{
    if right == 0 {
        return Err(OpFault::DivideByZero);
    }
    match kind {
        Division::Quot => match left.checked_div(right) {
            Some(quotient) => Ok(Value::Int(quotient)),
            None => Err(OpFault::Overflow),
        },
        Division::Rem => Ok(Value::Int(remainder(left, right))),
        Division::Mod => Ok(Value::Int(modulus(left, right))),
    }
}

// The remainder with the sign of the left side. Of the least number by -1 it is 0.
fn remainder(left: i64, right: i64) -> i64
    requires { right ≢ pos 0 }
    ensures { result ≡ int_rem left right }
{
    if right == -1 { 0 } else { left % right }
}

// The remainder with the sign of the right side.
fn modulus(left: i64, right: i64) -> i64
    requires { right ≢ pos 0 }
    ensures { result ≡ int_mod left right }
{
    let rest = remainder(left, right);
    if rest == 0 || (rest < 0) == (right < 0) {
        rest
    } else {
        rest + right
    }
}

/// `<`, `<=`, `>` and `>=`
pub fn ordered(kind: Order, args: &[Value]) -> Result<Value, OpFault>
    ensures { Gives result (on_ints (order_rule (relation_of kind)) args.now) }
{
    if !all_ints(args) {
        return Err(OpFault::WrongType);
    }
    Ok(Value::Bool(is_in_order(kind, args)))
}

fn is_in_order(kind: Order, args: &[Value]) -> bool
    ensures { result ≡ in_order (relation_of kind) (map int_of args.now) }
{
    for index in 1..args.len() {
        if !holds(kind, int_of(&args[index - 1]), int_of(&args[index])) {
            return false;
        }
    }
    true
}

fn holds(kind: Order, left: i64, right: i64) -> bool
    ensures { result ≡ relation_of kind left right }
{
    match kind {
        Order::Below => left < right,
        Order::AtMost => left <= right,
        Order::Above => left > right,
        Order::AtLeast => left >= right,
    }
}

/// `zero?`, `pos?` and `neg?`
pub fn signed(kind: Sign, args: &[Value]) -> Result<Value, OpFault>
    ensures { Gives result (on_ints (test_rule (test_of kind)) args.now) }
{
    if !all_ints(args) {
        return Err(OpFault::WrongType);
    }
    match args {
        [only] => Ok(Value::Bool(has_sign(kind, int_of(only)))),
        _ => Err(OpFault::WrongType),
    }
}

fn has_sign(kind: Sign, number: i64) -> bool
    ensures { result ≡ test_of kind number }
{
    match kind {
        Sign::Zero => number == 0,
        Sign::Positive => number > 0,
        Sign::Negative => number < 0,
    }
}
