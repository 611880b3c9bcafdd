ghost use Rattle.std.specs.Prelude.{◌≡◌, ◌≢◌, ◌≤◌, ◌<◌, ◌+◌, ◌-◌, ◌++◌, ◌∷◌, [], ℕ, ℤ, pos, true, false, map, take, drop, length, IfOk, IfErr, MatchOption, Ok, Err, Some, None, is_some};
ghost use Rattle.std.specs.Option.{option_copied};
ghost use Rattle.value_core.specs.declared.value.Value.TheVariants.{Nil, Int, Vector};
ghost use Rattle.value_core.specs.declared.value.Value.TheOpen as one;
ghost use Rattle.value_core.specs.declared.value.Value.TheViews.{out-Value};
ghost use Rattle.value_core.specs.ToKey.{key_of};
ghost use Rattle.value_core.specs.primitives.Apply.{Gives, of_one, of_two, of_two_or_three, of_first};
ghost use Rattle.value_core.specs.primitives.Parts.{item_at, item_of, value_at, count_step, empty_step, get_step, contains_step, item_or, nth_step, conj_step, first_step, last_step, rest_step, keys_step, vals_step, between, subvec_step, subvec_to_step, into_step, key_value};

use crate::OpFault;
use int_ops::{int_of, is_int};
use std::alloc::Global;
use value_core::{Key, KeyNo, Pairs, Value, Values};

/// `count`
pub(crate) fn count(args: &[Value]) -> Result<Value, OpFault>
    ensures { Gives result (of_one (λ c. count_step (out-Value c)) args.now) }
{
    match args {
        [Value::Nil] => Ok(Value::Int(0)),
        [Value::Vector(items)] => Ok(Value::Int(items.len() as i64)),
        [Value::Map(pairs)] => Ok(Value::Int(pairs.items().len() as i64)),
        _ => Err(OpFault::WrongType),
    }
}

/// `empty?`
pub(crate) fn empty(args: &[Value]) -> Result<Value, OpFault>
    ensures { Gives result (of_one (λ c. empty_step (out-Value c)) args.now) }
{
    match args {
        [Value::Nil] => Ok(Value::Bool(true)),
        [Value::Vector(items)] => Ok(Value::Bool(items.is_empty())),
        [Value::Map(pairs)] => Ok(Value::Bool(pairs.items().is_empty())),
        _ => Err(OpFault::WrongType),
    }
}

/// `get`
pub(crate) fn get(alloc: Global, args: &[Value]) -> Result<Value, OpFault>
    ensures { Gives result (of_two_or_three (λ c key. get_step (out-Value c) key Nil) (λ c key default. get_step (out-Value c) key default) args.now) }
{
    match args {
        [collection, key] => get_or(alloc, collection, key, &Value::Nil),
        [collection, key, default] => get_or(alloc, collection, key, default),
        _ => Err(OpFault::WrongType),
    }
}

fn get_or(alloc: Global, collection: &Value, key: &Value, default: &Value) -> Result<Value, OpFault>
    ensures { Gives result (get_step (out-Value collection.now) key.now default.now) }
{
    match collection {
        Value::Nil => copied(alloc, default),
        Value::Vector(items) => copied(alloc, item_of(items, key).unwrap_or(default)),
        Value::Map(pairs) => value_or(alloc, pairs, key, default),
        _ => Err(OpFault::WrongType),
    }
}

fn value_or(alloc: Global, pairs: &Pairs, key: &Value, default: &Value) -> Result<Value, OpFault>
    ensures { Gives result (get_step (one.Map pairs.now) key.now default.now) }
{
    match key_of(alloc, key)? {
        Some(key) => copied(alloc, pairs.get(&key).unwrap_or(default)),
        None => copied(alloc, default),
    }
}

/// `contains?`
pub(crate) fn contains(alloc: Global, args: &[Value]) -> Result<Value, OpFault>
    ensures { Gives result (of_two (λ c key. contains_step (out-Value c) key) args.now) }
{
    match args {
        [Value::Nil, _] => Ok(Value::Bool(false)),
        [Value::Vector(items), index] => Ok(Value::Bool(item_of(items, index).is_some())),
        [Value::Map(pairs), key] => Ok(Value::Bool(has_key(alloc, pairs, key)?)),
        _ => Err(OpFault::WrongType),
    }
}

fn has_key(alloc: Global, pairs: &Pairs, key: &Value) -> Result<bool, OpFault>
    ensures ok { IfOk result (λ found. found ≡ is_some (value_at pairs.now key.now)) }
    ensures err { IfErr result (λ fault. fault ≡ OpFault.Memory) }
{
    match key_of(alloc, key)? {
        Some(key) => Ok(pairs.get(&key).is_some()),
        None => Ok(false),
    }
}

/// `nth`
pub(crate) fn nth(alloc: Global, args: &[Value]) -> Result<Value, OpFault>
    ensures { Gives result (of_two_or_three (λ c index. nth_step (out-Value c) index (Err OpFault.Index)) (λ c index default. nth_step (out-Value c) index (Ok default)) args.now) }
{
    match args {
        [Value::Vector(items), Value::Int(index)] => match item_at(items, *index) {
            Some(item) => copied(alloc, item),
            None => Err(OpFault::Index),
        },
        [Value::Vector(items), Value::Int(index), default] => copied(
            alloc,
            item_at(items, *index).unwrap_or(default),
        ),
        _ => Err(OpFault::WrongType),
    }
}

/// `conj`
pub(crate) fn conj(args: Vec<Value>) -> Result<Value, OpFault>
    ensures { Gives result (of_first (λ c more. conj_step (out-Value c) more) args.items) }
{
    let Some(parts) = first_of(args) else {
        return Err(OpFault::WrongType);
    };
    let (first, more) = parts;
    match first {
        Value::Vector(items) => joined(items, &more),
        _ => Err(OpFault::WrongType),
    }
}

/// `into`
pub(crate) fn into(args: Vec<Value>) -> Result<Value, OpFault>
    ensures { Gives result (of_two (λ a b. into_step (out-Value a) (out-Value b)) args.items) }
{
    let Some(parts) = first_of(args) else {
        return Err(OpFault::WrongType);
    };
    let (first, more) = parts;
    match first {
        Value::Vector(items) => appended(items, &more),
        _ => Err(OpFault::WrongType),
    }
}

// The vector of the items and then those of the one vector behind it.
fn appended(items: Values, more: &[Value]) -> Result<Value, OpFault>
    ensures { Gives result (of_two (λ a b. into_step (out-Value a) (out-Value b)) (Vector items ∷ more.now)) }
{
    match more {
        [Value::Vector(more)] => with_behind(items, more),
        _ => Err(OpFault::WrongType),
    }
}

// The vector of the items and then those of the other list.
fn with_behind(items: Values, more: &Values) -> Result<Value, OpFault>
    ensures { Gives result (Ok (Vector (items ++ more.now))) }
{
    let mut items = items;
    items.append(more)?;
    Ok(Value::Vector(items))
}

/// The first argument, and those behind it.
pub(crate) fn first_of(args: Vec<Value>) -> Option<(Value, Vec<Value>)>
    ensures { MatchOption result (args.items ≡ []) (λ parts. args.items ≡ parts.0 ∷ parts.1.items) }
{
    let mut args = args;
    if args.is_empty() {
        return None;
    }
    let first = args.remove(0);
    Some((first, args))
}

/// `vector`
pub(crate) fn vector(alloc: Global, args: &[Value]) -> Result<Value, OpFault>
    ensures { Gives result (Ok (Vector args.now)) }
{
    joined(Values::new(alloc), args)
}

// The vector of the first items and then the others.
fn joined(first: Values, others: &[Value]) -> Result<Value, OpFault>
    ensures { Gives result (Ok (Vector (first ++ others.now))) }
{
    let mut items = first;
    items.extend(others)?;
    Ok(Value::Vector(items))
}

/// `first`
pub(crate) fn first(alloc: Global, args: &[Value]) -> Result<Value, OpFault>
    ensures { Gives result (of_one (λ c. first_step (out-Value c)) args.now) }
{
    match args {
        [Value::Nil] => Ok(Value::Nil),
        [Value::Vector(items)] => copied(alloc, items.get(0).unwrap_or(&Value::Nil)),
        _ => Err(OpFault::WrongType),
    }
}

/// `last`
pub(crate) fn last(alloc: Global, args: &[Value]) -> Result<Value, OpFault>
    ensures { Gives result (of_one (λ c. last_step (out-Value c)) args.now) }
{
    match args {
        [Value::Nil] => Ok(Value::Nil),
        [Value::Vector(items)] => copied(alloc, items.last().unwrap_or(&Value::Nil)),
        _ => Err(OpFault::WrongType),
    }
}

/// `rest`
pub(crate) fn rest(alloc: Global, args: &[Value]) -> Result<Value, OpFault>
    ensures { Gives result (of_one (λ c. rest_step (out-Value c)) args.now) }
{
    match args {
        [Value::Nil] => Ok(Value::Vector(Values::new(alloc))),
        [Value::Vector(items)] => part(items, items.len().min(1), items.len()),
        _ => Err(OpFault::WrongType),
    }
}

// The items from one place up to another.
fn part(items: &Values, start: usize, end: usize) -> Result<Value, OpFault>
    requires ordered { start ≤ end }
    requires in_range { end ≤ length items.now }
    ensures { Gives result (Ok (Vector (take (end - start) (drop start items.now)))) }
{
    Ok(Value::Vector(items.part(start, end)?))
}

/// `subvec`
pub(crate) fn subvec(args: &[Value]) -> Result<Value, OpFault>
    ensures { Gives result (of_two_or_three (λ c start. subvec_step (out-Value c) start) (λ c start end. subvec_to_step (out-Value c) start end) args.now) }
{
    match args {
        [Value::Vector(items), Value::Int(start)] => cut(items, *start, items.len() as i64),
        [Value::Vector(items), Value::Int(start), Value::Int(end)] => cut(items, *start, *end),
        _ => Err(OpFault::WrongType),
    }
}

fn cut(items: &Values, start: i64, end: i64) -> Result<Value, OpFault>
    ensures { Gives result (between items.now start end) }
{
    if 0 <= start && start <= end && end as usize <= items.len() {
        part(items, start as usize, end as usize)
    } else {
        Err(OpFault::Index)
    }
}

/// `keys`
pub(crate) fn keys(alloc: Global, args: &[Value]) -> Result<Value, OpFault>
    ensures { Gives result (of_one (λ c. keys_step (out-Value c)) args.now) }
{
    match args {
        [Value::Nil] => Ok(Value::Vector(Values::new(alloc))),
        [Value::Map(pairs)] => keys_of(alloc, pairs),
        _ => Err(OpFault::WrongType),
    }
}

fn keys_of(alloc: Global, pairs: &Pairs) -> Result<Value, OpFault>
    ensures { Gives result (keys_step (one.Map pairs.now)) }
{
    let mut items = Values::new(alloc);
    for pair in pairs.items() {
        push(&mut items, key_value(alloc, &pair.key)?)?;
    }
    Ok(Value::Vector(items))
}

// The value that a key is.
fn key_value(alloc: Global, key: &Key) -> Result<Value, OpFault>
    ensures ok { IfOk result (λ value. value ≡ key_value key.now) }
    ensures err { IfErr result (λ fault. fault ≡ OpFault.Memory) }
{
    match key {
        Key::Bool(value) => Ok(Value::Bool(*value)),
        Key::Int(value) => Ok(Value::Int(*value)),
        Key::Kw(name) => Ok(Value::Kw(name.copy(alloc)?)),
        Key::Str(string) => Ok(Value::Str(string.copy(alloc)?)),
    }
}

/// `vals`
pub(crate) fn vals(alloc: Global, args: &[Value]) -> Result<Value, OpFault>
    ensures { Gives result (of_one (λ c. vals_step (out-Value c)) args.now) }
{
    match args {
        [Value::Nil] => Ok(Value::Vector(Values::new(alloc))),
        [Value::Map(pairs)] => values_of(alloc, pairs),
        _ => Err(OpFault::WrongType),
    }
}

fn values_of(alloc: Global, pairs: &Pairs) -> Result<Value, OpFault>
    ensures { Gives result (vals_step (one.Map pairs.now)) }
{
    let mut items = Values::new(alloc);
    for pair in pairs.items() {
        push(&mut items, pair.value.copy(alloc)?)?;
    }
    Ok(Value::Vector(items))
}

/// The item at the number, if it is in range.
pub(crate) fn item_at(items: &Values, number: i64) -> Option<&Value>
    ensures { option_copied result ≡ item_at items.now number }
{
    if number < 0 {
        None
    } else {
        items.get(number as usize)
    }
}

// The item at the value, if that is an integer in range.
fn item_of<'a>(items: &'a Values, index: &Value) -> Option<&'a Value>
    ensures { option_copied result ≡ item_of items.now index.now }
{
    if is_int(index) {
        item_at(items, int_of(index))
    } else {
        None
    }
}

/// The key that the value is, if it is one.
pub(crate) fn key_of(alloc: Global, value: &Value) -> Result<Option<Key>, OpFault>
    ensures ok { IfOk result (λ key. key ≡ key_of value.now) }
    ensures err { IfErr result (λ fault. fault ≡ OpFault.Memory) }
{
    match value.to_key(alloc) {
        Ok(key) => Ok(Some(key)),
        Err(KeyNo::NotKey) => Ok(None),
        Err(KeyNo::Memory) => Err(OpFault::Memory),
    }
}

/// An equal value.
pub(crate) fn copied(alloc: Global, value: &Value) -> Result<Value, OpFault>
    ensures { Gives result (Ok value.now) }
{
    Ok(value.copy(alloc)?)
}

/// Appends the value.
pub(crate) fn push(items: &mut Values, value: Value) -> Result<(), OpFault>
    ensures ok { IfOk result (λ _. items.new ≡ items.old ++ value ∷ []) }
    ensures err { IfErr result (λ fault. fault ≡ OpFault.Memory) }
{
    items.push(value).map_err(|_| OpFault::Memory)
}

/// Equal values.
pub(crate) fn copies(alloc: Global, values: &[Value]) -> Result<Vec<Value>, OpFault>
    ensures ok { IfOk result (λ copies. copies.items ≡ values.now) }
    ensures err { IfErr result (λ fault. fault ≡ OpFault.Memory) }
{
    let mut copies = Vec::with_capacity(alloc, values.len())?;
    for value in values {
        copies
            .push(value.copy(alloc)?)
            .map_err(|_| OpFault::Memory)?;
    }
    Ok(copies)
}
