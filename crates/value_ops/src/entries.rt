ghost use Rattle.std.specs.Prelude.{◌≡◌, [], ◌∷◌, map, fold, IfOk, IfErr, Ok, Err, Some, None};
ghost use Rattle.std.specs.Bool.{MatchBool};
ghost use Rattle.std.specs.List.{list_all};
ghost use Rattle.value_core.specs.declared.value.Value.TheVariants.{Map};
ghost use Rattle.value_core.specs.declared.value.Value.TheViews.{out-Value};
ghost use Rattle.value_core.specs.primitives.Apply.{Gives, of_first};
ghost use Rattle.value_core.specs.primitives.Kinds.{is_int};
ghost use Rattle.value_core.specs.primitives.Parts.{paired, assoc_step, put_rule, place_rule, placed, dissoc_step, drop_key};

use crate::OpFault;
use crate::parts::{first_of, key_of, push};
use int_ops::{int_of, is_int};
use std::alloc::Global;
use value_core::{Dict, Pairs, Value, Values};

/// `assoc`
pub(crate) fn assoc(alloc: Global, args: Vec<Value>) -> Result<Value, OpFault>
    ensures { Gives result (of_first (λ c more. assoc_step (out-Value c) (paired more)) args.items) }
{
    let Some(parts) = first_of(args) else {
        return Err(OpFault::WrongType);
    };
    let (collection, entries) = parts;
    match collection {
        Value::Nil => put_entries(alloc, Dict::new(alloc), &entries),
        Value::Map(pairs) => put_entries(alloc, pairs, &entries),
        Value::Vector(items) => place_entries(alloc, items, &entries),
        _ => Err(OpFault::WrongType),
    }
}

// Puts each key and value into the pairs.
fn put_entries(alloc: Global, pairs: Pairs, entries: &[Value]) -> Result<Value, OpFault>
    ensures { Gives result (put_rule pairs (paired entries.now)) }
{
    let mut pairs = pairs;
    for index in 0..entries.len() / 2 {
        let key = &entries[2 * index];
        let value = &entries[2 * index + 1];
        let Some(key) = key_of(alloc, key)? else {
            return Err(OpFault::WrongType);
        };
        pairs.put(key, value.copy(alloc)?)?;
    }
    Ok(Value::Map(pairs))
}

// Sets or appends each value at its index.
fn place_entries(alloc: Global, items: Values, entries: &[Value]) -> Result<Value, OpFault>
    ensures { Gives result (place_rule items (paired entries.now)) }
{
    if !have_int_indices(entries) {
        return Err(OpFault::WrongType);
    }
    let mut items = items;
    for index in 0..entries.len() / 2 {
        let value = &entries[2 * index + 1];
        if !place(alloc, &mut items, int_of(&entries[2 * index]), value)? {
            return Err(OpFault::Index);
        }
    }
    Ok(Value::Vector(items))
}

fn have_int_indices(entries: &[Value]) -> bool
    ensures { result ≡ list_all (λ e. is_int e.0) (paired entries.now) }
{
    for index in 0..entries.len() / 2 {
        if !is_int(&entries[2 * index]) {
            return false;
        }
    }
    true
}

// Sets the item at the number, or appends it at the length; false where the number is out of range.
fn place(alloc: Global, items: &mut Values, number: i64, value: &Value) -> Result<bool, OpFault>
    ensures ok { IfOk result (λ done. MatchBool done (placed items.old number value.now ≡ Some items.new) (placed items.old number value.now ≡ None)) }
    ensures err { IfErr result (λ fault. fault ≡ OpFault.Memory) }
{
    if number < 0 {
        return Ok(false);
    }
    let (place, length) = (number as usize, items.len());
    if place > length {
        return Ok(false);
    }
    let value = value.copy(alloc)?;
    if place < length {
        items.set(place, value)?;
    } else {
        push(items, value)?;
    }
    Ok(true)
}

/// `dissoc`
pub(crate) fn dissoc(alloc: Global, args: Vec<Value>) -> Result<Value, OpFault>
    ensures { Gives result (of_first (λ c keys. dissoc_step (out-Value c) keys) args.items) }
{
    let Some(parts) = first_of(args) else {
        return Err(OpFault::WrongType);
    };
    let (collection, keys) = parts;
    match collection {
        Value::Nil => Ok(Value::Nil),
        Value::Map(pairs) => without(alloc, pairs, &keys),
        _ => Err(OpFault::WrongType),
    }
}

// The map without the keys.
fn without(alloc: Global, pairs: Pairs, keys: &[Value]) -> Result<Value, OpFault>
    ensures { Gives result (Ok (Map (fold drop_key pairs keys.now))) }
{
    let mut pairs = pairs;
    for key in keys {
        remove_key(alloc, &mut pairs, key)?;
    }
    Ok(Value::Map(pairs))
}

fn remove_key(alloc: Global, pairs: &mut Pairs, key: &Value) -> Result<(), OpFault>
    ensures ok { IfOk result (λ _. pairs.new ≡ drop_key pairs.old key.now) }
    ensures err { IfErr result (λ fault. fault ≡ OpFault.Memory) }
{
    if let Some(key) = key_of(alloc, key)? {
        let _ = pairs.remove(&key);
    }
    Ok(())
}
