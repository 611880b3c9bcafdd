use crate::names::name_of;
use std::alloc::{AllocError, Global};
use std::test::Fail;
use value_core::{Dict, Key, Pair, Text, Value};

pub(crate) fn text(alloc: Global, bytes: &[u8]) -> Result<Text, AllocError> {
    Text::from_bytes(alloc, bytes)
}

fn put_word(pairs: &mut Dict<Value>, word: Text, number: i64) -> Result<(), AllocError> {
    pairs.put(Key::Kw(word), Value::Int(number))
}

fn put_string(pairs: &mut Dict<Value>, string: Text, value: Value) -> Result<(), AllocError> {
    pairs.put(Key::Str(string), value)
}

fn put_atoms(pairs: &mut Dict<Value>) -> Result<(), AllocError> {
    for (number, value) in [(-3, 3), (2, 5)] {
        pairs.put(Key::Int(number), Value::Int(value))?;
    }
    for (truth, value) in [(true, 4), (false, 6)] {
        pairs.put(Key::Bool(truth), Value::Int(value))?;
    }
    Ok(())
}

fn put_words(pairs: &mut Dict<Value>, alloc: Global) -> Result<(), AllocError> {
    put_string(pairs, text(alloc, b"b")?, Value::Int(1))?;
    put_word(pairs, text(alloc, b"z")?, 2)
}

fn put_more(pairs: &mut Dict<Value>, alloc: Global) -> Result<(), AllocError> {
    put_string(pairs, text(alloc, b"a")?, Value::Nil)?;
    pairs.put(Key::Int(-3), Value::Ref(name_of(alloc, &[1])?))
}

fn put_all(pairs: &mut Dict<Value>, alloc: Global) -> Result<(), AllocError> {
    pairs.reserve(7)?;
    put_words(pairs, alloc)?;
    put_atoms(pairs)?;
    put_more(pairs, alloc)
}

// A map with a key of each kind, put in no order, and one put twice.
pub(crate) fn a_map(alloc: Global) -> Result<Dict<Value>, AllocError> {
    let mut pairs = Dict::new(alloc);
    put_all(&mut pairs, alloc)?;
    Ok(pairs)
}

fn is_int(value: Option<&Value>, number: i64) -> bool {
    match value {
        Some(found) => found.equal(&Value::Int(number)),
        None => false,
    }
}

fn kind_of(pair: &Pair<Value>) -> u8 {
    match &pair.key {
        Key::Bool(_) => 0,
        Key::Int(_) => 1,
        Key::Kw(_) => 2,
        Key::Str(_) => 3,
    }
}

fn has_rising_kinds(alloc: Global) -> Result<bool, AllocError> {
    let pairs = a_map(alloc)?;
    let kinds = [0u8, 0, 1, 1, 2, 3, 3];
    let rising = pairs
        .items()
        .iter()
        .zip(kinds)
        .all(|(pair, kind)| kind_of(pair) == kind);
    Ok(pairs.items().len() == 7 && rising)
}

fn finds_what_was_put_last(alloc: Global) -> Result<bool, AllocError> {
    let pairs = a_map(alloc)?;
    let word = Key::Kw(text(alloc, b"z")?);
    let none = Key::Str(text(alloc, b"z")?);
    Ok(
        is_int(pairs.get(&Key::Int(2)), 5)
            && is_int(pairs.get(&word), 2)
            && !is_int(pairs.get(&Key::Int(-3)), 3)
            && pairs.get(&none).is_none(),
    )
}

fn removes_once(alloc: Global) -> Result<bool, AllocError> {
    let mut pairs = a_map(alloc)?;
    let first = pairs.remove(&Key::Bool(true)).is_some();
    let second = pairs.remove(&Key::Bool(true)).is_some();
    Ok(first && !second && pairs.items().len() == 6)
}

#[test]
fn a_map_keeps_the_last_value_in_key_order(rt: HostRuntime) -> Result<(), Fail> {
    assert!(rt; has_rising_kinds(rt.alloc())?);
    assert!(rt; finds_what_was_put_last(rt.alloc())?);
    assert!(rt; removes_once(rt.alloc())?);
    Ok(())
}
