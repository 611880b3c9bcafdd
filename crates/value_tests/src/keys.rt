use crate::maps::{a_map, text};
use std::alloc::{AllocError, Global};
use std::test::Fail;
use value_core::{Dict, Key, KeyNo, Op, Text, Value, Values};
use value_ops::apply;

// Whether the value is the key.
fn is_key(alloc: Global, value: &Value, key: &Key) -> bool {
    match value.to_key(alloc) {
        Ok(found) => found.equal(key),
        Err(_) => false,
    }
}

fn string_is_key(alloc: Global, word: &Text) -> Result<bool, AllocError> {
    let string = Value::Str(word.copy(alloc)?);
    let key = Key::Str(word.copy(alloc)?);
    Ok(is_key(alloc, &string, &key))
}

fn keyword_is_key(alloc: Global, word: &Text) -> Result<bool, AllocError> {
    let keyword = Value::Kw(word.copy(alloc)?);
    let key = Key::Kw(word.copy(alloc)?);
    Ok(is_key(alloc, &keyword, &key))
}

fn words_are_keys(alloc: Global) -> Result<bool, AllocError> {
    let word = text(alloc, b"word")?;
    Ok(string_is_key(alloc, &word)? && keyword_is_key(alloc, &word)?)
}

#[test]
fn each_kind_of_key_comes_from_its_value(rt: HostRuntime) -> Result<(), Fail> {
    assert!(rt; words_are_keys(rt.alloc())?);
    assert!(rt; is_key(rt.alloc(), &Value::Int(-7), &Key::Int(-7)));
    assert!(rt; is_key(rt.alloc(), &Value::Bool(true), &Key::Bool(true)));
    Ok(())
}

fn is_refused(alloc: Global, value: &Value) -> bool {
    matches!(value.to_key(alloc), Err(KeyNo::NotKey))
}

#[test]
fn other_values_are_no_keys(rt: HostRuntime) {
    let alloc = rt.alloc();
    assert!(rt; is_refused(alloc, &Value::Nil));
    assert!(rt; is_refused(alloc, &Value::Vector(Values::new(alloc))));
    assert!(rt; is_refused(alloc, &Value::Map(Dict::new(alloc))));
}

fn counted(value: &Value) -> usize {
    match value {
        Value::Vector(items) => items.len(),
        _ => 0,
    }
}

// How many keys of the map come back as values.
fn keys_that_come_back(alloc: Global) -> Result<usize, AllocError> {
    let map = Value::Map(a_map(alloc)?);
    match apply(alloc, Op::Keys, &[map]) {
        Ok(keys) => Ok(counted(&keys)),
        Err(_) => Ok(0),
    }
}

#[test]
fn each_kind_of_key_comes_back(rt: HostRuntime) -> Result<(), Fail> {
    assert_eq!(rt; keys_that_come_back(rt.alloc())?, 7);
    Ok(())
}
