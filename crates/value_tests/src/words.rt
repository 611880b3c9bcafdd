//! Values, each written as a word: `nil`, `true`, `false`, an integer, `MIN` or `MAX` of 64 bits, a string after a quote, a
//! keyword, a vector of integers after a bracket; `map` for {:a 1, "b" 2}, `mixed` for [1 "b" nil], `keyed` for a map with a
//! key of each kind, `empty` for {}; `ref`, `actor` or `future` with the name of main.

use std::alloc::{AllocError, Global};
use value_core::{Dict, Key, Name, Text, Value, Values};

fn int_of(digits: &[u8]) -> i64 {
    let mut number = 0i64;
    for byte in digits {
        if *byte != b'-' {
            number = number
                .wrapping_mul(10)
                .wrapping_add(i64::from(byte.wrapping_sub(b'0')));
        }
    }
    if digits.starts_with(b"-") {
        number.wrapping_neg()
    } else {
        number
    }
}

fn vector_of(alloc: Global, numbers: &[u8]) -> Result<Value, AllocError> {
    let mut items = Values::new(alloc);
    if !numbers.is_empty() {
        for digits in numbers.split(|byte| *byte == b',') {
            items.push(Value::Int(int_of(digits)))?;
        }
    }
    Ok(Value::Vector(items))
}

fn mixed_vector(alloc: Global) -> Result<Value, AllocError> {
    let mut items = Values::new(alloc);
    for word in [b"1".as_slice(), b"\"b", b"nil"] {
        items.push(plain(alloc, word)?)?;
    }
    Ok(Value::Vector(items))
}

fn put_string(
    pairs: &mut Dict<Value>,
    alloc: Global,
    key: &[u8],
    value: Value,
) -> Result<(), AllocError> {
    let key = Key::Str(Text::from_bytes(alloc, key)?);
    pairs.put(key, value)
}

fn put_keyword(
    pairs: &mut Dict<Value>,
    alloc: Global,
    key: &[u8],
    value: Value,
) -> Result<(), AllocError> {
    let key = Key::Kw(Text::from_bytes(alloc, key)?);
    pairs.put(key, value)
}

fn small_map(alloc: Global) -> Result<Value, AllocError> {
    let mut pairs = Dict::new(alloc);
    put_string(&mut pairs, alloc, b"b", Value::Int(2))?;
    put_keyword(&mut pairs, alloc, b"a", Value::Int(1))?;
    Ok(Value::Map(pairs))
}

// The map {"s" "t", :k true, 2 [], false 7}, put in this order.
fn keyed_map(alloc: Global) -> Result<Value, AllocError> {
    let mut pairs = Dict::new(alloc);
    put_string(&mut pairs, alloc, b"s", plain(alloc, b"\"t")?)?;
    put_keyword(&mut pairs, alloc, b"k", Value::Bool(true))?;
    pairs.put(Key::Int(2), Value::Vector(Values::new(alloc)))?;
    pairs.put(Key::Bool(false), Value::Int(7))?;
    Ok(Value::Map(pairs))
}

fn named(alloc: Global, word: &[u8]) -> Result<Value, AllocError> {
    let name = Name::main(alloc)?;
    match word {
        b"ref" => Ok(Value::Ref(name)),
        b"actor" => Ok(Value::Actor(name)),
        _ => Ok(Value::Future(name)),
    }
}

fn plain(alloc: Global, word: &[u8]) -> Result<Value, AllocError> {
    match word {
        b"nil" => Ok(Value::Nil),
        [b'"', text @ ..] => Ok(Value::Str(Text::from_bytes(alloc, text)?)),
        [b':', name @ ..] => Ok(Value::Kw(Text::from_bytes(alloc, name)?)),
        [b'[', numbers @ ..] => vector_of(alloc, numbers),
        digits => Ok(Value::Int(int_of(digits))),
    }
}

fn held(alloc: Global, word: &[u8]) -> Result<Value, AllocError> {
    match word {
        b"map" => small_map(alloc),
        b"mixed" => mixed_vector(alloc),
        b"keyed" => keyed_map(alloc),
        b"empty" => Ok(Value::Map(Dict::new(alloc))),
        b"ref" | b"actor" | b"future" => named(alloc, word),
        other => plain(alloc, other),
    }
}

/// The value of the word.
pub(crate) fn value_of(alloc: Global, word: &[u8]) -> Result<Value, AllocError> {
    match word {
        b"true" => Ok(Value::Bool(true)),
        b"false" => Ok(Value::Bool(false)),
        b"MIN" => Ok(Value::Int(i64::MIN)),
        b"MAX" => Ok(Value::Int(i64::MAX)),
        other => held(alloc, other),
    }
}

/// The values of the words, with a space between.
pub(crate) fn values_of(alloc: Global, words: &[u8]) -> Result<Values, AllocError> {
    let mut values = Values::new(alloc);
    if !words.is_empty() {
        for word in words.split(|byte| *byte == b' ') {
            values.push(value_of(alloc, word)?)?;
        }
    }
    Ok(values)
}
