ghost use Rattle.std.specs.Prelude.{◌≡◌, ◌↔◌, min, max, map, IfErr, IsTrue, IfOk, Some, None, [], ◌∷◌, ◌++◌};
ghost use Rattle.std.specs.List.{list_any};
ghost use Rattle.value_core.specs.Depth.{depth_of, deepest};
ghost use Rattle.value_core.specs.Futures.{holds_future};
ghost use Rattle.value_core.specs.ToKey.{key_of};

use crate::{Dict, Key, Name, Pairs, SharedVector, Text};
use std::alloc::{AllocError, Global};
use thiserror::Error;

/// A value of the language. Its tree is finite; the keys of each map rise.
#[derive(Drop)]
pub enum Value {
    Nil,
    Bool(bool),
    Int(i64),
    Str(Text),
    Kw(Text),
    Vector(Values),
    Map(Pairs),
    Ref(Name),
    Actor(Name),
    Future(Name),
}

/// A list of values, whose copies share them.
pub type Values = SharedVector<Value>;

/// Why a value is no key: it is of no kind of keys, or there was no memory for the copy.
#[derive(Clone, Copy, Debug, PartialEq, Eq, Error)]
pub enum KeyNo {
    #[error("not a key")]
    NotKey,
    #[error("out of memory")]
    Memory,
}

impl Value {
    /// How deep the value is: 1 for an atom and an empty collection, else one more than its deepest part, and 4294967295
    /// where that is more. It takes no memory.
    #[cycle(depth)]
    #[tactic(auto, using(crate::proofs::ValueFolds::value_folds))]
    pub fn depth(&self) -> u32
        ensures { result ≡ min (depth_of self.now) 4294967295 }
    {
        match self {
            Value::Vector(items) => deepest_item(items).saturating_add(1),
            Value::Map(pairs) => deepest_value(pairs).saturating_add(1),
            _ => 1,
        }
    }

    /// Whether the value is a future, or has a part that holds one. It takes no memory.
    #[cycle(futures)]
    #[tactic(auto, using(crate::proofs::ValueFolds::value_folds))]
    pub fn holds_future(&self) -> bool
        ensures { result ≡ holds_future self.now }
    {
        match self {
            Value::Vector(items) => some_item_holds_future(items),
            Value::Map(pairs) => some_value_holds_future(pairs),
            Value::Future(_) => true,
            _ => false,
        }
    }

    /// Whether the two are the same tree: maps by their pairs, and refs, actors and futures by their names. It takes no
    /// memory.
    #[cycle(equal)]
    pub fn equal(&self, other: &Value) -> bool
        ensures { IsTrue result ↔ (self.now ≡ other.now) }
    {
        match (self, other) {
            (Value::Nil, Value::Nil) => true,
            (Value::Bool(a), Value::Bool(b)) => a == b,
            (Value::Int(a), Value::Int(b)) => a == b,
            (Value::Str(a), Value::Str(b)) => a.items() == b.items(),
            (Value::Kw(a), Value::Kw(b)) => a.items() == b.items(),
            (Value::Vector(a), Value::Vector(b)) => equal_items(a, b),
            (Value::Map(a), Value::Map(b)) => equal_pairs(a, b),
            (Value::Ref(a), Value::Ref(b)) => a.equal(b),
            (Value::Actor(a), Value::Actor(b)) => a.equal(b),
            (Value::Future(a), Value::Future(b)) => a.equal(b),
            _ => false,
        }
    }

    /// An equal value.
    #[cycle(copy)]
    pub fn copy(&self, alloc: Global) -> Result<Value, AllocError>
        ensures { IfOk result (λ copied. copied ≡ self.now) }
    {
        match self {
            Value::Nil => Ok(Value::Nil),
            Value::Bool(b) => Ok(Value::Bool(*b)),
            Value::Int(n) => Ok(Value::Int(*n)),
            Value::Str(text) => Ok(Value::Str(text.copy(alloc)?)),
            Value::Kw(text) => Ok(Value::Kw(text.copy(alloc)?)),
            Value::Vector(items) => Ok(Value::Vector(items.copy()?)),
            Value::Map(pairs) => Ok(Value::Map(copy_pairs(alloc, pairs)?)),
            Value::Ref(name) => Ok(Value::Ref(name.copy(alloc)?)),
            Value::Actor(name) => Ok(Value::Actor(name.copy(alloc)?)),
            Value::Future(name) => Ok(Value::Future(name.copy(alloc)?)),
        }
    }

    /// The key that the value is: a boolean, an integer, a keyword or a string.
    pub fn to_key(&self, alloc: Global) -> Result<Key, KeyNo>
        ensures key { IfOk result (λ key. key_of self.now ≡ Some key) }
        ensures not_key { (result ≡ Err KeyNo.NotKey) ↔ (key_of self.now ≡ None) }
    {
        match self {
            Value::Bool(b) => Ok(Key::Bool(*b)),
            Value::Int(n) => Ok(Key::Int(*n)),
            Value::Str(text) => Ok(Key::Str(copy_text(alloc, text)?)),
            Value::Kw(text) => Ok(Key::Kw(copy_text(alloc, text)?)),
            _ => Err(KeyNo::NotKey),
        }
    }
}

fn copy_text(alloc: Global, text: &Text) -> Result<Text, KeyNo>
    ensures ok { IfOk result (λ copied. copied ≡ text.now) }
    ensures memory { IfErr result (λ refusal. refusal ≡ KeyNo.Memory) }
{
    text.copy(alloc).map_err(|_| KeyNo::Memory)
}

#[cycle(depth)]
fn deepest_item(items: &Values) -> u32
    ensures { result ≡ min (deepest (map depth_of items.now)) 4294967295 }
{
    let mut most = 0;
    for item in items.iter() {
        most = greater(most, item.depth());
    }
    most
}

#[cycle(depth)]
fn deepest_value(pairs: &Pairs) -> u32
    ensures { result ≡ min (deepest (map (λ p. depth_of p.value) pairs.now)) 4294967295 }
{
    let mut most = 0;
    for pair in pairs.items() {
        most = greater(most, pair.value.depth());
    }
    most
}

fn greater(a: u32, b: u32) -> u32
    ensures { result ≡ max a b }
{
    if a < b { b } else { a }
}

#[cycle(futures)]
fn some_item_holds_future(items: &Values) -> bool
    ensures { result ≡ list_any holds_future items.now }
{
    for item in items.iter() {
        if item.holds_future() {
            return true;
        }
    }
    false
}

#[cycle(futures)]
fn some_value_holds_future(pairs: &Pairs) -> bool
    ensures { result ≡ list_any (λ p. holds_future p.value) pairs.now }
{
    for pair in pairs.items() {
        if pair.value.holds_future() {
            return true;
        }
    }
    false
}

#[cycle(equal)]
pub(crate) fn equal_items(left: &Values, right: &Values) -> bool
    ensures { IsTrue result ↔ (left.now ≡ right.now) }
{
    if left.len() != right.len() {
        return false;
    }
    let mut others = right.iter();
    for item in left.iter() {
        match others.next() {
            Some(other) => {
                if !item.equal(other) {
                    return false;
                }
            }
            None => return false,
        }
    }
    true
}

#[cycle(equal)]
fn equal_pairs(left: &Pairs, right: &Pairs) -> bool
    ensures { IsTrue result ↔ (left.now ≡ right.now) }
{
    let others = right.items();
    if left.items().len() != others.len() {
        return false;
    }
    for (index, pair) in left.items().iter().enumerate() {
        let other = &others[index];
        if !pair.key.equal(&other.key) || !pair.value.equal(&other.value) {
            return false;
        }
    }
    true
}

#[cycle(copy)]
fn copy_pairs(alloc: Global, pairs: &Pairs) -> Result<Pairs, AllocError>
    ensures { IfOk result (λ copied. copied ≡ pairs.now) }
{
    let mut copied = Dict::new(alloc);
    copied.reserve(pairs.items().len())?;
    for pair in pairs.items() {
        copied.append(pair.key.copy(alloc)?, pair.value.copy(alloc)?)?;
    }
    Ok(copied)
}
