use crate::maps::{a_map, text};
use crate::names::name_of;
use std::alloc::{AllocError, Global};
use std::test::Fail;
use value_core::lists::copy_list;
use value_core::{Reserved, Text, Value, Values};

// The vector of the map and a future.
fn a_vector(alloc: Global) -> Result<Value, AllocError> {
    let future = Value::Future(name_of(alloc, &[4])?);
    let mut items = Values::new(alloc);
    items.push(Value::Map(a_map(alloc)?))?;
    items.push(future)?;
    Ok(Value::Vector(items))
}

fn measures_a_map(alloc: Global) -> Result<bool, AllocError> {
    let map = Value::Map(a_map(alloc)?);
    Ok(map.depth() == 2 && !map.holds_future())
}

fn measures_a_vector(alloc: Global) -> Result<bool, AllocError> {
    let vector = a_vector(alloc)?;
    Ok(vector.depth() == 3 && vector.holds_future())
}

fn equals_its_copy(alloc: Global, value: &Value) -> Result<bool, AllocError> {
    let copy = value.copy(alloc)?;
    Ok(value.equal(&copy))
}

fn equals_the_map(alloc: Global, value: &Value) -> Result<bool, AllocError> {
    let map = Value::Map(a_map(alloc)?);
    Ok(value.equal(&map))
}

fn is_equal_to_its_copy(alloc: Global) -> Result<bool, AllocError> {
    let vector = a_vector(alloc)?;
    Ok(equals_its_copy(alloc, &vector)? && !equals_the_map(alloc, &vector)?)
}

// The vector of these integers.
fn integers(alloc: Global, numbers: &[i64]) -> Result<Value, AllocError> {
    let mut items = Values::new(alloc);
    for number in numbers {
        items.push(Value::Int(*number))?;
    }
    Ok(Value::Vector(items))
}

fn are_integers(alloc: Global, items: Values, numbers: &[i64]) -> Result<bool, AllocError> {
    let wanted = integers(alloc, numbers)?;
    Ok(Value::Vector(items).equal(&wanted))
}

// What is written into a list and pushed onto it is not seen in the copy that shares its items.
fn a_copy_stays(alloc: Global) -> Result<bool, AllocError> {
    let mut items = copy_list(alloc, &[Value::Int(1), Value::Int(2)])?;
    let kept = items.copy()?;
    items.set(0, Value::Int(3))?;
    items.push(Value::Int(4))?;
    let stays = are_integers(alloc, kept, &[1, 2])?;
    let changed = are_integers(alloc, items, &[3, 2, 4])?;
    Ok(stays && changed)
}

fn kinds_of_names_differ(alloc: Global) -> Result<bool, AllocError> {
    let cell = Value::Ref(name_of(alloc, &[])?);
    let actor = Value::Actor(name_of(alloc, &[])?);
    Ok(!cell.equal(&actor))
}

#[test]
fn values_are_compared_copied_and_measured(rt: HostRuntime) -> Result<(), Fail> {
    assert!(rt; measures_a_map(rt.alloc())?);
    assert!(rt; measures_a_vector(rt.alloc())?);
    assert!(rt; is_equal_to_its_copy(rt.alloc())?);
    assert!(rt; kinds_of_names_differ(rt.alloc())?);
    assert_eq!(rt; Value::Vector(Values::new(rt.alloc())).depth(), 1);
    Ok(())
}

#[test]
fn a_copy_of_a_list_stays(rt: HostRuntime) -> Result<(), Fail> {
    assert!(rt; a_copy_stays(rt.alloc())?);
    Ok(())
}

#[test]
fn texts_grow(rt: HostRuntime) -> Result<(), Fail> {
    let mut bytes = text(rt.alloc(), b"ab")?;
    bytes.extend(b"cd")?;
    assert_eq!(rt; bytes.copy(rt.alloc())?.items(), b"abcd".as_slice());
    Ok(())
}

#[test]
fn lists_with_room_grow(rt: HostRuntime) -> Result<(), Fail> {
    let mut tickets = Reserved::new(rt.alloc());
    tickets.reserve(1)?;
    assert!(rt; tickets.push(7u32).is_ok());
    assert!(rt; tickets.push(8u32).is_ok());
    assert_eq!(rt; tickets.items(), [7, 8].as_slice());
    Ok(())
}
