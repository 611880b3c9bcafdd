use shared_map::{SharedMap, SharedNames};
use std::alloc::{AllocError, Global};
use std::test::Fail;
use value_core::{Name, Value};

/// The name of the thing with that number that main made.
fn name(alloc: Global, number: u32) -> Result<Name, AllocError> {
    let main = Name::main(alloc)?;
    main.child(alloc, number)
}

fn put(
    alloc: Global,
    map: &mut SharedMap<Value>,
    number: u32,
    value: i64,
) -> Result<(), AllocError> {
    map.put(name(alloc, number)?, Value::Int(value))
}

fn at(alloc: Global, map: &SharedMap<Value>, number: u32) -> Result<Option<i64>, AllocError> {
    match map.get(&name(alloc, number)?) {
        Some(Value::Int(value)) => Ok(Some(*value)),
        _ => Ok(None),
    }
}

/// The values of the entries, in order.
fn values(alloc: Global, map: &SharedMap<Value>) -> Result<Vec<i64>, AllocError> {
    let mut values = Vec::new(alloc);
    for (_, value) in map.entries()? {
        if let Value::Int(value) = value {
            values.push(value)?;
        }
    }
    Ok(values)
}

/// 5, 2, 8, 1, 4, 7, 9, 3 and 6, put in this order, each under its number with ten times the number.
fn nine(alloc: Global) -> Result<SharedMap<Value>, AllocError> {
    let mut map = SharedMap::new(alloc);
    for number in [5, 2, 8, 1, 4, 7, 9, 3, 6] {
        put(alloc, &mut map, number, i64::from(number) * 10)?;
    }
    Ok(map)
}

#[test]
fn the_entries_are_in_order(rt: HostRuntime) -> Result<(), Fail> {
    let map = nine(rt.alloc())?;
    assert!(rt;
        values(rt.alloc(), &map)?.as_slice() == [10, 20, 30, 40, 50, 60, 70, 80, 90].as_slice()
    );
    assert_eq!(rt; at(rt.alloc(), &map, 7)?, Some(70));
    assert_eq!(rt; at(rt.alloc(), &map, 10)?, None);
    Ok(())
}

#[test]
fn a_copy_stays_where_the_other_changes(rt: HostRuntime) -> Result<(), Fail> {
    let mut map = nine(rt.alloc())?;
    let copy = map.copy()?;
    put(rt.alloc(), &mut map, 4, 41)?;
    put(rt.alloc(), &mut map, 0, 1)?;
    assert!(rt;
        values(rt.alloc(), &copy)?.as_slice() == [10, 20, 30, 40, 50, 60, 70, 80, 90].as_slice()
    );
    assert!(rt;
        values(rt.alloc(), &map)?.as_slice() == [1, 10, 20, 30, 41, 50, 60, 70, 80, 90].as_slice()
    );
    Ok(())
}

#[test]
fn a_map_is_put_over_another(rt: HostRuntime) -> Result<(), Fail> {
    let mut map = nine(rt.alloc())?;
    let mut more = SharedMap::new(rt.alloc());
    put(rt.alloc(), &mut more, 4, 41)?;
    put(rt.alloc(), &mut more, 10, 100)?;
    map.put_all(&more)?;
    assert!(rt;
        values(rt.alloc(), &map)?.as_slice() == [10, 20, 30, 41, 50, 60, 70, 80, 90, 100].as_slice()
    );
    assert_eq!(rt; map.names()?.len(), 10);
    Ok(())
}

/// The names of the things with these numbers that main made.
fn names_of(alloc: Global, numbers: &[u32]) -> Result<SharedNames, AllocError> {
    let mut names = SharedNames::new(alloc);
    for number in numbers {
        names.add(name(alloc, *number)?)?;
    }
    Ok(names)
}

/// Whether the names are those of the things with these numbers that main made.
fn are(names: &SharedNames, numbers: &[u32]) -> Result<bool, AllocError> {
    let listed = names.list()?;
    let mut are = listed.len() == numbers.len();
    for (name, number) in listed.iter().zip(numbers) {
        are = are && name.parts() == [0, *number].as_slice();
    }
    Ok(are)
}

#[test]
fn names_are_added_in_their_places(rt: HostRuntime) -> Result<(), Fail> {
    let names = names_of(rt.alloc(), [3, 1, 3, 2].as_slice())?;
    let mut both = names.copy()?;
    both.add_all(&names_of(rt.alloc(), [5, 2, 0].as_slice())?)?;
    assert!(rt; are(&names, [1, 2, 3].as_slice())?);
    assert!(rt; are(&both, [0, 1, 2, 3, 5].as_slice())?);
    assert!(rt; both.contains(&name(rt.alloc(), 5)?) && !names.contains(&name(rt.alloc(), 5)?));
    Ok(())
}
