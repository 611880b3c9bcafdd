use crate::versions::ref_of;
use ref_store::Writes;
use std::alloc::{AllocError, Global};
use std::test::Fail;
use value_core::{Name, Value};

/// Sets the ref that main made as the thing of that number.
fn put(alloc: Global, writes: &mut Writes, made: u32, integer: i64) -> Result<(), AllocError> {
    writes.put(ref_of(alloc, made)?, Value::Int(integer))
}

/// The ref 1 is set, then 0, then 1 again.
fn two_writes(alloc: Global) -> Result<Writes, AllocError> {
    let mut writes = Writes::new(alloc);
    writes.reserve(2)?;
    put(alloc, &mut writes, 1, 10)?;
    put(alloc, &mut writes, 0, 20)?;
    put(alloc, &mut writes, 1, 30)?;
    Ok(writes)
}

fn is_write(write: &(Name, Value), parts: &[u32], integer: i64) -> bool {
    match &write.1 {
        Value::Int(found) => write.0.parts() == parts && *found == integer,
        _ => false,
    }
}

fn the_last_value_stays(alloc: Global) -> Result<bool, AllocError> {
    let writes = two_writes(alloc)?;
    match writes.items() {
        [first, second] => Ok(is_write(first, &[0, 0], 20) && is_write(second, &[0, 1], 30)),
        _ => Ok(false),
    }
}

fn a_write_is_found(alloc: Global) -> Result<bool, AllocError> {
    let writes = two_writes(alloc)?;
    let found = writes.get(&ref_of(alloc, 1)?).is_some();
    Ok(found && writes.get(&ref_of(alloc, 2)?).is_none())
}

#[test]
fn writes_stand_in_after_order_with_the_last_value_of_each(rt: HostRuntime) -> Result<(), Fail> {
    assert!(rt; the_last_value_stays(rt.alloc())?);
    assert!(rt; a_write_is_found(rt.alloc())?);
    Ok(())
}
