use record_pool::Pool;
use std::alloc::{AllocError, Global};
use std::test::Fail;

// The pool of one record that took the place of another one has other tickets than before.
fn gives_a_ticket_once(alloc: Global) -> Result<bool, AllocError> {
    let mut pool = Pool::new(alloc);
    pool.reserve(1)?;
    let first = pool.insert(1u8);
    let removed = pool.remove(first);
    let second = pool.insert(2);
    Ok(
        removed == Some(1)
            && first != second
            && pool.get(first).is_none()
            && pool.get(second) == Some(&2),
    )
}

// A record is written through its ticket, and no longer removed by an older one.
fn writes_a_record(alloc: Global) -> Result<bool, AllocError> {
    let mut pool = Pool::new(alloc);
    pool.reserve(1)?;
    let ticket = pool.insert(2u8);
    if let Some(value) = pool.get_mut(ticket) {
        *value = 3;
    }
    let removed = pool.remove(ticket);
    Ok(removed == Some(3) && pool.remove(ticket).is_none())
}

// A slot with the last generation is retired.
fn retires_a_slot(alloc: Global) -> Result<bool, AllocError> {
    let mut pool = Pool::starting_at(alloc, u32::MAX);
    pool.reserve(2)?;
    let first = pool.insert(1u8);
    let removed = pool.remove(first);
    pool.reserve(1)?;
    let second = pool.insert(2);
    Ok(
        removed == Some(1)
            && first.slot != second.slot
            && pool.get(first).is_none()
            && pool.get(second) == Some(&2),
    )
}

#[test]
fn no_ticket_is_given_out_twice(rt: HostRuntime) -> Result<(), Fail> {
    assert!(rt; gives_a_ticket_once(rt.alloc())?);
    assert!(rt; writes_a_record(rt.alloc())?);
    assert!(rt; retires_a_slot(rt.alloc())?);
    Ok(())
}
