use std::alloc::{AllocError, Global};
use std::test::Fail;
use wait_lists::WaitLists;

// Those that wait for a slot are woken once each, and one that stopped is not.
fn wakes_each_once(alloc: Global) -> Result<bool, AllocError> {
    let mut waits = WaitLists::new(alloc);
    waits.reserve(10)?;
    waits.wait(1, 5);
    waits.wait(2, 5);
    waits.wait(3, 5);
    waits.stop(2);
    waits.stop(2);
    let first = waits.wake(5);
    let second = waits.wake(5);
    Ok(first == Some(3) && second == Some(1) && waits.wake(5).is_none())
}

// A slot waits for what it was last told.
fn waits_for_another(alloc: Global) -> Result<bool, AllocError> {
    let mut waits = WaitLists::new(alloc);
    waits.reserve(4)?;
    waits.wait(0, 1);
    waits.stop(0);
    waits.wait(0, 2);
    waits.reserve(8)?;
    let need = waits.need_of(0);
    let none = waits.wake(1);
    Ok(need == Some(2) && none.is_none() && waits.wake(2) == Some(0))
}

#[test]
fn each_that_waits_is_woken_once(rt: HostRuntime) -> Result<(), Fail> {
    assert!(rt; wakes_each_once(rt.alloc())?);
    assert!(rt; waits_for_another(rt.alloc())?);
    Ok(())
}
