use slot_set::SlotSet;
use std::alloc::{AllocError, Global};
use std::test::Fail;

// The least of the members is found, however many words lie between them.
fn finds_the_least(alloc: Global) -> Result<bool, AllocError> {
    let mut set = SlotSet::new(alloc);
    let none = set.first().is_none();
    set.reserve(1_000_000)?;
    set.insert(999_999);
    set.insert(4096);
    set.insert(70);
    set.insert(70);
    Ok(none && set.first() == Some(70) && set.contains(4096) && !set.contains(71))
}

// What is taken out is no member, and the others stay where room is made.
fn takes_members_out(alloc: Global) -> Result<bool, AllocError> {
    let mut set = SlotSet::new(alloc);
    set.reserve(100)?;
    set.insert(63);
    set.insert(64);
    set.remove(63);
    set.remove(63);
    set.reserve(300_000)?;
    let second = set.first();
    set.insert(299_999);
    set.remove(64);
    let last = set.first();
    set.remove(299_999);
    Ok(second == Some(64) && last == Some(299_999) && set.first().is_none())
}

#[test]
fn the_least_member_is_found(rt: HostRuntime) -> Result<(), Fail> {
    assert!(rt; finds_the_least(rt.alloc())?);
    assert!(rt; takes_members_out(rt.alloc())?);
    Ok(())
}
