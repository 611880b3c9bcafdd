use lock_appends::{Listed, appended_by_four, appended_by_two};
use std::process::Abort;
use std::sync::Wait;
use std::test::*;
use std::thread::Threads;

/// How often the number stands in the list.
fn times_of(numbers: &Listed, number: u32) -> usize {
    numbers.items.iter().filter(|x| **x == number).count()
}

#[test]
fn two_threads_append_a_thousand_times_each(rt: HostRuntime) -> Result<(), Fail> {
    let numbers = appended_by_two(&rt, rt.alloc(), 7, 1000)?;
    assert_eq!(rt; numbers.setup, 7);
    assert_eq!(rt; numbers.items.len(), 2000);
    assert_eq!(rt; times_of(&numbers, 1), 1000);
    assert_eq!(rt; times_of(&numbers, 2), 1000);
    Ok(())
}

#[test]
fn four_threads_append_a_thousand_times_each(rt: HostRuntime) -> Result<(), Fail> {
    let numbers = appended_by_four(&rt, rt.alloc(), 8, 1000)?;
    assert_eq!(rt; numbers.setup, 8);
    assert_eq!(rt; numbers.items.len(), 4000);
    for number in 1..5 {
        assert_eq!(rt; times_of(&numbers, number), 1000);
    }
    Ok(())
}
