use crate::versions::{ref_of, set_at};
use ref_store::Store;
use serial_model::{Answer, Request};
use std::alloc::{AllocError, Global};
use std::test::Fail;
use txn_snapshot::{Answered, Reads, TaskLog, View};
use value_core::{Name, Value};

/// Whether main made that as the thing of that number.
pub(crate) fn is_made(name: &Name, made: u32) -> bool {
    name.parts() == [0, made].as_slice()
}

/// A task that has done nothing, at the root.
pub(crate) fn root(alloc: Global) -> Result<TaskLog, AllocError> {
    let name = ref_of(alloc, 9)?;
    Ok(TaskLog::new(alloc, name, View::new(alloc), 0, None))
}

/// The things 0 and 1 that main made are refs: 0 has 10 from the commit 1 on and 30 from 3 on, and 1 has 20 from 2 on.
pub(crate) fn two_refs(alloc: Global) -> Result<Store, AllocError> {
    let mut store = Store::new(alloc);
    set_at(alloc, &mut store, &ref_of(alloc, 0)?, 10, 1)?;
    set_at(alloc, &mut store, &ref_of(alloc, 1)?, 20, 2)?;
    set_at(alloc, &mut store, &ref_of(alloc, 0)?, 30, 3)?;
    Ok(store)
}

/// The integer that the request was answered with.
fn integer_of(answered: &Answered) -> Option<i64> {
    match answered {
        Answered::Now(Answer::Value(Value::Int(integer))) => Some(*integer),
        _ => None,
    }
}

/// The integer that the task finds in that ref at the snapshot 2.
pub(crate) fn integer_in(
    alloc: Global,
    task: &mut TaskLog,
    made: u32,
    store: &Store,
) -> Result<Option<i64>, AllocError> {
    let request = Request::Deref(ref_of(alloc, made)?);
    let answered = task.answer(alloc, &request, store, 2)?;
    Ok(integer_of(&answered))
}

/// Sets that ref to the integer, at the snapshot 2, and says whether it was there.
pub(crate) fn set(
    alloc: Global,
    task: &mut TaskLog,
    made: u32,
    integer: i64,
    store: &Store,
) -> Result<bool, AllocError> {
    let request = Request::RefSet(ref_of(alloc, made)?, Value::Int(integer));
    let answered = task.answer(alloc, &request, store, 2)?;
    Ok(integer_of(&answered) == Some(integer))
}

fn reads_at_the_snapshot(
    alloc: Global,
    task: &mut TaskLog,
    store: &Store,
) -> Result<bool, AllocError> {
    let second = integer_in(alloc, task, 1, store)?;
    let first = integer_in(alloc, task, 0, store)?;
    let reads = Reads::of(task.reads())?;
    let in_order = match reads.items() {
        [one, other] => is_made(one, 0) && is_made(other, 1),
        _ => false,
    };
    Ok(first == Some(10) && second == Some(20) && in_order)
}

fn a_ref_is_read(alloc: Global, store: &Store) -> Result<bool, AllocError> {
    let mut task = root(alloc)?;
    reads_at_the_snapshot(alloc, &mut task, store)
}

fn sees_its_writes(alloc: Global, task: &mut TaskLog, store: &Store) -> Result<bool, AllocError> {
    let is_set = set(alloc, task, 0, 5, store)?;
    let found = integer_in(alloc, task, 0, store)?;
    let reads = Reads::of(task.reads())?;
    Ok(is_set && found == Some(5) && reads.items().is_empty())
}

fn own_writes_are_seen(alloc: Global, store: &Store) -> Result<bool, AllocError> {
    let mut task = root(alloc)?;
    sees_its_writes(alloc, &mut task, store)
}

fn names_what_is_lacking(
    alloc: Global,
    task: &mut TaskLog,
    store: &Store,
) -> Result<bool, AllocError> {
    let is_set = set(alloc, task, 7, 5, store)?;
    let request = Request::Deref(ref_of(alloc, 7)?);
    let answered = task.answer(alloc, &request, store, 2)?;
    match &answered {
        Answered::NotInSnapshot(name) => Ok(!is_set && is_made(name, 7)),
        _ => Ok(false),
    }
}

fn what_is_lacking_is_named(alloc: Global, store: &Store) -> Result<bool, AllocError> {
    let mut task = root(alloc)?;
    names_what_is_lacking(alloc, &mut task, store)
}

fn a_task_reads(alloc: Global) -> Result<bool, AllocError> {
    let store = two_refs(alloc)?;
    a_ref_is_read(alloc, &store)
}

fn a_task_writes(alloc: Global) -> Result<bool, AllocError> {
    let store = two_refs(alloc)?;
    own_writes_are_seen(alloc, &store)
}

fn a_ref_is_lacking(alloc: Global) -> Result<bool, AllocError> {
    let store = two_refs(alloc)?;
    what_is_lacking_is_named(alloc, &store)
}

#[test]
fn a_ref_is_read_as_it_is_at_the_snapshot_and_counts_as_read(rt: HostRuntime) -> Result<(), Fail> {
    assert!(rt; a_task_reads(rt.alloc())?);
    Ok(())
}

#[test]
fn a_ref_that_the_task_wrote_is_read_there_alone(rt: HostRuntime) -> Result<(), Fail> {
    assert!(rt; a_task_writes(rt.alloc())?);
    Ok(())
}

#[test]
fn a_ref_that_is_not_in_the_snapshot_is_named(rt: HostRuntime) -> Result<(), Fail> {
    assert!(rt; a_ref_is_lacking(rt.alloc())?);
    Ok(())
}
