use crate::snapshots::{integer_in, is_made, root, set, two_refs};
use ref_store::Store;
use serial_model::{Effect, Request, What};
use std::alloc::{AllocError, Global};
use std::test::Fail;
use task_log::list_effects;
use txn_snapshot::{ForkView, Reads, TaskLog, View};
use value_core::{Name, Text};

/// A child that was forked: its future, and what it has done.
#[derive(Drop)]
struct Child {
    future: Name,
    log: TaskLog,
}

fn fork(alloc: Global, parent: &mut TaskLog) -> Result<Child, AllocError> {
    let ForkView { future, view } = parent.fork(alloc)?;
    child_of(alloc, future, view)
}

fn child_of(alloc: Global, future: Name, view: View) -> Result<Child, AllocError> {
    let name = future.copy(alloc)?;
    Ok(Child {
        future,
        log: TaskLog::new(alloc, name, view, 1, None),
    })
}

/// Merges the child, and says whether it was not joined before and is now.
fn join(alloc: Global, parent: &mut TaskLog, child: &Child) -> Result<bool, AllocError> {
    if parent.has_joined(&child.future) {
        return Ok(false);
    }
    parent.merge(alloc, &child.future, &child.log)?;
    Ok(parent.has_joined(&child.future))
}

/// Prints that.
fn print(alloc: Global, task: &mut TaskLog, text: &[u8], store: &Store) -> Result<(), AllocError> {
    let request = Request::Print(Text::from_bytes(alloc, text)?);
    let _answered = task.answer(alloc, &request, store, 2)?;
    Ok(())
}

/// Whether the effect prints that.
fn is_print(effect: &Effect, text: &[u8]) -> bool {
    match &effect.what {
        What::Bytes(bytes) => bytes.items() == text,
        _ => false,
    }
}

/// Whether the task printed the two, in this order.
fn printed(alloc: Global, task: &TaskLog, first: &[u8], second: &[u8]) -> Result<bool, AllocError> {
    let effects = list_effects(alloc, task.effects())?;
    Ok(match effects.as_slice() {
        [one, other] => is_print(one, first) && is_print(other, second),
        _ => false,
    })
}

/// Whether the task has read that ref, and no other.
fn read_one(task: &TaskLog, made: u32) -> Result<bool, AllocError> {
    let reads = Reads::of(task.reads())?;
    Ok(match reads.items() {
        [only] => is_made(only, made),
        _ => false,
    })
}

// The parent writes 6 after the fork: the child still finds the 5 that was there then, and what is in no write of its
// parent it reads from the store.
fn finds_what_was_there(
    alloc: Global,
    parent: &mut TaskLog,
    child: &mut Child,
    store: &Store,
) -> Result<bool, AllocError> {
    let is_set = set(alloc, parent, 0, 6, store)?;
    let first = integer_in(alloc, &mut child.log, 0, store)?;
    let second = integer_in(alloc, &mut child.log, 1, store)?;
    Ok(is_set && first == Some(5) && second == Some(20) && read_one(&child.log, 1)?)
}

fn forks(alloc: Global, parent: &mut TaskLog, store: &Store) -> Result<bool, AllocError> {
    let is_set = set(alloc, parent, 0, 5, store)?;
    let mut child = fork(alloc, parent)?;
    let is_named = child.future.parts() == [0, 9, 0].as_slice();
    let finds = finds_what_was_there(alloc, parent, &mut child, store)?;
    Ok(is_set && is_named && finds && parent.made() == 1)
}

fn a_task_forks(alloc: Global) -> Result<bool, AllocError> {
    let store = two_refs(alloc)?;
    let mut parent = root(alloc)?;
    forks(alloc, &mut parent, &store)
}

// The child writes 7 and prints; its parent wrote 5 before the fork and 6 after it, and printed.
fn both_act(
    alloc: Global,
    parent: &mut TaskLog,
    child: &mut Child,
    store: &Store,
) -> Result<bool, AllocError> {
    let is_set = set(alloc, parent, 0, 6, store)? && set(alloc, &mut child.log, 0, 7, store)?;
    let read = integer_in(alloc, &mut child.log, 1, store)?;
    print(alloc, &mut child.log, b"child\n", store)?;
    print(alloc, parent, b"parent\n", store)?;
    Ok(is_set && read == Some(20))
}

// The child's write prevails, its print stands behind those that are there, and what it read counts as read.
fn has_what_its_child_did(
    alloc: Global,
    parent: &mut TaskLog,
    store: &Store,
) -> Result<bool, AllocError> {
    let found = integer_in(alloc, parent, 0, store)?;
    let printed = printed(alloc, parent, b"parent\n", b"child\n")?;
    Ok(found == Some(7) && read_one(parent, 1)? && printed)
}

fn joins(alloc: Global, parent: &mut TaskLog, store: &Store) -> Result<bool, AllocError> {
    let mut child = fork(alloc, parent)?;
    let acted = both_act(alloc, parent, &mut child, store)?;
    let joined = join(alloc, parent, &child)?;
    Ok(acted && joined && has_what_its_child_did(alloc, parent, store)?)
}

fn a_task_joins(alloc: Global) -> Result<bool, AllocError> {
    let store = two_refs(alloc)?;
    let mut parent = root(alloc)?;
    joins(alloc, &mut parent, &store)
}

// A child joins its sibling, and their parent joins the sibling and then the child: the sibling's print is there once.
fn comes_by_two_joins(
    alloc: Global,
    parent: &mut TaskLog,
    sibling: &Child,
    child: &mut Child,
    store: &Store,
) -> Result<bool, AllocError> {
    print(alloc, &mut child.log, b"child\n", store)?;
    let by_child = join(alloc, &mut child.log, sibling)?;
    let by_parent = join(alloc, parent, sibling)? && join(alloc, parent, child)?;
    let printed = printed(alloc, parent, b"sibling\n", b"child\n")?;
    Ok(by_child && by_parent && printed)
}

fn joins_both(alloc: Global, parent: &mut TaskLog, store: &Store) -> Result<bool, AllocError> {
    let mut sibling = fork(alloc, parent)?;
    let mut child = fork(alloc, parent)?;
    print(alloc, &mut sibling.log, b"sibling\n", store)?;
    comes_by_two_joins(alloc, parent, &sibling, &mut child, store)
}

fn an_effect_comes_twice(alloc: Global) -> Result<bool, AllocError> {
    let store = two_refs(alloc)?;
    let mut parent = root(alloc)?;
    joins_both(alloc, &mut parent, &store)
}

#[test]
fn a_child_sees_what_its_parent_saw_at_the_fork(rt: HostRuntime) -> Result<(), Fail> {
    assert!(rt; a_task_forks(rt.alloc())?);
    Ok(())
}

#[test]
fn at_a_join_what_the_child_did_prevails(rt: HostRuntime) -> Result<(), Fail> {
    assert!(rt; a_task_joins(rt.alloc())?);
    Ok(())
}

#[test]
fn an_effect_that_comes_by_two_joins_is_kept_once(rt: HostRuntime) -> Result<(), Fail> {
    assert!(rt; an_effect_comes_twice(rt.alloc())?);
    Ok(())
}
