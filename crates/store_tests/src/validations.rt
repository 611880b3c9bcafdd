use crate::snapshots::{integer_in, root, two_refs};
use ref_store::Store;
use std::alloc::{AllocError, Global};
use std::test::Fail;
use txn_commit::{Conflict, validate};
use txn_snapshot::{Reads, TaskLog};

/// What a validation answers where the task has read that ref at the snapshot 2.
fn read_and_validated(
    alloc: Global,
    task: &mut TaskLog,
    made: u32,
    store: &Store,
) -> Result<Result<(), Conflict>, AllocError> {
    let _found = integer_in(alloc, task, made, store)?;
    Ok(validate(&Reads::of(task.reads())?, store, 2))
}

fn validated(alloc: Global, made: u32, store: &Store) -> Result<Result<(), Conflict>, AllocError> {
    let mut task = root(alloc)?;
    read_and_validated(alloc, &mut task, made, store)
}

// The ref 0 has a version 3, and the ref 1 none above 2.
fn a_later_version_is_the_conflict(alloc: Global) -> Result<bool, AllocError> {
    let store = two_refs(alloc)?;
    let changed = validated(alloc, 0, &store)?;
    let unchanged = validated(alloc, 1, &store)?;
    let conflict = Conflict {
        index: 0,
        version: 3,
    };
    Ok(changed == Err(conflict) && unchanged == Ok(()))
}

#[test]
fn a_read_that_was_written_since_is_a_conflict(rt: HostRuntime) -> Result<(), Fail> {
    assert!(rt; a_later_version_is_the_conflict(rt.alloc())?);
    Ok(())
}
