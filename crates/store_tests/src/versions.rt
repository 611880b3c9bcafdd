ghost use Rattle.std.specs.Prelude.{◌<◌, ℕ, IfOk, OnOk};
ghost use Rattle.ref_store.specs.Store.{IsAbove};

use ref_store::{Store, Writes};
use std::alloc::{AllocError, Global};
use std::test::Fail;
use value_core::{Name, Value};

/// The ref that main made as the thing of that number.
pub(crate) fn ref_of(alloc: Global, made: u32) -> Result<Name, AllocError> {
    Name::main(alloc)?.child(alloc, made)
}

/// Sets the ref to the integer, by a commit of that number.
pub(crate) fn set_at(
    alloc: Global,
    store: &mut Store,
    name: &Name,
    integer: i64,
    number: u64,
) -> Result<(), AllocError>
    requires { IsAbove number store.old.versions }
    ensures { OnOk result ((later : ℕ) → number < later → IsAbove later store.new.versions) }
{
    let mut writes = Writes::new(alloc);
    writes.put(name.copy(alloc)?, Value::Int(integer))?;
    store.reserve(alloc, &writes)?;
    store.commit(writes, number);
    Ok(())
}

/// The integer that the ref has at the number.
fn integer_at(store: &Store, name: &Name, number: u64) -> Option<i64> {
    match store.read_at(name, number) {
        Some(Value::Int(integer)) => Some(*integer),
        _ => None,
    }
}

/// The ref is 10 from the commit 1 on, 20 from 2 on and 30 from 3 on.
fn three_versions(alloc: Global, name: &Name) -> Result<Store, AllocError>
    ensures { IfOk result (λ store. (later : ℕ) → 3 < later → IsAbove later store.versions) }
{
    let mut store = Store::new(alloc);
    set_at(alloc, &mut store, name, 10, 1)?;
    set_at(alloc, &mut store, name, 20, 2)?;
    set_at(alloc, &mut store, name, 30, 3)?;
    Ok(store)
}

fn a_prune_keeps_two_of_three(alloc: Global) -> Result<bool, AllocError> {
    let name = ref_of(alloc, 0)?;
    let mut store = three_versions(alloc, &name)?;
    store.prune(&[2]);
    Ok(
        integer_at(&store, &name, 1).is_none()
            && integer_at(&store, &name, 2) == Some(20)
            && integer_at(&store, &name, 3) == Some(30),
    )
}

/// What the ref is at 1, 2 and 3.
fn first_three(store: &Store, name: &Name) -> (Option<i64>, Option<i64>, Option<i64>) {
    (
        integer_at(store, name, 1),
        integer_at(store, name, 2),
        integer_at(store, name, 3),
    )
}

// With 1 and 2 live all three versions stay, with 2 the last two, and with none the newest.
fn each_prune_looks_again(alloc: Global) -> Result<bool, AllocError> {
    let name = ref_of(alloc, 0)?;
    let mut store = three_versions(alloc, &name)?;
    store.prune(&[1, 2]);
    let with_two = first_three(&store, &name);
    store.prune(&[2]);
    let with_one = first_three(&store, &name);
    store.prune(&[]);
    let with_none = first_three(&store, &name);
    Ok(
        with_two == (Some(10), Some(20), Some(30))
            && with_one == (None, Some(20), Some(30))
            && with_none == (None, None, Some(30)),
    )
}

// The ref 0 has one version left, and gets another one; the ref 1 has had one version all the time.
fn a_ref_comes_back(alloc: Global) -> Result<bool, AllocError> {
    let (name, other) = (ref_of(alloc, 0)?, ref_of(alloc, 1)?);
    let mut store = three_versions(alloc, &name)?;
    store.prune(&[]);
    set_at(alloc, &mut store, &other, 5, 4)?;
    set_at(alloc, &mut store, &name, 40, 5)?;
    store.prune(&[4]);
    let with_one = (integer_at(&store, &name, 4), integer_at(&store, &name, 5));
    store.prune(&[]);
    let with_none = (integer_at(&store, &name, 4), integer_at(&store, &name, 5));
    Ok(
        with_one == (Some(30), Some(40))
            && with_none == (None, Some(40))
            && integer_at(&store, &other, 4) == Some(5),
    )
}

fn reads_go_by_their_number(alloc: Global) -> Result<bool, AllocError> {
    let name = ref_of(alloc, 0)?;
    let store = three_versions(alloc, &name)?;
    Ok(
        integer_at(&store, &name, 0).is_none()
            && integer_at(&store, &name, 2) == Some(20)
            && integer_at(&store, &name, 9) == Some(30)
            && store.newest(&name).is_some(),
    )
}

fn another_ref_has_nothing(alloc: Global) -> Result<bool, AllocError> {
    let name = ref_of(alloc, 0)?;
    let store = three_versions(alloc, &name)?;
    let other = ref_of(alloc, 1)?;
    Ok(integer_at(&store, &other, 3).is_none() && store.newest(&other).is_none())
}

#[test]
fn a_prune_keeps_what_is_read_at_a_live_number_and_the_newest(rt: HostRuntime) -> Result<(), Fail> {
    assert!(rt; a_prune_keeps_two_of_three(rt.alloc())?);
    Ok(())
}

#[test]
fn each_prune_keeps_what_its_live_numbers_read(rt: HostRuntime) -> Result<(), Fail> {
    assert!(rt; each_prune_looks_again(rt.alloc())?);
    Ok(())
}

#[test]
fn a_ref_that_was_pruned_to_one_version_is_pruned_again(rt: HostRuntime) -> Result<(), Fail> {
    assert!(rt; a_ref_comes_back(rt.alloc())?);
    Ok(())
}

#[test]
fn a_commit_is_read_from_its_number_on(rt: HostRuntime) -> Result<(), Fail> {
    assert!(rt; reads_go_by_their_number(rt.alloc())?);
    assert!(rt; another_ref_has_nothing(rt.alloc())?);
    Ok(())
}
