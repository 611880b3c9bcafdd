// Changes of the task of a name.
ghost use Rattle.std.specs.Prelude.{◌≡◌, Some, OnErr, OnOk};
ghost use Rattle.std.specs.Option.{IsSome};
ghost use Rattle.task_fork_join.specs.Joining.{IsEnded};
ghost use Rattle.task_fork_join.specs.Stepping.{Gone, HasActed, HasParts};
ghost use Rattle.txn_snapshot.specs.SnapshotAnswer.{snapshot_of, IsAnswerable};
ghost use Rattle.value_core.specs.Named.{named, IsChanged};

use crate::task::{Parts, Stage, Task};
use crate::{Stepped, TaskEnd};
use eval_step::Machine;
use ref_store::Store;
use serial_model::Request;
use std::alloc::{AllocError, Global};
use std::collections::BTreeMap;
use std::mem;
use value_core::Name;
use value_core::name_map::find;

/// The task of that name is there.
pub(crate) fn go(tasks: &mut BTreeMap<Name, Task>, name: &Name, stage: Stage)
    ensures { IsChanged name.now tasks.old.entries tasks.new.entries (Gone stage) }
{
    match tasks.get_mut(name) {
        Some(task) => task.go(stage),
        None => {}
    }
}

/// The log of the task of that name answers the request, and the task goes on with that machine, which was given the answer.
/// For want of memory the tasks stay.
pub(crate) fn act(
    tasks: &mut BTreeMap<Name, Task>,
    alloc: Global,
    name: &Name,
    machine: Machine,
    request: &Request,
    store: &Store,
    snapshot: u64,
) -> Result<(), AllocError>
    requires answerable { IsAnswerable request.now }
    requires there { IsSome (named name.now tasks.old.entries) }
    ensures acted { OnOk result (IsChanged name.now tasks.old.entries tasks.new.entries (HasActed (snapshot_of store.now.versions snapshot) request.now machine)) }
    ensures same { OnErr result (tasks.new.entries ≡ tasks.old.entries) }
{
    match tasks.get_mut(name) {
        Some(task) => task.act(alloc, machine, request, store, snapshot),
        None => unreachable!(),
    }
}

/// The task of that name has done this, knows these, and is there.
pub(crate) fn set(tasks: &mut BTreeMap<Name, Task>, name: &Name, parts: Parts, stage: Stage)
    ensures { IsChanged name.now tasks.old.entries tasks.new.entries (HasParts parts stage) }
{
    match tasks.get_mut(name) {
        Some(task) => task.set(parts, stage),
        None => {}
    }
}

/// The task of that name ends so, and its machine is needed no more.
pub(crate) fn end(
    tasks: &mut BTreeMap<Name, Task>,
    name: &Name,
    moved: Machine,
    ended: TaskEnd,
) -> Stepped
    ensures { IsEnded name.now ended tasks.old.entries tasks.new.entries result }
{
    mem::drop(moved);
    go(tasks, name, Stage::Ended(ended));
    Stepped::Finished
}

/// The task of that name.
pub(crate) fn task_of<'a>(tasks: &'a BTreeMap<Name, Task>, name: &Name) -> &'a Task
    requires { IsSome (named name.now tasks.now.entries) }
    ensures { named name.now tasks.now.entries ≡ Some result.now }
{
    match find(tasks, name) {
        Some(task) => task,
        None => unreachable!(),
    }
}
