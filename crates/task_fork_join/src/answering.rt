// Requests that the log of a task answers.
ghost use Rattle.std.specs.Prelude.{◌≡◌, ◌<◌, List, IfOk, OnErr};
ghost use Rattle.std.specs.Option.{IsSome};
ghost use Rattle.eval_step.specs.Evaluation.{IsAsking};
ghost use Rattle.serial_model.specs.declared.request.Request.TheVariants as request_of;
ghost use Rattle.task_fork_join.specs.Stepping.{noted, with_one, IsActed, IsForeseen};
ghost use Rattle.txn_snapshot.specs.SnapshotAnswer.{snapshot_of, IsAnswerable};
ghost use Rattle.value_core.specs.Named.{Name as Called, named};

use crate::Stepped;
use crate::copies::give;
use crate::task::{Stage, Task};
use crate::tasks::{act, go, task_of};
use eval_step::Machine;
use ref_store::Store;
use serial_model::{Answer, Request};
use std::alloc::{AllocError, Global};
use std::collections::BTreeMap;
use txn_snapshot::{Answered, Reads, TaskLog};
use value_core::Name;

/// The task of that name is answered by its log, or waits for a ref that the snapshot does not have.
pub(crate) fn answer(
    tasks: &mut BTreeMap<Name, Task>,
    reads: &mut Reads,
    alloc: Global,
    name: &Name,
    moved: Machine,
    request: &Request,
    store: &Store,
    snapshot: u64,
) -> Result<Stepped, AllocError>
    requires answerable { IsAnswerable request.now }
    requires there { IsSome (named name.now tasks.old.entries) }
    requires asking { IsAsking moved }
    ensures acted { IfOk result (IsActed (snapshot_of store.now.versions snapshot) name.now moved request.now tasks.old.entries reads.old.items tasks.new.entries reads.new.items) }
    ensures same { OnErr result (tasks.new.entries ≡ tasks.old.entries) }
    ensures unread { OnErr result (reads.new.items ≡ reads.old.items) }
{
    let foreseen = task_of(tasks, name)
        .log
        .foresee(alloc, request, store, snapshot)?;
    match foreseen {
        Answered::Now(given) => go_on(
            tasks, reads, alloc, name, moved, given, request, store, snapshot,
        ),
        Answered::NotInSnapshot(reference) => {
            go(tasks, name, Stage::Going(moved));
            Ok(Stepped::NotInSnapshot(reference))
        }
    }
}

/// The task of that name goes on with the answer, which is that of its log. What takes memory comes first, so that nothing is
/// to be undone.
fn go_on(
    tasks: &mut BTreeMap<Name, Task>,
    reads: &mut Reads,
    alloc: Global,
    name: &Name,
    moved: Machine,
    given: Answer,
    request: &Request,
    store: &Store,
    snapshot: u64,
) -> Result<Stepped, AllocError>
    requires answerable { IsAnswerable request.now }
    requires there { IsSome (named name.now tasks.old.entries) }
    requires asking { IsAsking moved }
    requires given { IsForeseen (snapshot_of store.now.versions snapshot) name.now request.now given tasks.old.entries }
    ensures acted { IfOk result (IsActed (snapshot_of store.now.versions snapshot) name.now moved request.now tasks.old.entries reads.old.items tasks.new.entries reads.new.items) }
    ensures same { OnErr result (tasks.new.entries ≡ tasks.old.entries) }
    ensures unread { OnErr result (reads.new.items ≡ reads.old.items) }
{
    let read = read_of(alloc, &task_of(tasks, name).log, request)?;
    reads.reserve(1)?;
    let machine = give(alloc, moved, given)?;
    act(tasks, alloc, name, machine, request, store, snapshot)?;
    note(reads, read);
    Ok(Stepped::Now)
}

/// The ref of a deref, where the task has no value of it of its own, so that it counts as read.
fn read_of(alloc: Global, log: &TaskLog, request: &Request) -> Result<Option<Name>, AllocError>
    ensures { IfOk result (λ read. (reads : List Called) → noted log.now request.now reads ≡ with_one read reads) }
{
    match request {
        Request::Deref(name) => unless_held(alloc, log, name),
        _ => Ok(None),
    }
}

fn unless_held(alloc: Global, log: &TaskLog, name: &Name) -> Result<Option<Name>, AllocError>
    ensures { IfOk result (λ read. (reads : List Called) → noted log.now (request_of.Deref name.now) reads ≡ with_one read reads) }
{
    if log.holds(name) {
        return Ok(None);
    }
    Ok(Some(name.copy(alloc)?))
}

/// Counts the ref as read, where there is one. It takes no memory.
fn note(reads: &mut Reads, read: Option<Name>)
    requires { 0 < reads.old.room }
    ensures { reads.new.items ≡ with_one read reads.old.items }
{
    if let Some(name) = read {
        match reads.put(name) {
            Ok(()) => {}
            Err(_) => unreachable!(),
        }
    }
}
