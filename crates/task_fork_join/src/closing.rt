// The joins at the value of a task.
ghost use Rattle.std.specs.Prelude.{◌≡◌, false, IfOk, OnErr};
ghost use Rattle.std.specs.Option.{IsSome};
ghost use Rattle.task_fork_join.specs.Attempt.{AreKin, IsKin, IsOfTasks};
ghost use Rattle.task_fork_join.specs.Closing.{AllWent, AreJoins, CameClose, IsClose, IsFinished, IsWent, WentAt};
ghost use Rattle.task_fork_join.specs.Knowledge.{Covers};
ghost use Rattle.value_core.specs.Named.{is_among, named};

use crate::copies::copy_parts;
use crate::joining::{known, take_in};
use crate::task::{Closing, Parts, Stage, Task};
use crate::tasks::{set, task_of};
use crate::{Stepped, TaskEnd};
use eval_step::Machine;
use std::alloc::{AllocError, Global};
use std::collections::BTreeMap;
use std::mem;
use value_core::{Name, Value};

/// What comes of the joins at the value of a task: all are passed; it waits for the thing with that number, which is the task of
/// that future; or one ended otherwise.
#[derive(Drop)]
pub(crate) enum Went {
    On,
    Waits(Name, u32),
    Ended(TaskEnd),
}

/// What a task has done and knows after the joins at its value, and what came of them.
#[derive(Drop)]
pub(crate) struct Closed {
    parts: Parts,
    went: Went,
}

/// The task of that name is at its value: it joins its children that it has not joined, and ends, unless one of them has not
/// finished: then it has joined those before that one, and goes on from there.
pub(crate) fn close(
    tasks: &mut BTreeMap<Name, Task>,
    alloc: Global,
    name: &Name,
    moved: Machine,
    value: Value,
) -> Result<Stepped, AllocError>
    requires there { IsSome (named name.now tasks.old.entries) }
    requires kin { AreKin tasks.old.entries }
    ensures close { IfOk result (IsClose name.now moved value tasks.old.entries tasks.new.entries) }
    ensures same { OnErr result (tasks.new.entries ≡ tasks.old.entries) }
{
    let closed = joins_of(tasks, alloc, name)?;
    Ok(stop(tasks, name, moved, value, closed))
}

/// What comes of the joins at the value of the task of that name.
fn joins_of(tasks: &BTreeMap<Name, Task>, alloc: Global, name: &Name) -> Result<Closed, AllocError>
    requires there { IsSome (named name.now tasks.now.entries) }
    requires kin { AreKin tasks.now.entries }
    ensures { IfOk result (AreJoins name.now tasks.now.entries) }
{
    let task = task_of(tasks, name);
    let mut parts = copy_parts(alloc, task)?;
    let went = close_children(tasks, alloc, &mut parts, task.stage.next())?;
    Ok(Closed { parts, went })
}

/// The task of that name ends, or waits.
fn stop(
    tasks: &mut BTreeMap<Name, Task>,
    name: &Name,
    moved: Machine,
    value: Value,
    closed: Closed,
) -> Stepped
    ensures { CameClose name.now moved value closed.parts closed.went tasks.old.entries tasks.new.entries result }
{
    let Closed { parts, went } = closed;
    match went {
        Went::On => finish(tasks, name, moved, parts, TaskEnd::Value(value)),
        Went::Waits(future, next) => {
            let machine = moved;
            let closing = Closing {
                machine,
                value,
                next,
            };
            set(tasks, name, parts, Stage::Closing(closing));
            Stepped::WaitJoin(future)
        }
        Went::Ended(ended) => finish(tasks, name, moved, parts, ended),
    }
}

/// Joins the children that are not joined, in the order of their forks, from the thing with that number on, up to one that has
/// not finished or that ended otherwise.
fn close_children(
    tasks: &BTreeMap<Name, Task>,
    alloc: Global,
    parts: &mut Parts,
    from: u32,
) -> Result<Went, AllocError>
    requires kin { AreKin tasks.now.entries }
    requires own { IsKin tasks.now.entries parts.old.knows }
    requires there { IsOfTasks tasks.now.entries parts.old.knows }
    ensures { IfOk result (AllWent tasks.now.entries from parts.old parts.new) }
{
    for number in from..parts.log.made() {
        match close_child(tasks, alloc, parts, number)? {
            Went::On => {}
            Went::Waits(future, next) => return Ok(Went::Waits(future, next)),
            Went::Ended(ended) => return Ok(Went::Ended(ended)),
        }
    }
    Ok(Went::On)
}

/// Joins the thing with that number, where it is a child that is not joined.
fn close_child(
    tasks: &BTreeMap<Name, Task>,
    alloc: Global,
    parts: &mut Parts,
    number: u32,
) -> Result<Went, AllocError>
    requires { IsKin tasks.now.entries parts.old.knows }
    ensures { IfOk result (IsWent tasks.now.entries number parts.old parts.new) }
{
    let future = parts.log.made_at(alloc, number)?;
    if parts.log.has_joined(&future) {
        return Ok(Went::On);
    }
    match known(tasks, &parts.knows, &future) {
        Some(child) => close_task(alloc, parts, child, future, number),
        None => Ok(Went::On),
    }
}

/// Joins the child of that future, which is the thing with that number.
fn close_task(
    alloc: Global,
    parts: &mut Parts,
    child: &Task,
    future: Name,
    number: u32,
) -> Result<Went, AllocError>
    requires apart { is_among future parts.old.log.log.joined ≡ false }
    requires covers { Covers parts.old.knows child.now.knows }
    ensures { IfOk result (WentAt child.now.stage future number child.now parts.old parts.new) }
{
    match &child.stage {
        Stage::Going(_) => Ok(Went::Waits(future, number)),
        Stage::Closing(_) => Ok(Went::Waits(future, number)),
        Stage::Ended(TaskEnd::Value(_)) => {
            take_in(alloc, parts, child, &future)?;
            Ok(Went::On)
        }
        Stage::Ended(TaskEnd::Fault(code, at)) => Ok(Went::Ended(TaskEnd::Fault(*code, *at))),
        Stage::Ended(TaskEnd::Spent) => Ok(Went::Ended(TaskEnd::Spent)),
    }
}

/// The task of that name ends so, and has done this; its machine is needed no more.
fn finish(
    tasks: &mut BTreeMap<Name, Task>,
    name: &Name,
    moved: Machine,
    parts: Parts,
    ended: TaskEnd,
) -> Stepped
    ensures { IsFinished name.now parts ended tasks.old.entries tasks.new.entries result }
{
    mem::drop(moved);
    set(tasks, name, parts, Stage::Ended(ended));
    Stepped::Finished
}
