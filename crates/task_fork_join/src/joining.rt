// Joins that a task asks for.
ghost use Rattle.std.specs.Prelude.{◌≡◌, false, IfOk, OnErr, OnOk};
ghost use Rattle.std.specs.Option.{option_copied, IsSome};
ghost use Rattle.eval_step.specs.Evaluation.{IsAsking};
ghost use Rattle.serial_model.specs.declared.answer.Answer.TheVariants as answer_of;
ghost use Rattle.task_fork_join.specs.declared.stepped.Stepped.TheVariants as stepped;
ghost use Rattle.task_fork_join.specs.Attempt.{AreKin, IsKin};
ghost use Rattle.task_fork_join.specs.Knowledge.{Covers};
ghost use Rattle.task_fork_join.specs.Joining.{known_in, CamePlain, IsJoin, IsMerged, IsMet, IsMetBy, IsTaken};
ghost use Rattle.task_fork_join.specs.Stepping.{IsAnswered, IsWaiting};
ghost use Rattle.value_core.specs.Named.{is_among, named};

use crate::copies::{copy_parts, give};
use crate::known::Known;
use crate::task::{Parts, Stage, Task};
use crate::tasks::{end, go, set, task_of};
use crate::{Stepped, TaskEnd};
use eval_step::Machine;
use serial_model::Answer;
use std::alloc::{AllocError, Global};
use std::collections::BTreeMap;
use value_core::name_map::find;
use value_core::{Name, Value};

/// A first join: the value, and what the joining task has done and knows then.
#[derive(Drop)]
pub(crate) struct Joined {
    value: Value,
    parts: Parts,
}

/// What a join comes to: the future is none of a known task; its task goes on; it is joined for the first time; it was
/// joined before; or it ended otherwise.
#[derive(Drop)]
pub(crate) enum Met {
    Unknown,
    Unfinished,
    First(Joined),
    Again(Value),
    Ended(TaskEnd),
}

/// The task of that name joins the task of the future, where it knows it; else the value of a plain task is the answer.
pub(crate) fn join(
    tasks: &mut BTreeMap<Name, Task>,
    alloc: Global,
    name: &Name,
    moved: Machine,
    future: &Name,
    outer: Option<&Value>,
) -> Result<Stepped, AllocError>
    requires there { IsSome (named name.now tasks.old.entries) }
    requires kin { AreKin tasks.old.entries }
    requires asking { IsAsking moved }
    ensures join { IfOk result (IsJoin name.now moved future.now (option_copied outer.entry) tasks.old.entries tasks.new.entries) }
    ensures same { OnErr result (tasks.new.entries ≡ tasks.old.entries) }
{
    match meet(tasks, alloc, task_of(tasks, name), future)? {
        Met::Unknown => join_plain(tasks, alloc, name, moved, future, outer),
        Met::Unfinished => wait(tasks, alloc, name, moved, future),
        Met::First(joined) => take(tasks, alloc, name, moved, joined),
        Met::Again(value) => reply(tasks, alloc, name, moved, Answer::Value(value)),
        Met::Ended(ended) => Ok(end(tasks, name, moved, ended)),
    }
}

/// The task of the future, where it is among those that are known.
pub(crate) fn known<'a>(
    tasks: &'a BTreeMap<Name, Task>,
    knows: &Known,
    future: &Name,
) -> Option<&'a Task>
    ensures { option_copied result ≡ known_in tasks.now.entries knows.now future.now }
{
    if knows.contains(future) {
        find(tasks, future)
    } else {
        None
    }
}

/// What a join of the task comes to.
fn meet(
    tasks: &BTreeMap<Name, Task>,
    alloc: Global,
    task: &Task,
    future: &Name,
) -> Result<Met, AllocError>
    requires { IsKin tasks.now.entries task.now.knows }
    ensures { IfOk result (IsMet tasks.now.entries task.now future.now) }
{
    match known(tasks, &task.knows, future) {
        Some(child) => meet_child(alloc, task, child, future),
        None => Ok(Met::Unknown),
    }
}

/// What the join of a child comes to that the task knows.
fn meet_child(alloc: Global, task: &Task, child: &Task, future: &Name) -> Result<Met, AllocError>
    requires { Covers task.now.knows child.now.knows }
    ensures { IfOk result (IsMetBy task.now child.now future.now) }
{
    match &child.stage {
        Stage::Going(_) => Ok(Met::Unfinished),
        Stage::Closing(_) => Ok(Met::Unfinished),
        Stage::Ended(TaskEnd::Value(value)) => {
            let value = value.copy(alloc)?;
            if task.log.has_joined(future) {
                return Ok(Met::Again(value));
            }
            let parts = merge(alloc, task, child, future)?;
            Ok(Met::First(Joined { value, parts }))
        }
        Stage::Ended(TaskEnd::Fault(code, at)) => Ok(Met::Ended(TaskEnd::Fault(*code, *at))),
        Stage::Ended(TaskEnd::Spent) => Ok(Met::Ended(TaskEnd::Spent)),
    }
}

/// What the task has done and knows, once the child is merged.
fn merge(alloc: Global, task: &Task, child: &Task, future: &Name) -> Result<Parts, AllocError>
    requires apart { is_among future.now task.now.log.log.joined ≡ false }
    requires covers { Covers task.now.knows child.now.knows }
    ensures { IfOk result (IsMerged future.now child.now task.now.log task.now.knows) }
{
    let mut parts = copy_parts(alloc, task)?;
    take_in(alloc, &mut parts, child, future)?;
    Ok(parts)
}

/// Merges the child of that future.
pub(crate) fn take_in(
    alloc: Global,
    parts: &mut Parts,
    child: &Task,
    future: &Name,
) -> Result<(), AllocError>
    requires apart { is_among future.now parts.old.log.log.joined ≡ false }
    requires covers { Covers parts.old.knows child.now.knows }
    ensures { OnOk result (IsMerged future.now child.now parts.old.log parts.old.knows parts.new) }
{
    parts.log.take_in(alloc, future, &child.log)?;
    parts.knows.learn_from(&child.knows)
}

/// The value of a plain task is the answer, where it has one.
fn join_plain(
    tasks: &mut BTreeMap<Name, Task>,
    alloc: Global,
    name: &Name,
    moved: Machine,
    future: &Name,
    outer: Option<&Value>,
) -> Result<Stepped, AllocError>
    requires asking { IsAsking moved }
    ensures came { IfOk result (CamePlain name.now moved future.now (option_copied outer.entry) tasks.old.entries tasks.new.entries) }
    ensures same { OnErr result (tasks.new.entries ≡ tasks.old.entries) }
{
    match outer {
        Some(value) => {
            let value = value.copy(alloc)?;
            reply(tasks, alloc, name, moved, Answer::Value(value))
        }
        None => wait(tasks, alloc, name, moved, future),
    }
}

/// The task of that name waits for the task of the future.
fn wait(
    tasks: &mut BTreeMap<Name, Task>,
    alloc: Global,
    name: &Name,
    moved: Machine,
    future: &Name,
) -> Result<Stepped, AllocError>
    ensures waits { IfOk result (IsWaiting name.now moved (stepped.WaitJoin future.now) tasks.old.entries tasks.new.entries) }
    ensures same { OnErr result (tasks.new.entries ≡ tasks.old.entries) }
{
    let future = future.copy(alloc)?;
    go(tasks, name, Stage::Going(moved));
    Ok(Stepped::WaitJoin(future))
}

/// The task of that name goes on with what it joined.
fn take(
    tasks: &mut BTreeMap<Name, Task>,
    alloc: Global,
    name: &Name,
    moved: Machine,
    joined: Joined,
) -> Result<Stepped, AllocError>
    requires asking { IsAsking moved }
    ensures taken { IfOk result (IsTaken name.now moved joined tasks.old.entries tasks.new.entries) }
    ensures same { OnErr result (tasks.new.entries ≡ tasks.old.entries) }
{
    let machine = give(alloc, moved, Answer::Value(joined.value))?;
    set(tasks, name, joined.parts, Stage::Going(machine));
    Ok(Stepped::Now)
}

/// The task of that name goes on with the answer.
pub(crate) fn reply(
    tasks: &mut BTreeMap<Name, Task>,
    alloc: Global,
    name: &Name,
    moved: Machine,
    answer: Answer,
) -> Result<Stepped, AllocError>
    requires asking { IsAsking moved }
    ensures answered { IfOk result (IsAnswered name.now moved answer tasks.old.entries tasks.new.entries) }
    ensures same { OnErr result (tasks.new.entries ≡ tasks.old.entries) }
{
    let machine = give(alloc, moved, answer)?;
    go(tasks, name, Stage::Going(machine));
    Ok(Stepped::Now)
}
