// Forks.
ghost use Rattle.std.specs.Prelude.{◌≡◌, ◌<◌, ◌+◌, [], None, IfOk, OnErr, OnOk};
ghost use Rattle.std.specs.Option.{IsSome};
ghost use Rattle.eval_step.specs.Evaluation.{IsAsking};
ghost use Rattle.serial_model.specs.declared.answer.Answer.TheVariants as answer_of;
ghost use Rattle.task_fork_join.specs.declared.stepped.Stepped.TheVariants as stepped_as;
ghost use Rattle.task_fork_join.specs.declared.task.Stage.TheVariants as stage_of;
ghost use Rattle.task_fork_join.specs.Forking.{CameFork, IsBegun, IsForked, IsPut};
ghost use Rattle.task_fork_join.specs.Stepping.{HasParts, IsGiven};
ghost use Rattle.txn_snapshot.specs.SnapshotTask.{new_task};
ghost use Rattle.value_core.specs.declared.value.Value.TheVariants as value_of;
ghost use Rattle.task_fork_join.specs.Knowledge.{HasLearned};
ghost use Rattle.value_core.specs.Named.{named, with_named, IsChanged};

use crate::Stepped;
use crate::copies::{copy_parts, give};
use crate::joining::reply;
use crate::task::{Parts, Stage, Task, machine_goes};
use crate::tasks::{set, task_of};
use core_syntax::NodeId;
use eval_step::Machine;
use serial_model::Answer;
use std::alloc::{AllocError, Global};
use std::collections::BTreeMap;
use txn_snapshot::{ForkView, TaskLog, View};
use value_core::name_map::{find, put};
use value_core::{Code, Name, Value, Values};

// So many forks below the root no task forks.
const DEEPEST: u32 = 16;

/// A child that is forked: its future; what it has done and knows; and what its parent has done and knows then.
#[derive(Drop)]
pub(crate) struct Forked {
    future: Name,
    child: Parts,
    parent: Parts,
}

/// A child that begins: what is forked, its machine, and its future once more, which is told.
#[derive(Drop)]
pub(crate) struct Begun {
    forked: Forked,
    machine: Machine,
    told: Name,
}

/// The task of that name forks a child; at the last level the fork fails.
pub(crate) fn fork(
    tasks: &mut BTreeMap<Name, Task>,
    alloc: Global,
    actor: &Option<Name>,
    fuel: u64,
    name: &Name,
    moved: Machine,
    body: NodeId,
    values: Values,
) -> Result<Stepped, AllocError>
    requires there { IsSome (named name.now tasks.old.entries) }
    requires asking { IsAsking moved }
    ensures came { IfOk result (CameFork name.now moved actor.now fuel body values tasks.old.entries tasks.new.entries) }
    ensures same { OnErr result (tasks.new.entries ≡ tasks.old.entries) }
{
    if task_of(tasks, name).log.depth() >= DEEPEST {
        reply(tasks, alloc, name, moved, Answer::Fault(Code::ForkTooDeep))
    } else {
        match begin(alloc, task_of(tasks, name), actor, fuel, body, values) {
            Ok(begun) => take(tasks, alloc, name, moved, begun),
            Err(error) => {
                machine_goes(moved);
                Err(error)
            }
        }
    }
}

/// A child of the task begins with that body.
fn begin(
    alloc: Global,
    task: &Task,
    actor: &Option<Name>,
    fuel: u64,
    body: NodeId,
    values: Values,
) -> Result<Begun, AllocError>
    requires { task.now.log.depth < 16 }
    ensures forked { IfOk result (λ begun. IsForked task.now actor.now begun.forked) }
    ensures begun { IfOk result (λ begun. IsBegun fuel body values begun.machine) }
    ensures told { IfOk result (λ begun. begun.told ≡ begun.forked.future) }
{
    let forked = fork_child(alloc, task, actor)?;
    let told = forked.future.copy(alloc)?;
    start(alloc, forked, told, fuel, body, values)
}

/// What is forked, with a machine that begins.
fn start(
    alloc: Global,
    forked: Forked,
    told: Name,
    fuel: u64,
    body: NodeId,
    values: Values,
) -> Result<Begun, AllocError>
    ensures forked { IfOk result (λ begun. begun.forked ≡ forked) }
    ensures begun { IfOk result (λ begun. IsBegun fuel body values begun.machine) }
    ensures told { IfOk result (λ begun. begun.told ≡ told) }
{
    let machine = Machine::start(alloc, body, values, true, fuel)?;
    Ok(Begun {
        forked,
        machine,
        told,
    })
}

/// A child of the task.
fn fork_child(alloc: Global, task: &Task, actor: &Option<Name>) -> Result<Forked, AllocError>
    requires { task.now.log.depth < 16 }
    ensures { IfOk result (IsForked task.now actor.now) }
{
    let mut parent = copy_parts(alloc, task)?;
    let fork = parent.log.fork(alloc)?;
    split(alloc, task, actor, parent, fork)
}

/// The child, and what its parent has done and knows, which has counted it.
fn split(
    alloc: Global,
    task: &Task,
    actor: &Option<Name>,
    counted: Parts,
    fork: ForkView,
) -> Result<Forked, AllocError>
    requires { task.now.log.depth < 16 }
    ensures future { IfOk result (λ forked. forked.future ≡ fork.future) }
    ensures child { IfOk result (λ forked. forked.child.log ≡ new_task fork.future fork.view (task.now.log.depth + 1) actor.now) }
    ensures child_knows { IfOk result (λ forked. forked.child.knows ≡ record { keys = task.now.knows.keys; since = [] }) }
    ensures parent { IfOk result (λ forked. forked.parent.log ≡ counted.log) }
    ensures parent_knows { IfOk result (λ forked. HasLearned fork.future counted.knows forked.parent.knows) }
{
    let ForkView { future, view } = fork;
    let child = new_parts(alloc, task, actor, &future, view)?;
    whole(alloc, future, child, counted)
}

/// The child under its future, which the parent then knows.
fn whole(alloc: Global, future: Name, child: Parts, counted: Parts) -> Result<Forked, AllocError>
    ensures future { IfOk result (λ forked. forked.future ≡ future) }
    ensures child { IfOk result (λ forked. forked.child ≡ child) }
    ensures parent { IfOk result (λ forked. forked.parent.log ≡ counted.log) }
    ensures parent_knows { IfOk result (λ forked. HasLearned future counted.knows forked.parent.knows) }
{
    let mut parent = counted;
    parent.knows.learn(alloc, &future)?;
    Ok(Forked {
        future,
        child,
        parent,
    })
}

/// What a child has done that has done nothing, and what it knows.
fn new_parts(
    alloc: Global,
    task: &Task,
    actor: &Option<Name>,
    future: &Name,
    view: View,
) -> Result<Parts, AllocError>
    requires { task.now.log.depth < 16 }
    ensures log { IfOk result (λ parts. parts.log ≡ new_task future.now view (task.now.log.depth + 1) actor.now) }
    ensures knows { IfOk result (λ parts. parts.knows ≡ record { keys = task.now.knows.keys; since = [] }) }
{
    let knows = task.knows.for_child(alloc)?;
    let log = new_log(alloc, actor, future, view, task.log.depth() + 1)?;
    Ok(Parts { log, knows })
}

/// The log of a task of that future that has done nothing.
pub(crate) fn new_log(
    alloc: Global,
    actor: &Option<Name>,
    future: &Name,
    view: View,
    depth: u32,
) -> Result<TaskLog, AllocError>
    ensures { IfOk result (λ log. log ≡ new_task future.now view depth actor.now) }
{
    let actor = copy_actor(alloc, actor)?;
    let name = future.copy(alloc)?;
    Ok(TaskLog::new(alloc, name, view, depth, actor))
}

/// The same actor, or none.
pub(crate) fn copy_actor(alloc: Global, actor: &Option<Name>) -> Result<Option<Name>, AllocError>
    ensures { IfOk result (λ copied. copied ≡ actor.now) }
{
    match actor {
        Some(name) => Ok(Some(name.copy(alloc)?)),
        None => Ok(None),
    }
}

/// The child begins, and the task of that name goes on with its future.
fn take(
    tasks: &mut BTreeMap<Name, Task>,
    alloc: Global,
    name: &Name,
    moved: Machine,
    begun: Begun,
) -> Result<Stepped, AllocError>
    requires asking { IsAsking moved }
    requires told { begun.told ≡ begun.forked.future }
    ensures put { IfOk result (IsPut name.now moved begun.forked begun.machine tasks.old.entries tasks.new.entries) }
    ensures same { OnErr result (tasks.new.entries ≡ tasks.old.entries) }
{
    match give_future(alloc, moved, &begun.told) {
        Ok(machine) => put_begun(tasks, name, begun, machine),
        Err(error) => {
            begun_goes(begun);
            Err(error)
        }
    }
}

/// The machine goes on with the future.
fn give_future(alloc: Global, moved: Machine, future: &Name) -> Result<Machine, AllocError>
    requires { IsAsking moved }
    ensures { IfOk result (IsGiven moved (answer_of.Value (value_of.Future future.now))) }
{
    let future = future.copy(alloc)?;
    give(alloc, moved, Answer::Value(Value::Future(future)))
}

/// The child is there, and its parent goes on with that machine, which was given the future.
fn put_begun(
    tasks: &mut BTreeMap<Name, Task>,
    name: &Name,
    begun: Begun,
    machine: Machine,
) -> Result<Stepped, AllocError>
    ensures put { OnOk result (IsChanged name.now (with_named tasks.old.entries begun.forked.future (record { log = begun.forked.child.log; knows = begun.forked.child.knows; stage = stage_of.Going begun.machine })) tasks.new.entries
        (HasParts begun.forked.parent (stage_of.Going machine))) }
    ensures fresh { OnOk result (named begun.forked.future tasks.old.entries ≡ None) }
    ensures stepped { IfOk result (λ found. found ≡ stepped_as.Forked begun.told) }
    ensures same { OnErr result (tasks.new.entries ≡ tasks.old.entries) }
{
    let Begun {
        forked,
        machine: child,
        told,
    } = begun;
    let Forked {
        future,
        child: parts,
        parent,
    } = forked;
    match put_new(tasks, future, begins(parts, child)) {
        Ok(()) => {
            set(tasks, name, parent, Stage::Going(machine));
            Ok(Stepped::Forked(told))
        }
        Err(error) => {
            parts_go(parent);
            machine_goes(machine);
            Err(error)
        }
    }
}

/// Puts a task whose name is not taken. Where it is, which no run comes to, that is answered as want of memory, and the tasks
/// stay.
fn put_new(tasks: &mut BTreeMap<Name, Task>, name: Name, task: Task) -> Result<(), AllocError>
    ensures fresh { OnOk result (named name tasks.old.entries ≡ None) }
    ensures put { OnOk result (tasks.new.entries ≡ with_named tasks.old.entries name task) }
    ensures same { OnErr result (tasks.new.entries ≡ tasks.old.entries) }
{
    if find(tasks, &name).is_some() {
        return Err(AllocError);
    }
    put(tasks, name, task)
}

/// Drops what a task has done and knows.
fn parts_go(_parts: Parts) {}

/// Drops a child that begins.
fn begun_goes(_begun: Begun) {}

/// The task goes on with that machine.
pub(crate) fn begins(parts: Parts, machine: Machine) -> Task
    ensures { result ≡ record { log = parts.log; knows = parts.knows; stage = stage_of.Going machine } }
{
    Task {
        log: parts.log,
        knows: parts.knows,
        stage: Stage::Going(machine),
    }
}
