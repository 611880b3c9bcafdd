ghost use Rattle.std.specs.Prelude.{◌≡◌, ◌∷◌, [], true, IfNone, IfOk, IfSome, OnErr, OnOk, Some};
ghost use Rattle.std.specs.Option.{option_copied};
ghost use Rattle.eval_step.specs.Evaluation.{IsAsking};
ghost use Rattle.serial_model.specs.Carried.{IsInner};
ghost use Rattle.task_fork_join.specs.Attempt.{end_at, names_in, next_made_at, machine_of, unless_escaping, IsKept, IsNew, IsRootAlone, IsRootLog};
ghost use Rattle.task_fork_join.specs.Closing.{IsClose};
ghost use Rattle.task_fork_join.specs.Following.{names_after};
ghost use Rattle.task_fork_join.specs.Forking.{CameFork};
ghost use Rattle.task_fork_join.specs.Joining.{IsEnded, IsJoin};
ghost use Rattle.task_fork_join.specs.Stepping.{IsActed};
ghost use Rattle.task_fork_join.specs.Step.{Asks, AsksInside, HaltsAt, IsStep, Stays};
ghost use Rattle.txn_snapshot.specs.SnapshotAnswer.{snapshot_of, IsAnswerable};
ghost use Rattle.value_core.specs.Named.{named};

use crate::answering::answer;
use crate::closing::close;
use crate::copies::copy_tasks;
use crate::following::next_task;
use crate::forking::{begins, copy_actor, fork, new_log};
use crate::joining::join;
use crate::known::Known;
use crate::task::{Parts, Stage, Task};
use crate::task_names::TaskNames;
use crate::tasks::{end, task_of};
use crate::{Stepped, TaskEnd};
use core_syntax::NodeId;
use eval_step::Machine;
use ref_store::Store;
use serial_model::{Halt, Request};
use std::alloc::{AllocError, Global};
use std::collections::BTreeMap;
use std::marker::Model;
use txn_snapshot::{Reads, TaskLog, View};
use value_core::name_map::{find, put};
use value_core::{Code, Name, Place, Value, Values};

/// The tasks of an attempt at a transaction: its root and those that were forked in it.
pub struct Tree {
    root: Name,
    tasks: BTreeMap<Name, Task>,
    reads: Reads,
    actor: Option<Name>,
    snapshot: u64,
    fuel: u64,
    // How a root ends whose value holds a future.
    escape: TaskEnd,
}

impl Drop for Tree {
    fn drop(self) {
        let Tree {
            root: _root,
            tasks: _tasks,
            reads: _reads,
            actor: _actor,
            snapshot: _,
            fuel: _,
            escape: _escape,
        } = self;
    }
}

impl Model for Tree {
    ghost use Rattle.task_fork_join.specs.Attempt.{attempt_code, AreTasks, Attempt};

    ghost Value = { Attempt };

    ghost coded = { attempt_code };

    ghost view = { λ t. record {
      root = t.root;
      tasks = t.tasks.entries;
      reads = t.reads.items;
      actor = t.actor;
      snapshot = t.snapshot;
      fuel = t.fuel;
      escape = t.escape;
    } };

    ghost invariant = { λ t. AreTasks t.root t.tasks.entries };
}

impl Tree {
    /// The root alone, which the machine evaluates, in a turn of that actor or in none, on that snapshot. Each task that is
    /// forked gets that fuel. The dosync stands at that place, where a root faults whose value holds a future.
    pub fn new(
        alloc: Global,
        root: Name,
        machine: Machine,
        actor: Option<Name>,
        snapshot: u64,
        fuel: u64,
        at: Place,
    ) -> Result<Tree, AllocError>
        requires inside { machine.inside ≡ true }
        requires fuel { machine.fuel ≡ fuel }
        requires none { machine.answers ≡ [] }
        ensures { IfOk result (IsNew root machine actor snapshot fuel at) }
    {
        let tasks = root_alone(alloc, &root, &actor, machine)?;
        Ok(Tree {
            root,
            tasks,
            reads: Reads::new(alloc),
            actor,
            snapshot,
            fuel,
            escape: TaskEnd::Fault(Code::FutureEscapes, at),
        })
    }

    /// An equal attempt.
    pub fn copy(&self, alloc: Global) -> Result<Tree, AllocError>
        ensures { IfOk result (λ copied. copied ≡ self.now) }
    {
        let root = self.root.copy(alloc)?;
        let reads = self.reads.copy(alloc)?;
        let actor = copy_actor(alloc, &self.actor)?;
        let escape = self.escape.copy(alloc)?;
        Ok(Tree {
            root,
            tasks: copy_tasks(alloc, &self.tasks)?,
            reads,
            actor,
            snapshot: self.snapshot,
            fuel: self.fuel,
            escape,
        })
    }

    /// The machine of the task of that name. None exactly where the tree has no unfinished task of that name. It takes no
    /// memory.
    pub fn machine(&self, task: &Name) -> Option<&Machine>
        ensures { option_copied result ≡ machine_of self.now task.now }
    {
        find(&self.tasks, task)?.stage.machine()
    }

    /// A step of the task, whose kept machine was moved to that halt, as a run of a copy of it does. A request is answered on the store at the snapshot, or
    /// by the value of the plain task that is asked for, where it has one. `WaitJoin` comes exactly where the future that is
    /// asked for, or the first child that is still to be joined at the task's value, has not finished; `NotInSnapshot`
    /// exactly where a deref or a ref-set names a ref that is nowhere; with both the tree keeps the machine as moved, and else
    /// stays, but that a task at its value has joined the children before that one. For want of memory the tree stays.
    pub fn step(
        &mut self,
        alloc: Global,
        task: &Name,
        moved: Machine,
        halt: Halt,
        store: &Store,
        outer: Option<&Value>,
    ) -> Result<Stepped, AllocError>
        requires kept { IsKept task.now moved self.old.tasks }
        requires halts { HaltsAt moved halt }
        ensures step { IfOk result (IsStep (snapshot_of store.now.versions self.old.snapshot) task.now moved (option_copied outer.entry) halt self.old self.new) }
        ensures same { OnErr result (self.new ≡ self.old) }
    {
        self.asks_inside(task, &moved, &halt);
        match halt {
            Halt::Ask(request, _) => self.ask(alloc, task, moved, request, store, outer),
            Halt::Value(value) => self.close(alloc, task, moved, value),
            Halt::Fault(code, at) => Ok(self.end(task, moved, TaskEnd::Fault(code, at))),
            Halt::Spent => Ok(self.end(task, moved, TaskEnd::Spent)),
        }
    }

    /// Says of a request at which a task stands, and only says it, that it is none for a transaction: the task is inside one.
    fn asks_inside(&self, task: &Name, moved: &Machine, halt: &Halt)
        requires kept { IsKept task.now moved.now self.now.tasks }
        requires halts { HaltsAt moved.now halt.now }
        ensures { AsksInside moved.now halt.now }
    {
        let _root = &self.root;
    }

    /// The task asks for that.
    fn ask(
        &mut self,
        alloc: Global,
        task: &Name,
        moved: Machine,
        request: Request,
        store: &Store,
        outer: Option<&Value>,
    ) -> Result<Stepped, AllocError>
        requires kept { IsKept task.now moved self.old.tasks }
        requires asking { IsAsking moved }
        requires inner { IsInner request }
        ensures asks { IfOk result (Asks (snapshot_of store.now.versions self.old.snapshot) task.now moved (option_copied outer.entry) request self.old self.new) }
        ensures stays { Stays self.old self.new }
        ensures same { OnErr result (self.new ≡ self.old) }
    {
        match request {
            Request::Fork(body, values) => self.fork(alloc, task, moved, body, values),
            Request::Join(future) => self.join(alloc, task, moved, &future, outer),
            other => self.act(alloc, task, moved, &other, store),
        }
    }

    /// The task is answered by its log, or waits for a ref.
    fn act(
        &mut self,
        alloc: Global,
        task: &Name,
        moved: Machine,
        request: &Request,
        store: &Store,
    ) -> Result<Stepped, AllocError>
        requires kept { IsKept task.now moved self.old.tasks }
        requires asking { IsAsking moved }
        requires answerable { IsAnswerable request.now }
        ensures acted { IfOk result (IsActed (snapshot_of store.now.versions self.old.snapshot) task.now moved request.now self.old.tasks self.old.reads self.new.tasks self.new.reads) }
        ensures others { self.new ≡ record self.old { tasks = self.new.tasks; reads = self.new.reads } }
        ensures same { OnErr result (self.new ≡ self.old) }
    {
        let reads = &mut self.reads;
        answer(
            &mut self.tasks,
            reads,
            alloc,
            task,
            moved,
            request,
            store,
            self.snapshot,
        )
    }

    /// The task forks.
    fn fork(
        &mut self,
        alloc: Global,
        task: &Name,
        moved: Machine,
        body: NodeId,
        values: Values,
    ) -> Result<Stepped, AllocError>
        requires kept { IsKept task.now moved self.old.tasks }
        requires asking { IsAsking moved }
        ensures forked { IfOk result (CameFork task.now moved self.old.actor self.old.fuel body values self.old.tasks self.new.tasks) }
        ensures others { self.new ≡ record self.old { tasks = self.new.tasks } }
        ensures same { OnErr result (self.new ≡ self.old) }
    {
        let actor = &self.actor;
        fork(
            &mut self.tasks,
            alloc,
            actor,
            self.fuel,
            task,
            moved,
            body,
            values,
        )
    }

    /// The task joins.
    fn join(
        &mut self,
        alloc: Global,
        task: &Name,
        moved: Machine,
        future: &Name,
        outer: Option<&Value>,
    ) -> Result<Stepped, AllocError>
        requires kept { IsKept task.now moved self.old.tasks }
        requires asking { IsAsking moved }
        ensures joined { IfOk result (IsJoin task.now moved future.now (option_copied outer.entry) self.old.tasks self.new.tasks) }
        ensures others { self.new ≡ record self.old { tasks = self.new.tasks } }
        ensures same { OnErr result (self.new ≡ self.old) }
    {
        join(&mut self.tasks, alloc, task, moved, future, outer)
    }

    /// The task is at its value.
    fn close(
        &mut self,
        alloc: Global,
        task: &Name,
        moved: Machine,
        value: Value,
    ) -> Result<Stepped, AllocError>
        requires kept { IsKept task.now moved self.old.tasks }
        ensures closed { IfOk result (IsClose task.now moved value self.old.tasks self.new.tasks) }
        ensures others { self.new ≡ record self.old { tasks = self.new.tasks } }
        ensures same { OnErr result (self.new ≡ self.old) }
    {
        close(&mut self.tasks, alloc, task, moved, value)
    }

    /// The task ends so.
    fn end(&mut self, task: &Name, moved: Machine, ended: TaskEnd) -> Stepped
        requires kept { IsKept task.now moved self.old.tasks }
        ensures ended { IsEnded task.now ended self.old.tasks self.new.tasks result }
        ensures others { self.new ≡ record self.old { tasks = self.new.tasks } }
    {
        end(&mut self.tasks, task, moved, ended)
    }

    /// How the root ended: at its value, a fault or its spent budget, or where its value holds a future at that fault. None
    /// exactly where it has not finished. It takes no memory.
    pub fn outcome(&self) -> Option<&TaskEnd>
        ensures { option_copied result ≡ end_at self.now }
    {
        match &self.root_task().stage {
            Stage::Going(_) => None,
            Stage::Closing(_) => None,
            Stage::Ended(ended) => Some(self.unless_escaping(ended)),
        }
    }

    /// The end, or the fault where it is a value that holds a future.
    fn unless_escaping<'a>(&'a self, ended: &'a TaskEnd) -> &'a TaskEnd
        ensures { result.now ≡ unless_escaping self.now.escape ended.now }
    {
        match ended {
            TaskEnd::Value(value) => {
                if value.holds_future() {
                    &self.escape
                } else {
                    ended
                }
            }
            TaskEnd::Fault(_, _) => ended,
            TaskEnd::Spent => ended,
        }
    }

    /// The number of entries at the snapshot. It takes no memory.
    pub fn snapshot(&self) -> u64
        ensures { result ≡ self.now.snapshot }
    {
        self.snapshot
    }

    /// The name of the next thing that the task makes. None exactly where the tree has no task of that name.
    pub fn next_made(&self, alloc: Global, task: &Name) -> Result<Option<Name>, AllocError>
        ensures { IfOk result (λ name. name ≡ next_made_at self.now task.now) }
    {
        match find(&self.tasks, task) {
            Some(task) => Ok(Some(task.log.made_at(alloc, task.log.made())?)),
            None => Ok(None),
        }
    }

    /// Gives up the attempt for the names of its tasks. It takes no memory.
    pub fn into_names(self) -> TaskNames
        ensures { result ≡ names_in self.tasks }
    {
        let (names, _reads) = self.into_parts();
        names
    }

    /// Gives up the attempt for the names of its tasks, and the refs that they read from the store. It takes no memory.
    pub fn into_parts(self) -> (TaskNames, Reads)
        ensures names { result.0 ≡ names_in self.tasks }
        ensures reads { result.1.items ≡ self.reads }
    {
        let Tree {
            root: _root,
            tasks,
            reads,
            actor: _actor,
            snapshot: _,
            fuel: _,
            escape: _escape,
        } = self;
        (TaskNames { tasks }, reads)
    }

    /// The root's task.
    fn root_task(&self) -> &Task
        ensures { named self.now.root self.now.tasks ≡ Some result.now }
    {
        task_of(&self.tasks, &self.root)
    }

    /// The refs that the tasks read from the store, in after-order. It takes no memory.
    pub fn reads(&self) -> &Reads
        ensures { result.now.items ≡ self.now.reads }
    {
        &self.reads
    }

    /// What the root has done. It takes no memory.
    pub fn root(&self) -> &TaskLog
        ensures { IsRootLog self.now result.now }
    {
        &self.root_task().log
    }

    /// The name of the root. It takes no memory.
    pub fn root_name(&self) -> &Name
        ensures { result.now ≡ self.now.root }
    {
        &self.root
    }

    /// The name of the first task that comes after that name in after-order, or of all where none is given. None exactly where
    /// none is left. It takes no memory.
    pub fn next_task(&self, after: Option<&Name>) -> Option<&Name>
        ensures some { IfSome (option_copied result) (λ name. names_after (option_copied after.entry) self.now.tasks ≡ name ∷ names_after (Some name) self.now.tasks) }
        ensures none { IfNone (option_copied result) (names_after (option_copied after.entry) self.now.tasks ≡ []) }
    {
        next_task(&self.tasks, after)
    }
}

/// The root's task alone, which has done nothing.
fn root_alone(
    alloc: Global,
    root: &Name,
    actor: &Option<Name>,
    machine: Machine,
) -> Result<BTreeMap<Name, Task>, AllocError>
    ensures { IfOk result (λ tasks. IsRootAlone root.now actor.now machine tasks.entries) }
{
    let log = new_log(alloc, actor, root, View::new(alloc), 0)?;
    let knows = Known::new(alloc);
    let name = root.copy(alloc)?;
    one_task(alloc, name, begins(Parts { log, knows }, machine))
}

/// That task alone.
fn one_task(alloc: Global, name: Name, task: Task) -> Result<BTreeMap<Name, Task>, AllocError>
    ensures { IfOk result (λ tasks. tasks.entries ≡ (name, task) ∷ []) }
{
    let mut tasks = BTreeMap::new(alloc);
    put(&mut tasks, name, task)?;
    Ok(tasks)
}
