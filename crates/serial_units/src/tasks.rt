ghost use Rattle.std.specs.Prelude.{◌≡◌, ◌||◌, ℕ, suc, true, ◌<◌, [], List, IfOk, Some, None, length, unwrap_or};
ghost use Rattle.std.specs.Option.{option_copied};
ghost use Rattle.value_core.specs.Named.{Name as Naming, made_by, named, same_name, with_named};
ghost use Rattle.serial_model.specs.declared.answer.Answer.{Answer as Answering};
ghost use Rattle.serial_model.specs.Task.{Call, Here, Known, asks, closes, forks, looks_up, joins_found, result_of, read_in, task, task_step, turns as turns_of};
ghost use Rattle.serial_model.specs.Log.{new_log, with_made};
ghost use Rattle.serial_model.specs.declared.answer.Answer.TheVariants as answer_of;
ghost use Rattle.value_core.specs.declared.value.Value.{Value as Datum};
ghost use Rattle.value_core.specs.declared.value.Value.TheVariants as value_of;
ghost use Rattle.serial_units.specs.declared.task.TaskEnd.TheVariants as end_of;
ghost use Rattle.eval_step.specs.Evaluation.{IsAsk, IsAsking, IsSame, IsSameTask};
ghost use Rattle.serial_model.specs.Carried.{IsThere};
ghost use Rattle.serial_model.specs.Eval.{next};
ghost use Rattle.serial_units.specs.declared.tasks.Reply.TheVariants as reply;
ghost use Rattle.value_core.specs.NameSet.{has_name};
ghost use Rattle.serial_units.specs.Tasks.{around_of, view_of, knows_below, end_met, with_top, IsAt, IsClosed, IsFinal, IsResult, IsJoined, IsMet, IsTakenIn, IsMoved, IsReply, Extends, IsMachine, Knows, AddsBelow, AddsMade, IsFree, IsUnmade, KeepsMade};
ghost use Rattle.serial_model.specs.Standing.{call_below, here_of};
ghost use Rattle.serial_units.specs.Asking.{IsThereAt};
ghost use Rattle.serial_units.specs.Own.{IsOwn};

use crate::around::Around;
use crate::own::act;
use crate::task::{Done, Task, TaskEnd};
use core_syntax::NodeId;
use eval_step::Machine;
use serial_model::{Answer, Halt, Request};
use std::alloc::{AllocError, Global};
use std::collections::BTreeMap;
use std::mem;
use value_core::name_map::{find, put};
use value_core::name_set::{add, add_all};
use value_core::{Code, Name, Value, Values};

/// The tasks of a transaction: the one that runs, those below it, each of which waits for the child that it forked, and
/// those that ended.
#[derive(Drop)]
pub(crate) struct Tasks {
    pub(crate) top: Task,
    pub(crate) below: Vec<Task>,
    pub(crate) results: BTreeMap<Name, Done>,
}

/// What became of a join: the future is none of a known task; or the task's value, after which it is joined; or its task
/// ended otherwise.
#[derive(Drop)]
pub(crate) enum Met {
    Unknown,
    Value(Value),
    Ended(TaskEnd),
}

/// The reply to a request: the answer with which the task goes on, or its end.
#[derive(Drop)]
pub(crate) enum Reply {
    Answer(Answer),
    Ended(TaskEnd),
}

impl Tasks {
    /// The tasks of a transaction at its start: its root alone.
    pub(crate) fn new(alloc: Global, name: Name) -> Self
        ensures below { result.below.items ≡ [] }
        ensures results { result.results.entries ≡ [] }
        ensures log { result.top.log ≡ new_log name }
        ensures known { result.top.known.keys ≡ [] }
    {
        Tasks {
            top: Task::new(alloc, name),
            below: Vec::new(alloc),
            results: BTreeMap::new(alloc),
        }
    }

    /// The running task has ended so.
    pub(crate) fn ended(self, end: TaskEnd) -> Done
        ensures end { result.end ≡ end }
        ensures task { result.task ≡ self.top }
    {
        Done {
            end,
            task: self.top,
        }
    }

    /// The reply to the request of the running task.
    #[cycle(task)]
    fn reply(
        &mut self,
        alloc: Global,
        around: &Around,
        levels: u32,
        request: Request,
    ) -> Result<Reply, AllocError>
        requires there { IsThere (around_of around.now).program true request }
        requires unmade { IsUnmade self.old.results.entries self.old.top.log }
        ensures below { IfOk result (λ _. self.new.below.items ≡ self.old.below.items) }
        ensures results { IfOk result (λ _. Extends self.old.results.entries self.new.results.entries) }
        ensures made { IfOk result (λ _. AddsMade self.old.results.entries self.old.top.log self.new.results.entries self.new.top.log) }
        ensures reply { IfOk result (λ found. (answers : List Answering) (known : Known) → Knows self.old.results.entries self.old.below.items self.old.top.known known
            → IsReply self.new.results.entries self.new.below.items self.new.top answers found
            (asks (around_of around.now) levels (call_below (around_of around.now) levels) (view_of self.old.below.items) (here_of answers self.old.top.log known) request)) }
    {
        match request {
            Request::Deref(name) => self.read(alloc, around, &name),
            Request::Join(future) => self.join(alloc, around, &future),
            Request::Fork(body, values) => self.fork(alloc, around, levels, body, values),
            Request::Dosync(_, _) => Ok(Reply::Ended(TaskEnd::Blocked)),
            own => self.act(alloc, around, own),
        }
    }

    /// The reply to a request that rests on nothing but the task.
    fn act(&mut self, alloc: Global, around: &Around, request: Request) -> Result<Reply, AllocError>
        requires { IsOwn request }
        ensures below { self.new.below.items ≡ self.old.below.items }
        ensures results { self.new.results.entries ≡ self.old.results.entries }
        ensures made { IfOk result (λ _. AddsMade self.old.results.entries self.old.top.log self.new.results.entries self.new.top.log) }
        ensures reply { IfOk result (λ found. (levels : ℕ) (call : Call) (answers : List Answering) (known : Known) → Knows self.old.results.entries self.old.below.items self.old.top.known known
            → IsReply self.new.results.entries self.new.below.items self.new.top answers found
            (asks (around_of around.now) levels call (view_of self.old.below.items) (here_of answers self.old.top.log known) request)) }
    {
        let given = act(alloc, &mut self.top.log, around.actor, request)?;
        Ok(Reply::Answer(given))
    }

    /// A ref is read in the own writes, then in the view, then in the store.
    fn read(&mut self, alloc: Global, around: &Around, name: &Name) -> Result<Reply, AllocError>
        ensures below { self.new.below.items ≡ self.old.below.items }
        ensures results { self.new.results.entries ≡ self.old.results.entries }
        ensures made { IfOk result (λ _. KeepsMade self.old.top.log self.new.top.log) }
        ensures reply { IfOk result (λ found. (answers : List Answering) (known : Known) → Knows self.old.results.entries self.old.below.items self.old.top.known known
            → IsReply self.new.results.entries self.new.below.items self.new.top answers found
            (looks_up (here_of answers self.old.top.log known) (read_in (around_of around.now) (view_of self.old.below.items) self.old.top.log name.now))) }
    {
        match self.seen(around, name) {
            Some(value) => Ok(Reply::Answer(Answer::Value(value.copy(alloc)?))),
            None => Ok(Reply::Ended(TaskEnd::Blocked)),
        }
    }

    /// The value of the ref for the running task.
    fn seen<'a>(&'a self, around: &'a Around, name: &Name) -> Option<&'a Value>
        ensures { option_copied result ≡ read_in (around_of around.now) (view_of self.now.below.items) self.now.top.log name.now }
    {
        if let Some(value) = self.top.log.written(name) {
            return Some(value);
        }
        match viewed(&self.below, name) {
            Some(value) => Some(value),
            None => around.stored(name),
        }
    }

    /// A known task is joined; else a finished plain unit's value is the answer.
    fn join(&mut self, alloc: Global, around: &Around, future: &Name) -> Result<Reply, AllocError>
        ensures below { self.new.below.items ≡ self.old.below.items }
        ensures results { self.new.results.entries ≡ self.old.results.entries }
        ensures made { IfOk result (λ _. KeepsMade self.old.top.log self.new.top.log) }
        ensures reply { IfOk result (λ found. (answers : List Answering) (known : Known) → Knows self.old.results.entries self.old.below.items self.old.top.known known
            → IsReply self.new.results.entries self.new.below.items self.new.top answers found
            (joins_found (around_of around.now) (here_of answers self.old.top.log known) future.now (result_of future.now known))) }
    {
        match self.meet(alloc, future)? {
            Met::Value(value) => Ok(Reply::Answer(Answer::Value(value))),
            Met::Ended(end) => Ok(Reply::Ended(end)),
            Met::Unknown => match around.finished(future) {
                Some(value) => Ok(Reply::Answer(Answer::Value(value.copy(alloc)?))),
                None => Ok(Reply::Ended(TaskEnd::Blocked)),
            },
        }
    }

    /// A fork runs its child at once, under a name that has no result yet; at the last level it fails.
    #[cycle(task)]
    fn fork(
        &mut self,
        alloc: Global,
        around: &Around,
        levels: u32,
        body: NodeId,
        values: Values,
    ) -> Result<Reply, AllocError>
        requires body { body.index < length (around_of around.now).program.nodes }
        requires unmade { IsUnmade self.old.results.entries self.old.top.log }
        ensures below { IfOk result (λ _. self.new.below.items ≡ self.old.below.items) }
        ensures results { IfOk result (λ _. Extends self.old.results.entries self.new.results.entries) }
        ensures made { IfOk result (λ _. AddsMade self.old.results.entries self.old.top.log self.new.results.entries self.new.top.log) }
        ensures reply { IfOk result (λ found. (answers : List Answering) (known : Known) → Knows self.old.results.entries self.old.below.items self.old.top.known known
            → IsReply self.new.results.entries self.new.below.items self.new.top answers found
            (forks levels (call_below (around_of around.now) levels) (view_of self.old.below.items) (here_of answers self.old.top.log known) body values)) }
    {
        if levels == 0 {
            return Ok(Reply::Answer(Answer::Fault(Code::ForkTooDeep)));
        }
        let future = self.top.log.next_made(alloc)?;
        let done = self.run(alloc, around, levels - 1, &future, body, values)?;
        let answer = self.keep(alloc, future, done)?;
        Ok(Reply::Answer(answer))
    }

    /// Keeps the result of a child that the running task forked.
    fn keep(&mut self, alloc: Global, future: Name, done: Done) -> Result<Answer, AllocError>
        requires { named future self.old.results.entries ≡ None }
        ensures below { self.new.below.items ≡ self.old.below.items }
        ensures results { IfOk result (λ _. Extends self.old.results.entries self.new.results.entries) }
        ensures kept { IfOk result (λ _. named future self.new.results.entries ≡ Some done) }
        ensures put { IfOk result (λ _. self.new.results.entries ≡ with_named self.old.results.entries future done) }
        ensures known { IfOk result (λ _. (g : Naming) → has_name self.new.top.known g ≡ (has_name self.old.top.known g || same_name g future)) }
        ensures log { IfOk result (λ _. self.new.top.log ≡ with_made self.old.top.log) }
        ensures answer { IfOk result (λ given. given ≡ answer_of.Value (value_of.Future future)) }
    {
        keep_result(alloc, &mut self.results, &future, done)?;
        come_to_know(alloc, &mut self.top, &future)?;
        Ok(Answer::Value(Value::Future(future)))
    }

    /// Runs a child of the running task to its end.
    #[cycle(task)]
    fn run(
        &mut self,
        alloc: Global,
        around: &Around,
        levels: u32,
        name: &Name,
        body: NodeId,
        values: Values,
    ) -> Result<Done, AllocError>
        requires body { body.index < length (around_of around.now).program.nodes }
        requires free { IsFree self.old.results.entries name.now }
        ensures top { IfOk result (λ _. self.new.top ≡ self.old.top) }
        ensures below { IfOk result (λ _. self.new.below.items ≡ self.old.below.items) }
        ensures results { IfOk result (λ _. Extends self.old.results.entries self.new.results.entries) }
        ensures below_name { IfOk result (λ _. AddsBelow name.now self.old.results.entries self.new.results.entries) }
        ensures done { IfOk result (λ done. (known : Known) → Knows self.old.results.entries self.old.below.items self.old.top.known known
            → IsResult self.new.results.entries (with_top self.old.below.items self.old.top) done.task done.end
            (task (around_of around.now) levels name.now body values (view_of (with_top self.old.below.items self.old.top)) known)) }
    {
        let mut machine = Machine::start(alloc, body, values, true, around.fuel)?;
        let done = self.run_above(alloc, around, levels, name, &mut machine);
        drop(machine);
        done
    }

    /// Runs a child of that name, which the machine evaluates, above the running task.
    #[cycle(task)]
    fn run_above(
        &mut self,
        alloc: Global,
        around: &Around,
        levels: u32,
        name: &Name,
        machine: &mut Machine,
    ) -> Result<Done, AllocError>
        requires machine { IsMachine (around_of around.now) machine.old }
        requires free { IsFree self.old.results.entries name.now }
        ensures top { IfOk result (λ _. self.new.top ≡ self.old.top) }
        ensures below { IfOk result (λ _. self.new.below.items ≡ self.old.below.items) }
        ensures results { IfOk result (λ _. Extends self.old.results.entries self.new.results.entries) }
        ensures below_name { IfOk result (λ _. AddsBelow name.now self.old.results.entries self.new.results.entries) }
        ensures done { IfOk result (λ done. (known : Known) → Knows self.old.results.entries self.old.below.items self.old.top.known known
            → IsResult self.new.results.entries (with_top self.old.below.items self.old.top) done.task done.end
            (turns_of (around_of around.now) levels (call_below (around_of around.now) levels) machine.old.body machine.old.values (view_of (with_top self.old.below.items self.old.top))
            (suc (around_of around.now).fuel) (here_of machine.old.answers (new_log name.now) known))) }
    {
        self.begin(alloc, name)?;
        match self.turns(alloc, around, levels, machine) {
            Ok(end) => self.leave(end),
            Err(error) => Err(error),
        }
    }

    /// A child begins above the running task.
    fn begin(&mut self, alloc: Global, name: &Name) -> Result<(), AllocError>
        ensures results { self.new.results.entries ≡ self.old.results.entries }
        ensures below { IfOk result (λ _. self.new.below.items ≡ with_top self.old.below.items self.old.top) }
        ensures log { IfOk result (λ _. self.new.top.log ≡ new_log name.now) }
        ensures known { IfOk result (λ _. self.new.top.known.keys ≡ []) }
    {
        let child = Task::new(alloc, name.copy(alloc)?);
        let parent = mem::replace(&mut self.top, child);
        match self.below.push(parent) {
            Ok(()) => Ok(()),
            Err(_) => Err(AllocError),
        }
    }

    /// The running task has ended so, and the one below it runs again.
    fn leave(&mut self, end: TaskEnd) -> Result<Done, AllocError>
        ensures results { self.new.results.entries ≡ self.old.results.entries }
        ensures done { IfOk result (λ done. (done.end ≡ end) × (done.task ≡ self.old.top)) }
        ensures below { IfOk result (λ _. self.old.below.items ≡ with_top self.new.below.items self.new.top) }
    {
        match self.below.pop() {
            Some(parent) => Ok(Done {
                end,
                task: mem::replace(&mut self.top, parent),
            }),
            None => Err(AllocError),
        }
    }

    /// The running task goes on to its end. Each request costs a node, so it has at most one more than its fuel.
    #[cycle(task)]
    pub(crate) fn turns(
        &mut self,
        alloc: Global,
        around: &Around,
        levels: u32,
        machine: &mut Machine,
    ) -> Result<TaskEnd, AllocError>
        requires machine { IsMachine (around_of around.now) machine.old }
        requires unmade { IsUnmade self.old.results.entries self.old.top.log }
        ensures below { IfOk result (λ _. self.new.below.items ≡ self.old.below.items) }
        ensures results { IfOk result (λ _. Extends self.old.results.entries self.new.results.entries) }
        ensures made { IfOk result (λ _. AddsMade self.old.results.entries self.old.top.log self.new.results.entries self.new.top.log) }
        ensures ended { IfOk result (λ end. (known : Known) → Knows self.old.results.entries self.old.below.items self.old.top.known known
            → IsResult self.new.results.entries self.new.below.items self.new.top end
            (turns_of (around_of around.now) levels (call_below (around_of around.now) levels) machine.old.body machine.old.values (view_of self.old.below.items)
            (suc (around_of around.now).fuel) (here_of machine.old.answers self.old.top.log known))) }
    {
        for _ in 0..around.fuel {
            match self.turn(alloc, around, levels, machine)? {
                Some(end) => return Ok(end),
                None => {}
            }
        }
        match self.turn(alloc, around, levels, machine)? {
            Some(end) => Ok(end),
            None => Ok(TaskEnd::Spent),
        }
    }

    /// The running task's next step: it goes on, or ends.
    #[cycle(task)]
    fn turn(
        &mut self,
        alloc: Global,
        around: &Around,
        levels: u32,
        machine: &mut Machine,
    ) -> Result<Option<TaskEnd>, AllocError>
        requires machine { IsMachine (around_of around.now) machine.old }
        requires unmade { IsUnmade self.old.results.entries self.old.top.log }
        ensures machine { IfOk result (λ _. IsMachine (around_of around.now) machine.new) }
        ensures same { IfOk result (λ _. IsSameTask machine.old machine.new) }
        ensures below { IfOk result (λ _. self.new.below.items ≡ self.old.below.items) }
        ensures results { IfOk result (λ _. Extends self.old.results.entries self.new.results.entries) }
        ensures made { IfOk result (λ _. AddsMade self.old.results.entries self.old.top.log self.new.results.entries self.new.top.log) }
        ensures moved { IfOk result (λ end. (known : Known) → Knows self.old.results.entries self.old.below.items self.old.top.known known
            → IsMoved self.new.results.entries self.new.below.items self.new.top machine.new.answers end
            (task_step (around_of around.now) levels (call_below (around_of around.now) levels) machine.old.body machine.old.values (view_of self.old.below.items)
            (here_of machine.old.answers self.old.top.log known))) }
    {
        match go_on(alloc, around, machine)? {
            Halt::Ask(request, _) => self.answer(alloc, around, levels, machine, request),
            Halt::Value(value) => Ok(Some(self.close(alloc, value)?)),
            Halt::Fault(code, at) => Ok(Some(TaskEnd::Fault(code, at))),
            Halt::Spent => Ok(Some(TaskEnd::Spent)),
        }
    }

    /// Gives the machine the reply to its request.
    #[cycle(task)]
    fn answer(
        &mut self,
        alloc: Global,
        around: &Around,
        levels: u32,
        machine: &mut Machine,
        request: Request,
    ) -> Result<Option<TaskEnd>, AllocError>
        requires there { IsThere (around_of around.now).program true request }
        requires machine { IsMachine (around_of around.now) machine.old }
        requires asking { IsAsking machine.old }
        requires unmade { IsUnmade self.old.results.entries self.old.top.log }
        ensures machine { IfOk result (λ _. IsMachine (around_of around.now) machine.new) }
        ensures same { IfOk result (λ _. IsSameTask machine.old machine.new) }
        ensures below { IfOk result (λ _. self.new.below.items ≡ self.old.below.items) }
        ensures results { IfOk result (λ _. Extends self.old.results.entries self.new.results.entries) }
        ensures made { IfOk result (λ _. AddsMade self.old.results.entries self.old.top.log self.new.results.entries self.new.top.log) }
        ensures moved { IfOk result (λ end. (known : Known) → Knows self.old.results.entries self.old.below.items self.old.top.known known
            → IsMoved self.new.results.entries self.new.below.items self.new.top machine.new.answers end
            (asks (around_of around.now) levels (call_below (around_of around.now) levels) (view_of self.old.below.items) (here_of machine.old.answers self.old.top.log known) request)) }
    {
        match self.reply(alloc, around, levels, request)? {
            Reply::Answer(answer) => {
                machine.answer(alloc, answer)?;
                Ok(None)
            }
            Reply::Ended(end) => Ok(Some(end)),
        }
    }

    /// At its value the running task joins the children that it has not joined, in the order of their forks.
    fn close(&mut self, alloc: Global, value: Value) -> Result<TaskEnd, AllocError>
        ensures below { self.new.below.items ≡ self.old.below.items }
        ensures results { self.new.results.entries ≡ self.old.results.entries }
        ensures made { IfOk result (λ _. KeepsMade self.old.top.log self.new.top.log) }
        ensures closed { IfOk result (λ end. (answers : List Answering) (known : Known) → Knows self.old.results.entries self.old.below.items self.old.top.known known
            → IsFinal self.new.results.entries self.new.below.items self.new.top end (closes value 0 self.old.top.log.made (here_of answers self.old.top.log known))) }
    {
        match self.close_children(alloc)? {
            Some(end) => Ok(end),
            None => Ok(TaskEnd::Value(value)),
        }
    }

    /// Joins the children that the running task has not joined, in the order of their forks, up to one that ended otherwise.
    fn close_children(&mut self, alloc: Global) -> Result<Option<TaskEnd>, AllocError>
        ensures below { self.new.below.items ≡ self.old.below.items }
        ensures results { self.new.results.entries ≡ self.old.results.entries }
        ensures made { IfOk result (λ _. KeepsMade self.old.top.log self.new.top.log) }
        ensures closed { IfOk result (λ end. (v : Datum) (answers : List Answering) (known : Known) → Knows self.old.results.entries self.old.below.items self.old.top.known known
            → IsFinal self.new.results.entries self.new.below.items self.new.top (unwrap_or end (end_of.Value v)) (closes v 0 self.old.top.log.made (here_of answers self.old.top.log known))) }
    {
        for number in 0..self.top.log.made() {
            match self.close_child(alloc, number)? {
                Some(end) => return Ok(Some(end)),
                None => {}
            }
        }
        Ok(None)
    }

    /// At its value the running task joins the child with that number, where it is one that is not joined.
    fn close_child(&mut self, alloc: Global, number: u32) -> Result<Option<TaskEnd>, AllocError>
        ensures below { self.new.below.items ≡ self.old.below.items }
        ensures results { self.new.results.entries ≡ self.old.results.entries }
        ensures made { IfOk result (λ _. KeepsMade self.old.top.log self.new.top.log) }
        ensures closed { IfOk result (λ end. (here : Here) → IsAt self.old.results.entries self.old.below.items self.old.top here
            → IsClosed self.new.results.entries self.new.below.items self.new.top here (made_by self.old.top.log.name number) end) }
    {
        let future = self.top.log.made_at(alloc, number)?;
        if self.top.log.has_joined(&future) {
            return Ok(None);
        }
        Ok(other_end(self.meet(alloc, &future)?))
    }

    /// Whether the running task knows the result.
    fn knows(&self, future: &Name) -> bool
        ensures { result ≡ (has_name self.now.top.known future.now || knows_below self.now.below.items future.now) }
    {
        self.top.known.contains(future) || is_known_below(&self.below, future)
    }

    /// Joins a task whose result is known.
    pub(crate) fn meet(&mut self, alloc: Global, future: &Name) -> Result<Met, AllocError>
        ensures below { self.new.below.items ≡ self.old.below.items }
        ensures results { self.new.results.entries ≡ self.old.results.entries }
        ensures made { IfOk result (λ _. KeepsMade self.old.top.log self.new.top.log) }
        ensures met { IfOk result (λ found. (here : Here) → IsAt self.old.results.entries self.old.below.items self.old.top here
            → IsMet self.new.results.entries self.new.below.items self.new.top here future.now found (result_of future.now here.known)) }
    {
        if !self.knows(future) {
            return Ok(Met::Unknown);
        }
        match find(&self.results, future) {
            Some(done) => join(alloc, &mut self.top, future, done),
            None => Ok(Met::Unknown),
        }
    }
}

/// What the machine of a task does next.
fn go_on(alloc: Global, around: &Around, machine: &mut Machine) -> Result<Halt, AllocError>
    requires { IsMachine (around_of around.now) machine.old }
    ensures halt { IfOk result (λ halt. halt ≡ next (around_of around.now).program machine.old.body machine.old.values true machine.old.answers (around_of around.now).fuel) }
    ensures machine { IsMachine (around_of around.now) machine.new }
    ensures same { IsSame machine.old machine.new }
    ensures asking { IfOk result (λ halt. IsAsk halt → IsAsking machine.new) }
    ensures there { IfOk result (λ halt. IsThereAt (around_of around.now).program true halt) }
{
    let _main = around.program.main();
    machine.run_to_ask(alloc, around.program)
}

/// Keeps what a child ended with under its future.
fn keep_result(
    alloc: Global,
    results: &mut BTreeMap<Name, Done>,
    future: &Name,
    done: Done,
) -> Result<(), AllocError>
    ensures { IfOk result (λ _. results.new.entries ≡ with_named results.old.entries future.now done) }
{
    let name = future.copy(alloc)?;
    put(results, name, done)
}

/// The task knows the result of the child that it forked under that name.
fn come_to_know(alloc: Global, task: &mut Task, future: &Name) -> Result<(), AllocError>
    ensures known { IfOk result (λ _. (g : Naming) → has_name task.new.known g ≡ (has_name task.old.known g || same_name g future.now)) }
    ensures log { IfOk result (λ _. task.new.log ≡ with_made task.old.log) }
{
    add(&mut task.known, future.copy(alloc)?)?;
    task.log.count_made()
}

/// The end that was met, where it is no value.
fn other_end(found: Met) -> Option<TaskEnd>
    ensures { result ≡ end_met found }
{
    match found {
        Met::Ended(end) => Some(end),
        Met::Value(_) => None,
        Met::Unknown => None,
    }
}

/// The value of the ref in the view of a task above these.
fn viewed<'a>(tasks: &'a [Task], name: &Name) -> Option<&'a Value>
    ensures { option_copied result ≡ named name.now (view_of tasks.now) }
{
    match tasks {
        [] => None,
        [rest @ .., last] => match last.log.written(name) {
            Some(value) => Some(value),
            None => viewed(rest, name),
        },
    }
}

/// Whether one of the tasks came to know the result.
fn is_known_below(tasks: &[Task], future: &Name) -> bool
    ensures { result ≡ knows_below tasks.now future.now }
{
    tasks.iter().any(|task| task.known.contains(future))
}

/// Joins the task that ended, where the running one has not joined it yet.
fn join(alloc: Global, task: &mut Task, future: &Name, done: &Done) -> Result<Met, AllocError>
    ensures { IfOk result (λ found. IsJoined task.old task.new future.now done.now found) }
{
    match &done.end {
        TaskEnd::Value(value) => {
            let value = value.copy(alloc)?;
            take_in(alloc, task, future, done)?;
            Ok(Met::Value(value))
        }
        TaskEnd::Fault(code, at) => Ok(Met::Ended(TaskEnd::Fault(*code, *at))),
        TaskEnd::Spent => Ok(Met::Ended(TaskEnd::Spent)),
        TaskEnd::Blocked => Ok(Met::Ended(TaskEnd::Blocked)),
    }
}

/// Merges what the task did that is joined for the first time, and the results that it came to know.
fn take_in(alloc: Global, task: &mut Task, future: &Name, done: &Done) -> Result<(), AllocError>
    ensures { IfOk result (λ _. IsTakenIn task.old task.new future.now done.now) }
{
    if task.log.has_joined(future) {
        return Ok(());
    }
    task.log.merge(alloc, &done.task.log)?;
    add_all(&mut task.known, alloc, &done.task.known)
}
