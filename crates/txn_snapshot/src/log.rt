ghost use Rattle.std.specs.Prelude.{◌≡◌, false, is_some, length, None, Some, IfOk, OnErr, OnOk};
ghost use Rattle.std.specs.Option.{option_copied, option_map, option_or};
ghost use Rattle.serial_model.specs.Ahead.{answer_ahead, of_turn, self_of};
ghost use Rattle.serial_model.specs.declared.answer.Answer.TheVariants as answer;
ghost use Rattle.serial_model.specs.declared.request.Request.TheVariants as requests;
ghost use Rattle.serial_model.specs.Sends.{effects_to};
ghost use Rattle.serial_model.specs.Task.{done_by};
ghost use Rattle.txn_snapshot.specs.SnapshotAnswer.{answer_of, reads_ref, replies, sets_ref, snapshot_of, IsAnswerable, NamesRef};
ghost use Rattle.txn_snapshot.specs.declared.answered.Answered.TheVariants as answered;
ghost use Rattle.txn_snapshot.specs.SnapshotTask.{having_forked, having_merged, having_read, new_task, private, Stays};
ghost use Rattle.value_core.specs.declared.value.Value.TheVariants as values;
ghost use Rattle.value_core.specs.Named.{is_among, made_by, over};

use crate::{Answered, ForkView, View};
use ref_store::Store;
use serial_model::{Answer, Effect, Request};
use shared_map::{SharedMap, SharedNames};
use std::alloc::{AllocError, Global};
use std::marker::Model;
use task_log::acts::{new_ref, print, send, set_ref, spawn, turn_into};
use task_log::{SharedList, TaskLog as OwnLog};
use value_core::{Code, Name, Value, Values};

/// What a task of a transaction has done so far on a snapshot of the refs, and which refs it has read there. Copies share what
/// they hold.
pub struct TaskLog {
    log: OwnLog,
    base: View,
    depth: u32,
    actor: Option<Name>,
    reads: SharedNames,
}

impl Drop for TaskLog {
    fn drop(self) {
        let TaskLog {
            log: _log,
            base: _base,
            depth: _,
            actor: _actor,
            reads: _reads,
        } = self;
    }
}

impl Model for TaskLog {
    ghost use Rattle.txn_snapshot.specs.SnapshotTask.{snapshot_task_code, SnapshotTask};

    ghost Value = { SnapshotTask };

    ghost coded = { snapshot_task_code };

    ghost view = { λ t. record { log = t.log; base = t.base; depth = t.depth; actor = t.actor; reads = t.reads } };
}

impl TaskLog {
    /// The log of a task that has done nothing: of that name, with the view that it was forked with, so many forks below the
    /// root, in a turn of that actor or in none. It takes no memory.
    pub fn new(alloc: Global, name: Name, view: View, depth: u32, actor: Option<Name>) -> Self
        ensures { result ≡ new_task name view depth actor }
    {
        TaskLog {
            log: OwnLog::new(alloc, name),
            base: view,
            depth,
            actor,
            reads: SharedNames::new(alloc),
        }
    }

    /// An equal log, which shares what this one holds.
    pub fn copy(&self, alloc: Global) -> Result<Self, AllocError>
        ensures { IfOk result (λ copied. copied ≡ self.now) }
    {
        let actor = copy_actor(alloc, &self.actor)?;
        Ok(TaskLog {
            log: self.log.copy(alloc)?,
            base: self.base.copy()?,
            depth: self.depth,
            actor,
            reads: self.reads.copy()?,
        })
    }

    /// Answers the request on the store at the snapshot. A ref is read in the own writes, then in the view, then in the
    /// store, and in the last case it counts as read. `NotInSnapshot` comes exactly where a deref or a ref-set names a ref
    /// that is in none of them, and then the log stays. For want of memory the log stays.
    #[tactic(auto, using(crate::proofs::Replies::stays))]
    pub fn answer(
        &mut self,
        alloc: Global,
        request: &Request,
        store: &Store,
        snapshot: u64,
    ) -> Result<Answered, AllocError>
        requires { IsAnswerable request.now }
        ensures answered { IfOk result (λ found. replies (snapshot_of store.now.versions snapshot) self.old request.now ≡ Some (found, self.new)) }
        ensures stays { OnOk result (Stays self.old self.new) }
        ensures same { OnErr result (self.new ≡ self.old) }
    {
        match request {
            Request::Deref(name) => self.read(alloc, name, store.read_at(name, snapshot)),
            Request::RefSet(name, content) => {
                self.set(alloc, name, content, store.read_at(name, snapshot))
            }
            _ => {
                let given = act(&mut self.log, alloc, &self.actor, request)?;
                Ok(Answered::Now(given))
            }
        }
    }

    /// Answers a deref of the ref, of which the store has this value.
    fn read(
        &mut self,
        alloc: Global,
        name: &Name,
        stored: Option<&Value>,
    ) -> Result<Answered, AllocError>
        ensures read { IfOk result (λ found. (found, self.new) ≡ reads_ref self.old name.now (private self.old name.now) (option_copied stored.entry)) }
        ensures same { OnErr result (self.new ≡ self.old) }
    {
        if let Some(value) = self.private(name) {
            return given(alloc, value);
        }
        match stored {
            Some(value) => self.read_stored(alloc, name, value),
            None => absent(alloc, name),
        }
    }

    /// Answers a deref of the ref, of which the store alone has a value, and this one. The ref counts as read.
    fn read_stored(
        &mut self,
        alloc: Global,
        name: &Name,
        value: &Value,
    ) -> Result<Answered, AllocError>
        ensures read { IfOk result (λ found. (found, self.new) ≡ reads_ref self.old name.now None (Some value.now)) }
        ensures same { OnErr result (self.new ≡ self.old) }
    {
        let found = given(alloc, value)?;
        match self.add_read(alloc, name) {
            Ok(()) => Ok(found),
            Err(_) => {
                drop(found);
                Err(AllocError)
            }
        }
    }

    /// The ref counts as read. For want of memory the log stays.
    fn add_read(&mut self, alloc: Global, name: &Name) -> Result<(), AllocError>
        ensures read { OnOk result (self.new ≡ having_read self.old name.now) }
        ensures same { OnErr result (self.new ≡ self.old) }
    {
        self.reads.add(name.copy(alloc)?)
    }

    /// Answers a ref-set of the ref, of which the store has this value.
    fn set(
        &mut self,
        alloc: Global,
        name: &Name,
        content: &Value,
        stored: Option<&Value>,
    ) -> Result<Answered, AllocError>
        ensures set { IfOk result (λ found. (found, self.new) ≡ sets_ref self.old name.now content.now (option_or (private self.old name.now) (option_copied stored.entry))) }
        ensures same { OnErr result (self.new ≡ self.old) }
    {
        if self.private(name).is_none() && stored.is_none() {
            return absent(alloc, name);
        }
        let name = name.copy(alloc)?;
        let content = content.copy(alloc)?;
        Ok(Answered::Now(set_ref(alloc, &mut self.log, name, content)?))
    }

    /// What `answer` answers to that. The log stays.
    pub fn foresee(
        &self,
        alloc: Global,
        request: &Request,
        store: &Store,
        snapshot: u64,
    ) -> Result<Answered, AllocError>
        requires { IsAnswerable request.now }
        ensures { IfOk result (λ found. option_map answer_of (replies (snapshot_of store.now.versions snapshot) self.now request.now) ≡ Some found) }
    {
        match request {
            Request::Deref(name) => self.foresee_read(alloc, name, store.read_at(name, snapshot)),
            Request::RefSet(name, content) => {
                self.foresee_set(alloc, name, content, store.read_at(name, snapshot))
            }
            _ => {
                let next = self.log.next_made(alloc)?;
                Ok(Answered::Now(ahead(alloc, next, &self.actor, request)?))
            }
        }
    }

    /// What a deref of the ref is answered, of which the store has this value.
    fn foresee_read(
        &self,
        alloc: Global,
        name: &Name,
        stored: Option<&Value>,
    ) -> Result<Answered, AllocError>
        ensures { IfOk result (λ found. found ≡ answer_of (reads_ref self.now name.now (private self.now name.now) (option_copied stored.entry))) }
    {
        match self.private(name) {
            Some(value) => given(alloc, value),
            None => match stored {
                Some(value) => given(alloc, value),
                None => absent(alloc, name),
            },
        }
    }

    /// What a ref-set of the ref is answered, of which the store has this value.
    fn foresee_set(
        &self,
        alloc: Global,
        name: &Name,
        content: &Value,
        stored: Option<&Value>,
    ) -> Result<Answered, AllocError>
        ensures { IfOk result (λ found. found ≡ answer_of (sets_ref self.now name.now content.now (option_or (private self.now name.now) (option_copied stored.entry)))) }
    {
        if !self.holds(name) && stored.is_none() {
            return absent(alloc, name);
        }
        given(alloc, content)
    }

    /// The value of the ref in the own writes, or else in the view.
    fn private(&self, name: &Name) -> Option<&Value>
        ensures { option_copied result ≡ private self.now name.now }
    {
        match self.log.written(name) {
            Some(value) => Some(value),
            None => self.base.get(name),
        }
    }

    /// Counts one thing made, and gives it as a future, with the view of a child that is forked now: the own writes over the
    /// own view. For want of memory, as at 4,294,967,295 things, the log stays.
    pub fn fork(&mut self, alloc: Global) -> Result<ForkView, AllocError>
        ensures future { IfOk result (λ forked. forked.future ≡ made_by self.old.log.name self.old.log.made) }
        ensures view { IfOk result (λ forked. forked.view ≡ over self.old.log.writes self.old.base) }
        ensures made { OnOk result (self.new ≡ having_forked self.old) }
        ensures same { OnErr result (self.new ≡ self.old) }
    {
        let future = self.log.next_made(alloc)?;
        let view = self.base.under(self.log.writes())?;
        self.log.count_made()?;
        Ok(ForkView { future, view })
    }

    /// Merges the log of the future, a task that is joined for the first time: its writes prevail, its effects that are not
    /// there yet are appended in order, it counts as joined, with all that it has joined, and what it has read counts as
    /// read. For want of memory the log stays.
    pub fn merge(&mut self, alloc: Global, future: &Name, child: &TaskLog) -> Result<(), AllocError>
        requires { is_among future.now self.old.log.joined ≡ false }
        ensures merged { OnOk result (self.new ≡ having_merged self.old future.now child.now) }
        ensures same { OnErr result (self.new ≡ self.old) }
    {
        let mut both = self.log.copy(alloc)?;
        both.merge_as(alloc, future, &child.log)?;
        let mut reads = self.reads.copy()?;
        reads.add_all(&child.reads)?;
        self.log = both;
        self.reads = reads;
        Ok(())
    }

    /// Merges as `merge` does, but without a copy: for want of memory the log is of no use any more.
    pub fn take_in(
        &mut self,
        alloc: Global,
        future: &Name,
        child: &TaskLog,
    ) -> Result<(), AllocError>
        requires { is_among future.now self.old.log.joined ≡ false }
        ensures { OnOk result (self.new ≡ having_merged self.old future.now child.now) }
    {
        self.log.merge_as(alloc, future, &child.log)?;
        self.reads.add_all(&child.reads)
    }

    /// Whether the task has joined the future. It takes no memory.
    pub fn has_joined(&self, future: &Name) -> bool
        ensures { result ≡ is_among future.now self.now.log.joined }
    {
        self.log.has_joined(future)
    }

    /// Whether the task has a value of the ref of its own, so that it does not read it from the store. It takes no memory.
    pub fn holds(&self, name: &Name) -> bool
        ensures { result ≡ is_some (private self.now name.now) }
    {
        self.private(name).is_some()
    }

    /// How many things the task has made. It takes no memory.
    pub fn made(&self) -> u32
        ensures { result ≡ self.now.log.made }
    {
        self.log.made()
    }

    /// The name of the thing with that number.
    pub fn made_at(&self, alloc: Global, number: u32) -> Result<Name, AllocError>
        ensures { IfOk result (λ name. name ≡ made_by self.now.log.name number) }
    {
        self.log.made_at(alloc, number)
    }

    /// The effects of the task, and those that came by joins, in order. It takes no memory.
    pub fn effects(&self) -> &SharedList<Effect>
        ensures { result.now ≡ self.now.log.effects }
    {
        self.log.effects()
    }

    /// How many of these effects send something to that actor. It takes no memory, and walks no effect.
    pub fn sends_to(&self, actor: &Name) -> usize
        ensures { result ≡ length (effects_to actor.now self.now.log.effects) }
    {
        self.log.sends_to(actor)
    }

    /// The refs that the task wrote, and those that came by joins, with their values. It takes no memory.
    pub fn writes(&self) -> &SharedMap<Value>
        ensures { result.now ≡ self.now.log.writes }
    {
        self.log.writes()
    }

    /// The refs that the task read from the store, and those that came by joins, in after-order. It takes no memory.
    pub fn reads(&self) -> &SharedNames
        ensures { result.now ≡ self.now.reads }
    {
        &self.reads
    }

    /// How many forks the task is below the root. It takes no memory.
    pub fn depth(&self) -> u32
        ensures { result ≡ self.now.depth }
    {
        self.depth
    }
}

/// Does what the request asks for, and answers it, where that rests on no ref.
fn act(
    log: &mut OwnLog,
    alloc: Global,
    actor: &Option<Name>,
    request: &Request,
) -> Result<Answer, AllocError>
    requires answerable { IsAnswerable request.now }
    requires no_ref { ¬ NamesRef request.now }
    ensures answer { IfOk result (λ given. answer_ahead actor.now (made_by log.old.name log.old.made) request.now ≡ Some given) }
    ensures log { IfOk result (λ _. log.new ≡ done_by actor.now log.old request.now) }
    ensures same { OnErr result (log.new ≡ log.old) }
{
    match request {
        Request::Print(text) => print(alloc, log, text.copy(alloc)?),
        Request::NewRef(content) => new_ref(alloc, log, content.copy(alloc)?),
        Request::Spawn(behaviour, state) => spawn(alloc, log, *behaviour, state.copy()?),
        Request::Send(to, message) => act_send(log, alloc, to, message),
        Request::Become(behaviour, state) => act_become(log, alloc, actor, *behaviour, state),
        Request::SelfActor => own_actor(alloc, actor),
        _ => unreachable!(),
    }
}

/// Sends the message to that actor.
fn act_send(
    log: &mut OwnLog,
    alloc: Global,
    to: &Name,
    message: &Values,
) -> Result<Answer, AllocError>
    ensures answer { IfOk result (λ given. given ≡ answer.Value values.Nil) }
    ensures log { OnOk result (log.new ≡ done_by None log.old (requests.Send to.now message.now)) }
    ensures same { OnErr result (log.new ≡ log.old) }
{
    let message = message.copy()?;
    send(alloc, log, to.copy(alloc)?, message)
}

/// The actor of the turn becomes that at its end; where there is no turn it is a fault.
fn act_become(
    log: &mut OwnLog,
    alloc: Global,
    actor: &Option<Name>,
    behaviour: u32,
    state: &Values,
) -> Result<Answer, AllocError>
    ensures answer { IfOk result (λ given. given ≡ of_turn actor.now (answer.Value values.Nil)) }
    ensures log { OnOk result (log.new ≡ done_by actor.now log.old (requests.Become behaviour state.now)) }
    ensures same { OnErr result (log.new ≡ log.old) }
{
    match actor {
        Some(_) => turn_into(alloc, log, behaviour, state.copy()?),
        None => Ok(Answer::Fault(Code::NoTurn)),
    }
}

/// What the request is answered in a turn of that actor or in none, where that rests on no ref; the name is that of the next
/// thing that the task makes.
fn ahead(
    alloc: Global,
    next: Name,
    actor: &Option<Name>,
    request: &Request,
) -> Result<Answer, AllocError>
    requires answerable { IsAnswerable request.now }
    requires no_ref { ¬ NamesRef request.now }
    ensures { IfOk result (λ given. answer_ahead actor.now next request.now ≡ Some given) }
{
    match request {
        Request::Print(_) | Request::Send(_, _) => Ok(Answer::Value(Value::Nil)),
        Request::NewRef(_) => Ok(Answer::Value(Value::Ref(next))),
        Request::Spawn(_, _) => Ok(Answer::Value(Value::Actor(next))),
        Request::Become(_, _) => match actor {
            Some(_) => Ok(Answer::Value(Value::Nil)),
            None => Ok(Answer::Fault(Code::NoTurn)),
        },
        Request::SelfActor => own_actor(alloc, actor),
        _ => unreachable!(),
    }
}

/// The actor of the turn; where there is no turn it is a fault.
fn own_actor(alloc: Global, actor: &Option<Name>) -> Result<Answer, AllocError>
    ensures { IfOk result (λ given. given ≡ self_of actor.now) }
{
    match actor {
        Some(actor) => Ok(Answer::Value(Value::Actor(actor.copy(alloc)?))),
        None => Ok(Answer::Fault(Code::NoTurn)),
    }
}

/// The answer that is that value.
fn given(alloc: Global, value: &Value) -> Result<Answered, AllocError>
    ensures { IfOk result (λ found. found ≡ answered.Now (answer.Value value.now)) }
{
    Ok(Answered::Now(Answer::Value(value.copy(alloc)?)))
}

/// The answer that names the ref, of which nobody has a value.
fn absent(alloc: Global, name: &Name) -> Result<Answered, AllocError>
    ensures { IfOk result (λ found. found ≡ answered.NotInSnapshot name.now) }
{
    Ok(Answered::NotInSnapshot(name.copy(alloc)?))
}

/// The same actor, or none.
fn copy_actor(alloc: Global, actor: &Option<Name>) -> Result<Option<Name>, AllocError>
    ensures { IfOk result (λ copied. copied ≡ actor.now) }
{
    match actor {
        Some(name) => Ok(Some(name.copy(alloc)?)),
        None => Ok(None),
    }
}
