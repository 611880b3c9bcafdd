// How the tasks of attempts take steps.
ghost use Rattle.std.specs.Prelude.{◌≡◌, IfOk, IfSome, None, OnErr, OnOk, Some, false, is_some, length};
ghost use Rattle.std.specs.Option.{option_copied, option_map, IsSome};
ghost use Rattle.world_steps.specs.Kept.{shared_of, IsSameBut};
ghost use Rattle.attempt_deciding.specs.TaskAt.{IsTaskAt, IsTaskIn};
ghost use Rattle.attempt_steps.specs.Tasks.{ComesAfter, DecidedOrWaits, DecidesOr, GoesOnOr, HasDoneNoMore, HasForkedTask, HasPosted, HasRoomFor, HasStepped, IsNext, IsNextIfForked, IsOfStep, IsRoomyChild, IsTaskOf, IsOwned, MayUndo, MissesOr, TaskCame, TaskMarked, TaskWaits};
ghost use Rattle.ref_store.specs.declared.version.Version.{Version as Versioned};
ghost use Rattle.ref_store.specs.Store.{versions_of};
ghost use Rattle.ref_store.specs.Version.{newest};
ghost use Rattle.shared_world.specs.Marks.{AreMarked, AreMarkedBeside};
ghost use Rattle.shared_world.specs.rows.Tasks.{outer_of};
ghost use Rattle.shared_world.specs.Seen.{done_by_root};
ghost use Rattle.shared_world.specs.Shared.{kept_machine};
ghost use Rattle.shared_world.specs.Stands.{Stands};
ghost use Rattle.task_fork_join.specs.Attempt.{IsKept, end_at, next_made_at};
ghost use Rattle.task_fork_join.specs.Step.{HaltsAt};
ghost use Rattle.txn_snapshot.specs.SnapshotAnswer.{snapshot_of};
ghost use Rattle.unit_table.specs.Board.{CanWait, HasPlace};
ghost use Rattle.unit_table.specs.Piece.{says_dropped};
ghost use Rattle.value_core.specs.Named.{named};

use crate::waiting::{check_trying, wait_at_end, wait_for_turn};
use attempt_deciding::{abort, decide};
use attempt_sends::post_sends;
use eval_step::Machine;
use ref_store::Store;
use serial_model::{Halt, Request};
use shared_world::Given;
use std::alloc::{AllocError, Global};
use std::collections::BTreeMap;
use task_fork_join::{Stepped, Tree};
use unit_table::{Mark, Units, WaitOn, Work};
use value_core::name_map::find;
use value_core::{Name, Value};
use world_steps::{Kept, add_task, value_of};

/// A child that is forked, for which there is room, and the unit whose attempt it is of.
#[derive(Drop)]
pub(crate) struct Child {
    pub(crate) name: Name,
    pub(crate) owner: Name,
}

/// The task of the unit's attempt, whose machine was moved to that halt, takes a step; or where the root of the attempt is at its
/// end already, that is decided.
pub fn step_task(
    kept: &mut Kept,
    alloc: Global,
    owner: &Name,
    task: &Name,
    moved: Machine,
    halt: Halt,
) -> Result<Given, AllocError>
    requires stands { Stands (shared_of kept.old) }
    requires marks { AreMarked (shared_of kept.old) }
    requires going { kept.old.end ≡ None }
    requires task { IsTaskOf (shared_of kept.old) owner.now task.now moved halt }
    ensures { TaskCame (shared_of kept.old) task.now (shared_of kept.new) result }
{
    let before = count_done(kept, owner);
    if has_ended(kept, owner) {
        drop_moved(moved, halt);
        return decide_or_wait(kept, alloc, owner, task, before);
    }
    match room_for_child(kept, alloc, owner, task, &halt) {
        Ok(child) => step_with(kept, alloc, owner, task, moved, halt, child, before),
        Err(error) => {
            drop_moved(moved, halt);
            Err(error)
        }
    }
}

/// What a task comes to that has ended, where the root of its attempt has.
pub fn settle_task(
    kept: &mut Kept,
    alloc: Global,
    owner: &Name,
    task: &Name,
) -> Result<Given, AllocError>
    requires stands { Stands (shared_of kept.old) }
    requires marks { AreMarked (shared_of kept.old) }
    requires going { kept.old.end ≡ None }
    requires none { kept_machine (shared_of kept.old) task.now ≡ None }
    requires owned { IsOwned (shared_of kept.old) task.now owner.now }
    ensures { TaskCame (shared_of kept.old) task.now (shared_of kept.new) result }
{
    let _next = next_of_task(kept, alloc, owner, task)?;
    let before = count_done(kept, owner);
    if has_ended(kept, owner) {
        decide_or_wait(kept, alloc, owner, task, before)
    } else {
        Err(AllocError)
    }
}

/// The same, where there is room for the child that the task forks.
fn step_with(
    kept: &mut Kept,
    alloc: Global,
    owner: &Name,
    task: &Name,
    moved: Machine,
    halt: Halt,
    child: Option<Child>,
    before: usize,
) -> Result<Given, AllocError>
    requires stands { Stands (shared_of kept.old) }
    requires marks { AreMarked (shared_of kept.old) }
    requires going { kept.old.end ≡ None }
    requires task { IsTaskOf (shared_of kept.old) owner.now task.now moved halt }
    requires open { IfSome (named owner.now kept.old.attempts.entries) (λ tree. end_at tree ≡ None) }
    requires room { HasRoomFor kept.old owner.now child }
    requires next { IfSome (named owner.now kept.old.attempts.entries) (λ tree. IsNextIfForked halt tree task.now child) }
    requires done { IfSome (named owner.now kept.old.attempts.entries) (λ tree. IsSome (named tree.root tree.tasks) → before ≡ length (done_by_root tree)) }
    ensures { TaskCame (shared_of kept.old) task.now (shared_of kept.new) result }
{
    match take_step(kept, alloc, owner, task, moved, halt) {
        Ok(went) => after_step(kept, alloc, owner, task, child, went, before),
        Err(error) => {
            drop_child(child);
            Err(error)
        }
    }
}

/// Room for the child that the task asks to fork, where it does.
fn room_for_child(
    kept: &mut Kept,
    alloc: Global,
    owner: &Name,
    task: &Name,
    halt: &Halt,
) -> Result<Option<Child>, AllocError>
    ensures same { IsSameBut (shared_of kept.old) (shared_of kept.new) }
    ensures others { kept.new ≡ record kept.old { units = kept.new.units; owners = kept.new.owners } }
    ensures room { IfOk result (HasRoomFor kept.new owner.now) }
    ensures next { IfOk result (λ child. IfSome (named owner.now kept.old.attempts.entries) (λ tree. IsNextIfForked halt.now tree task.now child)) }
{
    match halt {
        Halt::Ask(Request::Fork(_, _), _) => child_room(kept, alloc, owner, task),
        _ => Ok(None),
    }
}

/// Room for what the task makes next, under whose name nothing stands.
fn child_room(
    kept: &mut Kept,
    alloc: Global,
    owner: &Name,
    task: &Name,
) -> Result<Option<Child>, AllocError>
    ensures same { IsSameBut (shared_of kept.old) (shared_of kept.new) }
    ensures others { kept.new ≡ record kept.old { units = kept.new.units; owners = kept.new.owners } }
    ensures room { IfOk result (HasRoomFor kept.new owner.now) }
    ensures next { IfOk result (λ child. IfSome (named owner.now kept.old.attempts.entries) (λ tree. IsNext tree task.now child)) }
{
    let name = next_of_task(kept, alloc, owner, task)?;
    kept.reserve_new(alloc, &name)?;
    kept.owners.prepare(name.copy(alloc)?)?;
    let owner = owner.copy(alloc)?;
    Ok(Some(Child { name, owner }))
}

/// The name of what the task makes next. A task that is nowhere, of which no claim knows, is taken for want of memory.
fn next_of_task(kept: &Kept, alloc: Global, owner: &Name, task: &Name) -> Result<Name, AllocError>
    ensures { IfOk result (λ name. IfSome (named owner.now kept.now.attempts.entries) (λ tree. next_made_at tree task.now ≡ Some name)) }
{
    match find(&kept.attempts, owner) {
        Some(tree) => tree.next_made(alloc, task)?.ok_or(AllocError),
        None => Err(AllocError),
    }
}

/// The attempt takes the step.
fn take_step(
    kept: &mut Kept,
    alloc: Global,
    owner: &Name,
    task: &Name,
    moved: Machine,
    halt: Halt,
) -> Result<Stepped, AllocError>
    requires task { IsTaskOf (shared_of kept.old) owner.now task.now moved halt }
    ensures step { IfOk result (λ went. IfSome (named owner.now kept.old.attempts.entries) (λ tree.
        HasStepped (snapshot_of kept.old.store.versions tree.snapshot) owner.now task.now moved (outer_of kept.old.units halt) halt tree kept.old.attempts.entries kept.new.attempts.entries went)) }
    ensures others { kept.new ≡ record kept.old { attempts = kept.new.attempts } }
    ensures same { OnErr result (kept.new.attempts.entries ≡ kept.old.attempts.entries) }
{
    let outer = outer_value(&kept.units, &halt);
    step_in(
        &mut kept.attempts,
        alloc,
        owner,
        task,
        moved,
        halt,
        &kept.store,
        outer,
    )
}

/// What comes of the step of the task.
fn after_step(
    kept: &mut Kept,
    alloc: Global,
    owner: &Name,
    task: &Name,
    child: Option<Child>,
    went: Stepped,
    before: usize,
) -> Result<Given, AllocError>
    requires stands { Stands (shared_of kept.old) }
    requires marks { MayUndo (shared_of kept.old) owner.now went → AreMarkedBeside (shared_of kept.old) owner.now }
    requires going { kept.old.end ≡ None }
    requires at { IfSome (named owner.now kept.old.attempts.entries) (IsTaskIn (shared_of kept.old) owner.now task.now) }
    requires there { IsSome (named owner.now kept.old.attempts.entries) }
    requires room { HasRoomFor kept.old owner.now child }
    requires child { IsOfStep child went }
    requires done { IfSome (named owner.now kept.old.attempts.entries) (HasDoneNoMore before went) }
    ensures { ComesAfter (shared_of kept.old) owner.now task.now before went (shared_of kept.new) result }
{
    if has_ended(kept, owner) {
        return decide_or_wait(kept, alloc, owner, task, before);
    }
    match went {
        Stepped::Now => go_on(kept, alloc, owner, task, before),
        Stepped::Forked(_) => Ok(add_forked(kept, alloc, task, child)),
        Stepped::WaitJoin(future) => wait_for_task(kept, alloc, owner, task, future, before),
        Stepped::NotInSnapshot(name) => miss(kept, alloc, owner, task, name),
        Stepped::Finished => {
            mark_task(kept, task, Mark::Finished(Value::Nil));
            Ok(Given::Local)
        }
    }
}

/// Whether the root of the unit's attempt is at its end.
fn has_ended(kept: &Kept, owner: &Name) -> bool
    requires there { IsSome (named owner.now kept.now.attempts.entries) }
    ensures { IfSome (named owner.now kept.now.attempts.entries) (λ tree. result ≡ is_some (end_at tree)) }
{
    match find(&kept.attempts, owner) {
        Some(tree) => tree.outcome().is_some(),
        None => unreachable!(),
    }
}

/// How much the root of the unit's attempt has done.
fn count_done(kept: &Kept, owner: &Name) -> usize
    requires there { IsSome (named owner.now kept.now.attempts.entries) }
    ensures { IfSome (named owner.now kept.now.attempts.entries) (λ tree. IsSome (named tree.root tree.tasks) → result ≡ length (done_by_root tree)) }
{
    match find(&kept.attempts, owner) {
        Some(tree) => tree.root().effects().len(),
        None => unreachable!(),
    }
}

/// What comes of the attempt, whose root is at its end and had done so much before. For want of memory the task is ready to settle.
fn decide_or_wait(
    kept: &mut Kept,
    alloc: Global,
    owner: &Name,
    task: &Name,
    before: usize,
) -> Result<Given, AllocError>
    requires stands { Stands (shared_of kept.old) }
    requires marks { AreMarkedBeside (shared_of kept.old) owner.now }
    requires going { kept.old.end ≡ None }
    requires at { IfSome (named owner.now kept.old.attempts.entries) (IsTaskIn (shared_of kept.old) owner.now task.now) }
    requires there { IsSome (named owner.now kept.old.attempts.entries) }
    ensures { DecidedOrWaits (shared_of kept.old) owner.now task.now before (shared_of kept.new) result }
{
    let decided = decide_at(kept, alloc, owner, task, before);
    if decided.is_err() {
        mark_task(kept, task, Mark::Ready(Work::Settle));
    }
    decided
}

/// What comes of the attempt, whose root is at its end: it is decided on where its unit stands where the history left it; else what the root
/// has sent is put or kept, and the task waits until that does.
fn decide_at(
    kept: &mut Kept,
    alloc: Global,
    owner: &Name,
    task: &Name,
    before: usize,
) -> Result<Given, AllocError>
    requires stands { Stands (shared_of kept.old) }
    requires marks { AreMarkedBeside (shared_of kept.old) owner.now }
    requires going { kept.old.end ≡ None }
    requires at { IfSome (named owner.now kept.old.attempts.entries) (IsTaskIn (shared_of kept.old) owner.now task.now) }
    requires there { IsSome (named owner.now kept.old.attempts.entries) }
    ensures { DecidesOr (shared_of kept.old) owner.now task.now before (shared_of kept.new) result }
{
    if kept.runs_ahead(owner) {
        return wait_at_end(kept, alloc, owner, task, before);
    }
    check_trying(kept, owner)?;
    decide(kept, alloc, owner)
}

/// The task has that mark. It takes no memory.
pub(crate) fn mark_task(kept: &mut Kept, task: &Name, mark: Mark)
    requires there { IsTaskAt kept.old.units task.now }
    requires stays { says_dropped mark ≡ false }
    requires can_wait { CanWait kept.old.units mark }
    ensures { TaskMarked (shared_of kept.old) task.now mark (shared_of kept.new) }
{
    kept.units.mark(task, mark);
}

/// The child that the task forked can go on, and the task can. It takes no memory.
fn add_forked(kept: &mut Kept, alloc: Global, task: &Name, child: Option<Child>) -> Given
    requires there { IsTaskAt kept.old.units task.now }
    requires some { IsSome child }
    requires room { IfSome child (IsRoomyChild kept.old) }
    ensures { IfSome child (λ child. HasForkedTask (shared_of kept.old) child.owner task.now child.name (shared_of kept.new) result) }
{
    match child {
        Some(child) => add_child_task(kept, alloc, task, child),
        None => unreachable!(),
    }
}

/// The child can go on, and the task that forked it can. It takes no memory.
fn add_child_task(kept: &mut Kept, alloc: Global, task: &Name, child: Child) -> Given
    requires there { IsTaskAt kept.old.units task.now }
    requires room { IsRoomyChild kept.old child }
    ensures { HasForkedTask (shared_of kept.old) child.owner task.now child.name (shared_of kept.new) result }
{
    let Child { name, owner } = child;
    add_task(&mut kept.units, alloc, &name);
    kept.owners.fill(&name, owner);
    mark_task(kept, task, Mark::Ready(Work::Eval));
    Given::Local
}

/// What the root has sent by the step is put or kept, and the task can be evaluated again, as it can for want of memory.
fn go_on(
    kept: &mut Kept,
    alloc: Global,
    owner: &Name,
    task: &Name,
    before: usize,
) -> Result<Given, AllocError>
    requires at { IfSome (named owner.now kept.old.attempts.entries) (IsTaskIn (shared_of kept.old) owner.now task.now) }
    requires there { IsSome (named owner.now kept.old.attempts.entries) }
    ensures { GoesOnOr (shared_of kept.old) owner.now task.now before (shared_of kept.new) result }
{
    let posted = post_sends(kept, alloc, owner, before);
    mark_task(kept, task, Mark::Ready(Work::Eval));
    posted?;
    Ok(Given::Local)
}

/// What the root has sent by the step is put or kept, and the task waits for the finish of that one. Where nothing stands under that name, of
/// which no run knows, it is taken for want of memory. Then the task can be evaluated again.
fn wait_for_task(
    kept: &mut Kept,
    alloc: Global,
    owner: &Name,
    task: &Name,
    future: Name,
    before: usize,
) -> Result<Given, AllocError>
    requires at { IfSome (named owner.now kept.old.attempts.entries) (IsTaskIn (shared_of kept.old) owner.now task.now) }
    requires there { IsSome (named owner.now kept.old.attempts.entries) }
    ensures { TaskWaits (shared_of kept.old) owner.now task.now future before (shared_of kept.new) result }
{
    match told_and_sent(kept, alloc, owner, &future, before) {
        Ok(told) => {
            mark_task(kept, task, Mark::Waiting(WaitOn::Finish(future)));
            Ok(Given::Waiting(WaitOn::Finish(told)))
        }
        Err(error) => {
            mark_task(kept, task, Mark::Ready(Work::Eval));
            Err(error)
        }
    }
}

/// The same name, under which something stands; and what the root has sent by the step is put or kept. For want of memory nothing changes but
/// room.
fn told_and_sent(
    kept: &mut Kept,
    alloc: Global,
    owner: &Name,
    name: &Name,
    before: usize,
) -> Result<Name, AllocError>
    ensures told { IfOk result (λ told. told ≡ name.now) }
    ensures place { OnOk result (HasPlace kept.new.units name.now) }
    ensures posted { OnOk result (HasPosted (shared_of kept.old) owner.now before (shared_of kept.new)) }
    ensures same { OnErr result (shared_of kept.new ≡ shared_of kept.old) }
{
    let told = name_with_place(kept, alloc, name)?;
    post_sends(kept, alloc, owner, before)?;
    Ok(told)
}

/// The same name, under which something stands.
fn name_with_place(kept: &Kept, alloc: Global, name: &Name) -> Result<Name, AllocError>
    ensures same { IfOk result (λ same. same ≡ name.now) }
    ensures place { OnOk result (HasPlace kept.now.units name.now) }
{
    let same = name.copy(alloc)?;
    kept.check_place(name)?;
    Ok(same)
}

/// The attempt is undone, where the store has a version of the ref that the snapshot does not have. Where it has none, the unit runs
/// ahead and made the ref, and the task waits until the unit holds nothing. What no run can meet is taken for want of memory.
fn miss(
    kept: &mut Kept,
    alloc: Global,
    owner: &Name,
    task: &Name,
    name: Name,
) -> Result<Given, AllocError>
    requires stands { Stands (shared_of kept.old) }
    requires marks { AreMarkedBeside (shared_of kept.old) owner.now }
    requires going { kept.old.end ≡ None }
    requires at { IfSome (named owner.now kept.old.attempts.entries) (IsTaskIn (shared_of kept.old) owner.now task.now) }
    requires there { IsSome (named owner.now kept.old.attempts.entries) }
    ensures { MissesOr (shared_of kept.old) owner.now task.now name (shared_of kept.new) result }
{
    match newest_number(kept, &name) {
        Some(number) => Ok(abort(kept, alloc, owner, name, number)),
        None if kept.runs_ahead(owner) => wait_for_turn(kept, alloc, owner, task),
        None => Err(AllocError),
    }
}

/// The number of the newest version of the ref. None exactly where it has none.
fn newest_number(kept: &Kept, name: &Name) -> Option<u64>
    ensures { result ≡ option_map (λ (v : Versioned). v.number) (newest (versions_of kept.now.store.versions name.now)) }
{
    match kept.store.newest(name) {
        Some(version) => Some(version.number),
        None => None,
    }
}

/// The value of the plain task that is asked for, where it has one.
fn outer_value<'a>(units: &'a Units, halt: &Halt) -> Option<&'a Value>
    ensures { option_copied result ≡ outer_of units.now halt.now }
{
    match halt {
        Halt::Ask(Request::Join(future), _) => value_of(units, future),
        _ => None,
    }
}

/// The attempt of the unit takes the step of its task.
fn step_in(
    attempts: &mut BTreeMap<Name, Tree>,
    alloc: Global,
    owner: &Name,
    task: &Name,
    moved: Machine,
    halt: Halt,
    store: &Store,
    outer: Option<&Value>,
) -> Result<Stepped, AllocError>
    requires there { IsSome (named owner.now attempts.old.entries) }
    requires kept { IfSome (named owner.now attempts.old.entries) (λ tree. IsKept task.now moved tree.tasks) }
    requires halts { HaltsAt moved halt }
    ensures step { IfOk result (λ went. IfSome (named owner.now attempts.old.entries) (λ tree.
        HasStepped (snapshot_of store.now.versions tree.snapshot) owner.now task.now moved (option_copied outer.entry) halt tree attempts.old.entries attempts.new.entries went)) }
    ensures same { OnErr result (attempts.new.entries ≡ attempts.old.entries) }
{
    match attempts.get_mut(owner) {
        Some(tree) => tree.step(alloc, task, moved, halt, store, outer),
        None => unreachable!(),
    }
}

/// Drops a machine that was moved, and where it halts.
fn drop_moved(_moved: Machine, _halt: Halt) {}

/// Drops a child that is not forked.
fn drop_child(_child: Option<Child>) {}
