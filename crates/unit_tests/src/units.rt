use core_syntax::NodeId;
use eval_step::Machine;
use serial_model::ActorState;
use std::alloc::{AllocError, Global};
use std::test::Fail;
use unit_table::{Mark, UnitKind, Units, WaitOn, Work};
use value_core::{Name, Value, Values};

pub(crate) fn name(alloc: Global, text: &str) -> Result<Name, AllocError> {
    Name::read(alloc, text.as_bytes()).map_err(|_| AllocError)
}

// Puts the mark where something stands, and says whether it did.
fn mark(units: &mut Units, name: &Name, mark: Mark) -> bool {
    if units.piece(name).is_none() || matches!(&mark, Mark::Waiting(_)) {
        return false;
    }
    units.mark(name, mark);
    true
}

// What stands under the name waits for the finish of the other.
fn wait(units: &mut Units, alloc: Global, name: &Name, other: &Name) -> Result<bool, AllocError> {
    let awaited = other.copy(alloc)?;
    units.reserve(alloc, other)?;
    if units.piece(name).is_none() {
        return Ok(false);
    }
    units.mark(name, Mark::Waiting(WaitOn::Finish(awaited)));
    Ok(true)
}

fn add_task(units: &mut Units, alloc: Global, name: &Name) -> Result<bool, AllocError> {
    if units.piece(name).is_some() {
        return Ok(false);
    }
    units.add_task(alloc, name)?;
    Ok(true)
}

// Lends what is ready, and takes it back.
fn lends(units: &mut Units, alloc: Global, wanted: &Name) -> Result<bool, AllocError> {
    if !units.is_ready(wanted) {
        return Ok(false);
    }
    let claim = units.lend(wanted)?;
    let is_lent = !units.is_ready(wanted) && units.piece_of(claim) == Some(wanted);
    let was_live = units.take_back(claim) && !units.take_back(claim);
    Ok(is_lent && was_live && units.first_ready() == Some(wanted))
}

// A task is ready once it is added, and is lent once at a time.
fn a_task_is_lent(alloc: Global) -> Result<bool, AllocError> {
    let task = name(alloc, "0.1")?;
    let mut units = Units::new(alloc);
    let is_added = add_task(&mut units, alloc, &task)?;
    Ok(is_added && lends(&mut units, alloc, &task)?)
}

// A piece that waits for a finish is ready to settle once that comes.
fn a_finish_wakes(alloc: Global) -> Result<bool, AllocError> {
    let mut units = Units::new(alloc);
    wakes(
        &mut units,
        alloc,
        &name(alloc, "0.1")?,
        &name(alloc, "0.1.0")?,
    )
}

fn wakes(
    units: &mut Units,
    alloc: Global,
    parent: &Name,
    child: &Name,
) -> Result<bool, AllocError> {
    let are_added = add_task(units, alloc, parent)? && add_task(units, alloc, child)?;
    let waits = wait(units, alloc, parent, child)? && !units.is_ready(parent);
    let is_finished = mark(units, child, Mark::Finished(Value::Nil));
    let settles = matches!(units.mark_of(parent), Some(Mark::Ready(Work::Settle)));
    Ok(are_added && waits && is_finished && settles && units.is_ready(parent))
}

// What is dropped is there no more, and can be added again.
fn a_dropped_task_is_gone(alloc: Global) -> Result<bool, AllocError> {
    let mut units = Units::new(alloc);
    is_dropped(&mut units, alloc, &name(alloc, "0.1")?)
}

fn is_dropped(units: &mut Units, alloc: Global, task: &Name) -> Result<bool, AllocError> {
    let is_added = add_task(units, alloc, task)?;
    let is_gone = mark(units, task, Mark::Dropped) && units.mark_of(task).is_none();
    Ok(is_added && is_gone && add_task(units, alloc, task)?)
}

// A task that is dropped and forgotten can be added anew; one that stands stays.
fn a_forgotten_task_is_gone(alloc: Global) -> Result<bool, AllocError> {
    let mut units = Units::new(alloc);
    is_forgotten(
        &mut units,
        alloc,
        &name(alloc, "0.1")?,
        &name(alloc, "0.2")?,
    )
}

fn is_forgotten(
    units: &mut Units,
    alloc: Global,
    task: &Name,
    other: &Name,
) -> Result<bool, AllocError> {
    let are_added = add_task(units, alloc, task)? && add_task(units, alloc, other)?;
    let is_gone = mark(units, task, Mark::Dropped);
    units.forget(task);
    units.forget(other);
    let stays = units.piece(task).is_none() && units.is_ready(other);
    Ok(are_added && is_gone && stays && add_task(units, alloc, task)? && units.is_ready(task))
}

// An actor rests until it is marked.
fn an_actor_rests(alloc: Global) -> Result<bool, AllocError> {
    let actor = name(alloc, "0.0")?;
    let mut units = Units::new(alloc);
    let state = ActorState {
        behaviour: 0,
        state: Values::new(alloc),
        turns: 0,
        busy: false,
    };
    units.add_actor(alloc, &actor, state)?;
    let rests = units.first_ready().is_none();
    Ok(rests && mark(&mut units, &actor, Mark::Ready(Work::Begin)) && units.is_ready(&actor))
}

// A unit begins with nothing made, and is moved.
fn a_unit_moves(alloc: Global) -> Result<bool, AllocError> {
    let main = name(alloc, "0")?;
    let mut units = Units::new(alloc);
    units.add_unit(alloc, name(alloc, "0")?, UnitKind::Main, machine(alloc)?)?;
    let begins = made_of(&units, &main) == Some(0);
    let moved = machine(alloc)?;
    Ok(begins && moves(&mut units, &main, moved))
}

fn made_of(units: &Units, name: &Name) -> Option<u32> {
    match units.unit(name) {
        Some(unit) => Some(unit.made),
        None => None,
    }
}

fn moves(units: &mut Units, name: &Name, machine: Machine) -> bool {
    if units.unit(name).is_none() {
        return false;
    }
    units.move_unit(name, machine, 3);
    made_of(units, name) == Some(3)
}

fn machine(alloc: Global) -> Result<Machine, AllocError> {
    Machine::start(alloc, NodeId { index: 0 }, Values::new(alloc), false, 10)
}

#[test]
fn pieces_are_lent_woken_and_dropped(rt: HostRuntime) -> Result<(), Fail> {
    assert!(rt; a_task_is_lent(rt.alloc())?);
    assert!(rt; a_finish_wakes(rt.alloc())?);
    assert!(rt; a_dropped_task_is_gone(rt.alloc())?);
    assert!(rt; a_forgotten_task_is_gone(rt.alloc())?);
    assert!(rt; an_actor_rests(rt.alloc())?);
    Ok(())
}

#[test]
fn a_unit_goes_on(rt: HostRuntime) -> Result<(), Fail> {
    assert!(rt; a_unit_moves(rt.alloc())?);
    Ok(())
}
