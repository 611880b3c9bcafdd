// The first request that a turn holds is settled.
ghost use Rattle.std.specs.Prelude.{◌≡◌, IfOk, None, true};
ghost use Rattle.ahead_settling.specs.First.{is_told_alone, FirstComes, ForksOr, IsChild, IsNextMade, IsOpen};
ghost use Rattle.serial_model.specs.declared.request.Request.{Request as Requested};
ghost use Rattle.serial_model.specs.declared.request.Request.TheVariants as requests;
ghost use Rattle.unit_table.specs.Board.{piece_at, HasPlace, SameClaims};
ghost use Rattle.value_core.specs.Named.{Name as Called};
ghost use Rattle.world_steps.specs.Kept.{shared_of, IsSameBut};
ghost use Rattle.world_steps.specs.Moved.{IsPlainPut};
ghost use Rattle.world_steps.specs.Rows.{EndsOr};
ghost use Rattle.serial_model.specs.declared.end.End.TheVariants as ends;

use crate::leaving::{Settling, finish, prepare};
use crate::sends::settle_send;
use core_syntax::NodeId;
use eval_step::Machine;
use serial_model::{End, Entry, Request};
use shared_world::Given;
use std::alloc::{AllocError, Global};
use unit_table::{UnitKind, Units};
use value_core::name_map::find;
use value_core::{Name, Text, Value, Values};
use world_steps::{Kept, Marks, add_actor, idle};

/// A plain unit that a turn forks: its name, its machine, and the number of units with it.
#[derive(Drop)]
pub(crate) struct Child {
    pub(crate) name: Name,
    pub(crate) machine: Machine,
    pub(crate) units: u32,
}

/// The request, where it is the first that the turn holds, is settled. What is never held is taken for want of memory.
pub(crate) fn settle_request(
    kept: &mut Kept,
    alloc: Global,
    name: &Name,
    request: Request,
) -> Result<Given, AllocError>
    requires opened { IsOpen (shared_of kept.old) name.now }
    ensures { FirstComes (shared_of kept.old) name.now request (shared_of kept.new) result }
{
    match request {
        Request::Print(text) => settle_print(kept, alloc, name, &text),
        Request::NewRef(content) => settle_new_ref(kept, alloc, name, content),
        Request::Spawn(behaviour, state) => settle_spawn(kept, alloc, name, behaviour, state),
        Request::Fork(body, values) => settle_fork(kept, alloc, name, body, values),
        Request::Send(to, args) => settle_send(kept, alloc, name, &to, args),
        Request::Become(_, _state) => settle_alone(kept, alloc, name),
        Request::SelfActor => settle_alone(kept, alloc, name),
        Request::Deref(_name) => Err(AllocError),
        Request::RefSet(_name, _value) => Err(AllocError),
        Request::Join(_name) => Err(AllocError),
        Request::Dosync(_, _values) => Err(AllocError),
    }
}

/// A print.
fn settle_print(
    kept: &mut Kept,
    alloc: Global,
    name: &Name,
    text: &Text,
) -> Result<Given, AllocError>
    requires opened { IsOpen (shared_of kept.old) name.now }
    ensures { FirstComes (shared_of kept.old) name.now (requests.Print text.now) (shared_of kept.new) result }
{
    let settling = prepare(kept, alloc, name)?;
    kept.output.extend_from_slice(text.items())?;
    Ok(finish(kept, name, settling))
}

/// What is told, and does nothing else.
fn settle_alone(kept: &mut Kept, alloc: Global, name: &Name) -> Result<Given, AllocError>
    requires opened { IsOpen (shared_of kept.old) name.now }
    ensures { (request : Requested) → is_told_alone request ≡ true → FirstComes (shared_of kept.old) name.now request (shared_of kept.new) result }
{
    let settling = prepare(kept, alloc, name)?;
    Ok(finish(kept, name, settling))
}

/// A new ref.
fn settle_new_ref(
    kept: &mut Kept,
    alloc: Global,
    name: &Name,
    content: Value,
) -> Result<Given, AllocError>
    requires opened { IsOpen (shared_of kept.old) name.now }
    ensures { FirstComes (shared_of kept.old) name.now (requests.NewRef content) (shared_of kept.new) result }
{
    let made = next_made(kept, alloc, name)?;
    let (writes, number) = kept.first_version(alloc, made, content)?;
    let settling = prepare(kept, alloc, name)?;
    kept.store.reserve(alloc, &writes)?;
    kept.store.commit(writes, number);
    Ok(finish(kept, name, settling))
}

/// The next thing that the turn had made where the history left it. A turn that is nowhere is taken for want of memory.
fn next_made(kept: &Kept, alloc: Global, name: &Name) -> Result<Name, AllocError>
    ensures { IfOk result (IsNextMade (shared_of kept.now) name.now) }
{
    match find(&kept.aheads, name) {
        Some(turn) => name.child(alloc, turn.left_made()),
        None => Err(AllocError),
    }
}

/// A new actor, which is idle.
fn settle_spawn(
    kept: &mut Kept,
    alloc: Global,
    name: &Name,
    behaviour: u32,
    state: Values,
) -> Result<Given, AllocError>
    requires opened { IsOpen (shared_of kept.old) name.now }
    ensures { FirstComes (shared_of kept.old) name.now (requests.Spawn behaviour state) (shared_of kept.new) result }
{
    let made = next_new(kept, alloc, name)?;
    let settling = prepare(kept, alloc, name)?;
    add_actor(
        &mut kept.units,
        alloc,
        &kept.mails,
        &made,
        idle(behaviour, state),
    );
    Ok(finish(kept, name, settling))
}

/// The next thing that the turn had made there, and room for it.
fn next_new(kept: &mut Kept, alloc: Global, name: &Name) -> Result<Name, AllocError>
    ensures same { IsSameBut (shared_of kept.old) (shared_of kept.new) }
    ensures others { kept.new ≡ record kept.old { units = kept.new.units } }
    ensures made { IfOk result (IsNextMade (shared_of kept.old) name.now) }
    ensures none { IfOk result (λ made. piece_at kept.new.units made ≡ None) }
    ensures place { IfOk result (λ made. HasPlace kept.new.units made) }
{
    let made = next_made(kept, alloc, name)?;
    kept.reserve_new(alloc, &made)?;
    Ok(made)
}

/// A new unit, where the limit allows one more.
fn settle_fork(
    kept: &mut Kept,
    alloc: Global,
    name: &Name,
    body: NodeId,
    values: Values,
) -> Result<Given, AllocError>
    requires opened { IsOpen (shared_of kept.old) name.now }
    ensures { FirstComes (shared_of kept.old) name.now (requests.Fork body values) (shared_of kept.new) result }
{
    if kept.made == kept.limits.units() {
        return end_units(kept, alloc, name);
    }
    let child = child_of(kept, alloc, name, body, values)?;
    add_child(kept, alloc, name, child)
}

/// The run ends: there are as many units as the limit allows.
fn end_units(kept: &mut Kept, alloc: Global, name: &Name) -> Result<Given, AllocError>
    ensures { EndsOr (shared_of kept.old) name.now ends.UnitsSpent (shared_of kept.new) result }
{
    kept.make_room()?;
    let entry = Entry::Run(name.copy(alloc)?);
    let told = entry.copy(alloc)?;
    Ok(kept.end_with(Marks { entry, told }, End::UnitsSpent))
}

/// The unit that the turn forks, and room for it.
fn child_of(
    kept: &mut Kept,
    alloc: Global,
    name: &Name,
    body: NodeId,
    values: Values,
) -> Result<Child, AllocError>
    ensures same { IsSameBut (shared_of kept.old) (shared_of kept.new) }
    ensures others { kept.new ≡ record kept.old { units = kept.new.units } }
    ensures child { IfOk result (IsChild (shared_of kept.new) name.now body values) }
{
    let units = kept.made.checked_add(1).ok_or(AllocError)?;
    let made = next_new(kept, alloc, name)?;
    let machine = Machine::start(alloc, body, values, false, kept.limits.fuel())?;
    Ok(Child {
        name: made,
        machine,
        units,
    })
}

/// The turn forks that unit.
fn add_child(kept: &mut Kept, alloc: Global, name: &Name, child: Child) -> Result<Given, AllocError>
    requires opened { IsOpen (shared_of kept.old) name.now }
    requires child { IsChild (shared_of kept.old) name.now child.machine.body child.machine.values child }
    ensures { ForksOr (shared_of kept.old) name.now child.machine.body child.machine.values (shared_of kept.new) result }
{
    let settling = prepare(kept, alloc, name)?;
    let Child {
        name: made,
        machine,
        units,
    } = child;
    add_plain(&mut kept.units, alloc, made, machine);
    kept.made = units;
    Ok(finish(kept, name, settling))
}

/// Adds a plain unit under the name, for which there is a place. It takes no memory.
fn add_plain(units: &mut Units, alloc: Global, name: Name, machine: Machine)
    requires none { piece_at units.old name ≡ None }
    requires place { HasPlace units.old name }
    ensures added { IsPlainPut name machine units.old units.new }
    ensures claims { SameClaims units.old units.new }
    ensures places { (other : Called) → HasPlace units.old other → HasPlace units.new other }
{
    match units.add_unit(alloc, name, UnitKind::Plain, machine) {
        Ok(()) => {}
        Err(_) => unreachable!(),
    }
}
