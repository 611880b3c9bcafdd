// What a unit comes to.
ghost use Rattle.std.specs.Prelude.{◌≡◌, ◌<◌, ◌∷◌, [], IfOk, IfSome, OnOk, Some, None, length, suc};
ghost use Rattle.std.specs.Option.{option_copied, IsSome};
ghost use Rattle.std.specs.Arc.{arc_value};
ghost use Rattle.eval_step.specs.Evaluation.{IsAsking};
ghost use Rattle.ref_store.specs.Store.{versions_of};
ghost use Rattle.world_steps.specs.Kept.{shared_of, IsSameBut, IsUnitOf};
ghost use Rattle.world_steps.specs.Moved.{IsBegun, IsForking, IsMadeNext, IsPlainPut};
ghost use Rattle.world_steps.specs.Rows.{Comes, EndsOr, ForksOr, PlainOr, Replies, WaitsOr};
ghost use Rattle.serial_model.specs.declared.end.End.TheVariants as ends;
ghost use Rattle.serial_model.specs.declared.halt.Halt.TheVariants as halts;
ghost use Rattle.serial_model.specs.declared.request.Request.TheVariants as requests;
ghost use Rattle.shared_world.specs.Shared.{finished_at, finished_by, ref_now};
ghost use Rattle.shared_world.specs.Stands.{Stands};
ghost use Rattle.unit_table.specs.Board.{piece_at, unit_at, HasPlace, SameClaims};
ghost use Rattle.value_core.specs.Named.{Name as Called};

use crate::kept::{Kept, Marks, append, marks_of, move_to};
use core_syntax::NodeId;
use eval_step::Machine;
use ref_store::Writes;
use serial_model::End;
use shared_world::Given;
use std::alloc::{AllocError, Global};
use unit_table::{Mark, UnitKind, Units, WaitOn};
use value_core::{Code, Name, Place, Text, Value, Values};

impl Kept {
    /// How many things the unit has made.
    pub fn made_of(&self, name: &Name) -> u32
        requires { IsSome (unit_at self.now.units name.now) }
        ensures { IfSome (unit_at self.now.units name.now) (λ x. result ≡ x.made) }
    {
        match self.units.unit(name) {
            Some(unit) => unit.made,
            None => unreachable!(),
        }
    }

    /// A print.
    pub(crate) fn print(
        &mut self,
        alloc: Global,
        name: &Name,
        moved: Machine,
        text: &Text,
        at: Place,
    ) -> Result<Given, AllocError>
        requires stands { Stands (shared_of self.old) }
        requires unit { IsUnitOf (shared_of self.old) name.now moved }
        requires asks { IsAsking moved }
        ensures { Comes (shared_of self.old) name.now (halts.Ask (requests.Print text.now) at) (shared_of self.new) result }
    {
        let made = self.made_of(name);
        let ready = self.prepare(alloc, name, moved, Value::Nil)?;
        self.output.extend_from_slice(text.items())?;
        Ok(self.settle(name, ready, made))
    }

    /// The unit is answered with that value.
    pub(crate) fn reply(
        &mut self,
        alloc: Global,
        name: &Name,
        moved: Machine,
        value: Value,
    ) -> Result<Given, AllocError>
        requires stands { Stands (shared_of self.old) }
        requires unit { IsUnitOf (shared_of self.old) name.now moved }
        requires asks { IsAsking moved }
        ensures { Replies (shared_of self.old) name.now value (shared_of self.new) result }
    {
        let made = self.made_of(name);
        let ready = self.prepare(alloc, name, moved, value)?;
        Ok(self.settle(name, ready, made))
    }

    /// The value of a ref.
    pub(crate) fn deref(
        &mut self,
        alloc: Global,
        name: &Name,
        moved: Machine,
        asked: &Name,
        at: Place,
    ) -> Result<Given, AllocError>
        requires stands { Stands (shared_of self.old) }
        requires unit { IsUnitOf (shared_of self.old) name.now moved }
        requires asks { IsAsking moved }
        ensures { Comes (shared_of self.old) name.now (halts.Ask (requests.Deref asked.now) at) (shared_of self.new) result }
    {
        let value = self.value_now(alloc, asked)?;
        self.reply(alloc, name, moved, value)
    }

    /// What the ref holds now. A ref that is not there, of which no run knows, is taken for want of memory.
    fn value_now(&self, alloc: Global, asked: &Name) -> Result<Value, AllocError>
        ensures { IfOk result (λ value. ref_now self.now.store.versions asked.now ≡ Some value) }
    {
        match self.store.newest(asked) {
            Some(version) => version.value.copy(alloc),
            None => Err(AllocError),
        }
    }

    /// A new ref.
    pub(crate) fn new_ref(
        &mut self,
        alloc: Global,
        name: &Name,
        moved: Machine,
        content: Value,
        at: Place,
    ) -> Result<Given, AllocError>
        requires stands { Stands (shared_of self.old) }
        requires unit { IsUnitOf (shared_of self.old) name.now moved }
        requires asks { IsAsking moved }
        ensures { Comes (shared_of self.old) name.now (halts.Ask (requests.NewRef content) at) (shared_of self.new) result }
    {
        let Made {
            name: made,
            told,
            count,
        } = made_next(alloc, name, self.made_of(name))?;
        let (writes, number) = self.first_version(alloc, made, content)?;
        let ready = self.prepare(alloc, name, moved, Value::Ref(told))?;
        self.store.reserve(alloc, &writes)?;
        self.store.commit(writes, number);
        Ok(self.settle(name, ready, count))
    }

    /// The first version of the ref, as the next entry has it: its write, and the number of that entry. Where the ref has a version already, of
    /// which no run knows, it is taken for want of memory.
    pub fn first_version(
        &self,
        alloc: Global,
        made: Name,
        content: Value,
    ) -> Result<(Writes, u64), AllocError>
        ensures none { OnOk result (versions_of self.now.store.versions made ≡ []) }
        ensures write { IfOk result (λ version. version.0.items ≡ (made, content) ∷ []) }
        ensures number { IfOk result (λ version. version.1 ≡ suc (length self.now.history.items)) }
    {
        self.check_new_ref(&made)?;
        let number = self.next_number()?;
        Ok((one_write(alloc, made, content)?, number))
    }

    /// The ref has no version yet. Where it has one, of which no run knows, it is taken for want of memory.
    fn check_new_ref(&self, made: &Name) -> Result<(), AllocError>
        ensures { OnOk result (versions_of self.now.store.versions made.now ≡ []) }
    {
        match self.store.newest(made) {
            Some(_) => Err(AllocError),
            None => Ok(()),
        }
    }

    /// The number of the entry that comes next, from one.
    pub fn next_number(&self) -> Result<u64, AllocError>
        ensures { IfOk result (λ number. number ≡ suc (length self.now.history.items)) }
    {
        let length = u64::try_from(self.history.entries().len()).map_err(|_| AllocError)?;
        length.checked_add(1).ok_or(AllocError)
    }

    /// The run ends so.
    pub(crate) fn end_run(
        &mut self,
        alloc: Global,
        name: &Name,
        end: End,
    ) -> Result<Given, AllocError>
        ensures { EndsOr (shared_of self.old) name.now end (shared_of self.new) result }
    {
        self.make_room()?;
        let marks = marks_of(alloc, name)?;
        Ok(self.end_with(marks, end))
    }

    /// A form of the unit fails.
    pub fn fail(
        &mut self,
        alloc: Global,
        name: &Name,
        code: Code,
        at: Place,
    ) -> Result<Given, AllocError>
        ensures { EndsOr (shared_of self.old) name.now (ends.Fault code at name.now) (shared_of self.new) result }
    {
        let unit = name.copy(alloc)?;
        self.end_run(alloc, name, End::Fault { code, at, unit })
    }

    /// The unit's fuel is spent.
    pub fn spend(&mut self, alloc: Global, name: &Name) -> Result<Given, AllocError>
        ensures { EndsOr (shared_of self.old) name.now (ends.Spent name.now) (shared_of self.new) result }
    {
        let unit = name.copy(alloc)?;
        self.end_run(alloc, name, End::Spent { unit })
    }

    /// The value of a unit that is finished, or the wait for it.
    pub(crate) fn join(
        &mut self,
        alloc: Global,
        name: &Name,
        moved: Machine,
        future: Name,
        at: Place,
    ) -> Result<Given, AllocError>
        requires stands { Stands (shared_of self.old) }
        requires unit { IsUnitOf (shared_of self.old) name.now moved }
        requires asks { IsAsking moved }
        ensures { Comes (shared_of self.old) name.now (halts.Ask (requests.Join future) at) (shared_of self.new) result }
    {
        match value_of(&self.units, &future) {
            Some(value) => {
                let value = value.copy(alloc)?;
                self.reply(alloc, name, moved, value)
            }
            None => self.wait(alloc, name, moved, future),
        }
    }

    /// The unit waits for the finish of that one. Where nothing stands under that name, of which no run knows, it is taken for
    /// want of memory.
    fn wait(
        &mut self,
        alloc: Global,
        name: &Name,
        moved: Machine,
        future: Name,
    ) -> Result<Given, AllocError>
        requires stands { Stands (shared_of self.old) }
        requires unit { IsUnitOf (shared_of self.old) name.now moved }
        ensures { WaitsOr (shared_of self.old) name.now future (shared_of self.new) result }
    {
        let told = future.copy(alloc)?;
        self.check_place(&future)?;
        let made = self.made_of(name);
        move_to(
            &mut self.units,
            name,
            moved,
            made,
            Mark::Waiting(WaitOn::Finish(future)),
        );
        Ok(Given::Waiting(WaitOn::Finish(told)))
    }

    /// Something stands under the name.
    pub fn check_place(&self, name: &Name) -> Result<(), AllocError>
        ensures { OnOk result (HasPlace self.now.units name.now) }
    {
        match self.units.piece(name) {
            Some(_) => Ok(()),
            None => Err(AllocError),
        }
    }

    /// At its value a unit is finished, and the actor whose turn it was is free.
    pub(crate) fn finish_unit(
        &mut self,
        alloc: Global,
        name: &Name,
        moved: Machine,
        value: Value,
    ) -> Result<Given, AllocError>
        requires stands { Stands (shared_of self.old) }
        requires unit { IsUnitOf (shared_of self.old) name.now moved }
        ensures { Comes (shared_of self.old) name.now (halts.Value value) (shared_of self.new) result }
    {
        match self.actor_with(alloc, name)? {
            Some(actor) => self.finish_turn(alloc, name, moved, value, &actor),
            None => self.finish_plain(alloc, name, moved, value),
        }
    }

    /// At its value a unit that is no turn is finished.
    fn finish_plain(
        &mut self,
        alloc: Global,
        name: &Name,
        moved: Machine,
        value: Value,
    ) -> Result<Given, AllocError>
        requires stands { Stands (shared_of self.old) }
        requires unit { IsUnitOf (shared_of self.old) name.now moved }
        ensures { PlainOr (shared_of self.old) name.now value (shared_of self.new) result }
    {
        self.make_room()?;
        let Marks { entry, told } = marks_of(alloc, name)?;
        let made = self.made_of(name);
        move_to(&mut self.units, name, moved, made, Mark::Finished(value));
        append(&mut self.history, entry);
        Ok(Given::Settled(told))
    }

    /// A new unit, where the limit allows one more.
    pub(crate) fn fork(
        &mut self,
        alloc: Global,
        name: &Name,
        moved: Machine,
        body: NodeId,
        values: Values,
        at: Place,
    ) -> Result<Given, AllocError>
        requires stands { Stands (shared_of self.old) }
        requires unit { IsUnitOf (shared_of self.old) name.now moved }
        requires asks { IsAsking moved }
        requires body { body.index < length (arc_value self.old.program).nodes }
        ensures { Comes (shared_of self.old) name.now (halts.Ask (requests.Fork body values) at) (shared_of self.new) result }
    {
        if self.made == self.limits.units() {
            drop_machine(moved);
            return self.end_run(alloc, name, End::UnitsSpent);
        }
        let forking = self.forking(alloc, name)?;
        let child = Machine::start(alloc, body, values, false, self.limits.fuel())?;
        self.add_child(alloc, name, moved, forking, child)
    }

    /// The name of what the unit makes next, and room for it.
    fn forking(&mut self, alloc: Global, name: &Name) -> Result<Forking, AllocError>
        requires there { IsSome (unit_at self.old.units name.now) }
        ensures same { IsSameBut (shared_of self.old) (shared_of self.new) }
        ensures others { self.new ≡ record self.old { units = self.new.units } }
        ensures forking { IfOk result (IsForking (shared_of self.new) name.now) }
    {
        let units = self.made.checked_add(1).ok_or(AllocError)?;
        let made = made_next(alloc, name, self.made_of(name))?;
        self.reserve_new(alloc, &made.name)?;
        Ok(Forking { made, units })
    }

    /// The unit makes a new one that this machine evaluates.
    fn add_child(
        &mut self,
        alloc: Global,
        name: &Name,
        moved: Machine,
        forking: Forking,
        child: Machine,
    ) -> Result<Given, AllocError>
        requires stands { Stands (shared_of self.old) }
        requires unit { IsUnitOf (shared_of self.old) name.now moved }
        requires asks { IsAsking moved }
        requires forking { IsForking (shared_of self.old) name.now forking }
        requires begins { IsBegun (shared_of self.old).setup child }
        ensures { ForksOr (shared_of self.old) name.now child.body child.values (shared_of self.new) result }
    {
        let Forking { made, units } = forking;
        let Made {
            name: made,
            told,
            count,
        } = made;
        let ready = self.prepare(alloc, name, moved, Value::Future(told))?;
        add_plain(&mut self.units, alloc, made, child);
        self.made = units;
        Ok(self.settle(name, ready, count))
    }

    /// Makes room for a piece under the name, where nothing stands. Where something does, of which no run knows, it is taken
    /// for want of memory.
    pub fn reserve_new(&mut self, alloc: Global, name: &Name) -> Result<(), AllocError>
        ensures same { IsSameBut (shared_of self.old) (shared_of self.new) }
        ensures others { self.new ≡ record self.old { units = self.new.units } }
        ensures none { OnOk result (piece_at self.new.units name.now ≡ None) }
        ensures place { OnOk result (HasPlace self.new.units name.now) }
        ensures places { (other : Called) → HasPlace self.old.units other → HasPlace self.new.units other }
    {
        match self.units.piece(name) {
            Some(_) => Err(AllocError),
            None => self.units.reserve(alloc, name),
        }
    }
}

/// The unit that is forked next, for which there is room, and the number of units with it.
#[derive(Drop)]
pub(crate) struct Forking {
    pub(crate) made: Made,
    pub(crate) units: u32,
}

/// The next thing that a unit makes, twice, and how many things it has made then.
#[derive(Drop)]
pub(crate) struct Made {
    pub(crate) name: Name,
    pub(crate) told: Name,
    pub(crate) count: u32,
}

/// The next thing that the unit makes, which has made so many.
pub(crate) fn made_next(alloc: Global, name: &Name, made: u32) -> Result<Made, AllocError>
    ensures { IfOk result (IsMadeNext name.now made) }
{
    let count = made.checked_add(1).ok_or(AllocError)?;
    let next = name.child(alloc, made)?;
    let told = next.copy(alloc)?;
    Ok(Made {
        name: next,
        told,
        count,
    })
}

/// That write alone.
fn one_write(alloc: Global, name: Name, value: Value) -> Result<Writes, AllocError>
    ensures { IfOk result (λ writes. writes.items ≡ (name, value) ∷ []) }
{
    let mut writes = Writes::new(alloc);
    writes.put(name, value)?;
    Ok(writes)
}

/// Adds a plain unit under the name, for which there is a place.
fn add_plain(units: &mut Units, alloc: Global, name: Name, machine: Machine)
    requires none { piece_at units.old name ≡ None }
    requires place { HasPlace units.old name }
    ensures added { IsPlainPut name machine units.old units.new }
    ensures claims { SameClaims units.old units.new }
    ensures places { (other : Called) → HasPlace units.old other → HasPlace units.new other }
{
    match units.add_unit(alloc, name, UnitKind::Plain, machine) {
        Ok(()) => {}
        Err(_) => unreachable!(),
    }
}

/// The value of the unit, where it is finished.
pub fn value_of<'a>(units: &'a Units, name: &Name) -> Option<&'a Value>
    ensures { option_copied result ≡ finished_at units.now name.now }
{
    match units.unit(name) {
        Some(unit) => value_in(&unit.mark),
        None => None,
    }
}

/// The value of a piece of that mark, where it is finished.
fn value_in(mark: &Mark) -> Option<&Value>
    ensures { option_copied result ≡ finished_by mark.now }
{
    match mark {
        Mark::Finished(value) => Some(value),
        Mark::Ready(_) | Mark::Waiting(_) | Mark::Resting | Mark::Dropped => None,
    }
}

/// Drops a machine.
pub(crate) fn drop_machine(_machine: Machine) {}
