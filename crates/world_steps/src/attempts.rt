// How an attempt begins, and how its tasks go.
ghost use Rattle.std.specs.Prelude.{◌≡◌, ◌<◌, ◌∷◌, [], IfOk, IfSome, OnErr, OnOk, Some, None, length};
ghost use Rattle.std.specs.Arc.{arc_value};
ghost use Rattle.std.specs.Option.{option_copied, IsSome};
ghost use Rattle.eval_step.specs.Evaluation.{IsAsking};
ghost use Rattle.world_steps.specs.Kept.{shared_of, IsSameBut, IsUnitOf};
ghost use Rattle.world_steps.specs.Rows.{BeginsOr, Comes};
ghost use Rattle.world_steps.specs.Trying.{AreTrying, HasRoot, HasRootRoom, HasTried, IsTree};
ghost use Rattle.serial_model.specs.declared.halt.Halt.TheVariants as halts;
ghost use Rattle.serial_model.specs.declared.request.Request.TheVariants as requests;
ghost use Rattle.shared_world.specs.rows.Leading.{mark_ahead};
ghost use Rattle.shared_world.specs.Shared.{actor_of};
ghost use Rattle.shared_world.specs.Stands.{Stands};
ghost use Rattle.unit_table.specs.Board.{piece_at, unit_at, HasPlace, IsPutAt, SameClaims};
ghost use Rattle.unit_table.specs.declared.mark.Mark.TheVariants as marks;
ghost use Rattle.unit_table.specs.declared.mark.WaitOn.TheVariants as waits;
ghost use Rattle.unit_table.specs.declared.mark.Work.TheVariants as works;
ghost use Rattle.unit_table.specs.declared.piece.Piece.TheVariants as pieces;
ghost use Rattle.value_core.specs.Named.{Name as Called, named};

use crate::kept::{Kept, move_to};
use attempt_names::{Trying, trying_names};
use core_syntax::NodeId;
use eval_step::Machine;
use shared_world::Given;
use std::alloc::{AllocError, Global};
use task_fork_join::Tree;
use unit_table::{Mark, UnitKind, Units, WaitOn, Work};
use value_core::name_map::{find, put};
use value_core::{Name, Place, Values};

impl Kept {
    /// An attempt at the unit's transaction begins.
    pub(crate) fn begin(
        &mut self,
        alloc: Global,
        name: &Name,
        moved: Machine,
        body: NodeId,
        values: Values,
        at: Place,
    ) -> Result<Given, AllocError>
        requires stands { Stands (shared_of self.old) }
        requires unit { IsUnitOf (shared_of self.old) name.now moved }
        requires asks { IsAsking moved }
        requires body { body.index < length (arc_value self.old.program).nodes }
        ensures { Comes (shared_of self.old) name.now (halts.Ask (requests.Dosync body values) at) (shared_of self.new) result }
    {
        self.begin_marked(alloc, name, moved, body, values, at, false)
    }

    /// An attempt at the unit's transaction begins. The unit waits for the root of that; or where what it holds can be settled, it is
    /// ready for that. For want of memory nothing changes but room.
    pub fn begin_marked(
        &mut self,
        alloc: Global,
        name: &Name,
        moved: Machine,
        body: NodeId,
        values: Values,
        at: Place,
        settles: bool,
    ) -> Result<Given, AllocError>
        requires stands { Stands (shared_of self.old) }
        requires unit { IsUnitOf (shared_of self.old) name.now moved }
        requires body { body.index < length (arc_value self.old.program).nodes }
        ensures { BeginsOr (shared_of self.old) name.now body values at settles (shared_of self.new) result }
    {
        let begun = self.try_with(alloc, name, body, values, at)?;
        Ok(self.wait_for_root(alloc, name, moved, begun, settles))
    }

    /// The attempt is there, and room for its root. For want of memory nothing has changed but room.
    fn try_with(
        &mut self,
        alloc: Global,
        name: &Name,
        body: NodeId,
        values: Values,
        at: Place,
    ) -> Result<Trying, AllocError>
        requires there { IsSome (unit_at self.old.units name.now) }
        requires body { body.index < length (arc_value self.old.program).nodes }
        ensures tried { IfOk result (HasTried (shared_of self.old) self.new name.now body values at) }
        ensures same { OnErr result (IsSameBut (shared_of self.old) (shared_of self.new)) }
    {
        let trying = self.trying(alloc, name)?;
        let tree = self.new_tree(alloc, name, &trying, body, values, at)?;
        let key = name.copy(alloc)?;
        put(&mut self.attempts, key, tree)?;
        Ok(trying)
    }

    /// The names of an attempt of the unit, which has none, and room for its root.
    fn trying(&mut self, alloc: Global, name: &Name) -> Result<Trying, AllocError>
        requires there { IsSome (unit_at self.old.units name.now) }
        ensures same { IsSameBut (shared_of self.old) (shared_of self.new) }
        ensures others { self.new ≡ record self.old { units = self.new.units; owners = self.new.owners } }
        ensures trying { IfOk result (AreTrying self.new name.now) }
    {
        self.check_free(name)?;
        let trying = trying_names(alloc, name, self.made_of(name), &self.history)?;
        self.reserve_new(alloc, &trying.root)?;
        self.owners.prepare(trying.root.copy(alloc)?)?;
        Ok(trying)
    }

    /// The unit has no attempt. Where it has one, of which no claim knows, it is taken for want of memory.
    fn check_free(&self, name: &Name) -> Result<(), AllocError>
        ensures { OnOk result (named name.now self.now.attempts.entries ≡ None) }
    {
        match find(&self.attempts, name) {
            Some(_) => Err(AllocError),
            None => Ok(()),
        }
    }

    /// A tree of the root alone, which is to evaluate that body.
    fn new_tree(
        &self,
        alloc: Global,
        name: &Name,
        trying: &Trying,
        body: NodeId,
        values: Values,
        at: Place,
    ) -> Result<Tree, AllocError>
        requires there { IsSome (unit_at self.now.units name.now) }
        requires body { body.index < length (arc_value self.now.program).nodes }
        ensures { IfOk result (IsTree (shared_of self.now) name.now trying.now body values at) }
    {
        let actor = self.actor_with(alloc, name)?;
        let root = trying.root.copy(alloc)?;
        let fuel = self.limits.fuel();
        let machine = Machine::start(alloc, body, values, true, fuel)?;
        Tree::new(alloc, root, machine, actor, trying.snapshot, fuel, at)
    }

    /// The actor whose turn the unit is, where it is one.
    pub(crate) fn actor_with(&self, alloc: Global, name: &Name) -> Result<Option<Name>, AllocError>
        requires there { IsSome (unit_at self.now.units name.now) }
        ensures { IfOk result (λ actor. IfSome (unit_at self.now.units name.now) (λ x. actor ≡ actor_of x.kind)) }
    {
        match self.units.unit(name) {
            Some(unit) => match &unit.kind {
                UnitKind::Turn(actor) => Ok(Some(actor.copy(alloc)?)),
                UnitKind::Main | UnitKind::Plain => Ok(None),
            },
            None => Ok(None),
        }
    }

    /// The root of the attempt can go on, and its unit waits for it, or is ready to settle what it holds. It takes no memory.
    fn wait_for_root(
        &mut self,
        alloc: Global,
        name: &Name,
        moved: Machine,
        trying: Trying,
        settles: bool,
    ) -> Given
        requires unit { IsUnitOf (shared_of self.old) name.now moved }
        requires room { HasRootRoom self.old name.now trying }
        ensures waits { HasRoot (shared_of self.old) name.now moved trying settles (shared_of self.new) result }
    {
        let made = self.made_of(name);
        let Trying {
            root,
            wait,
            owner,
            snapshot,
        } = trying;
        add_task(&mut self.units, alloc, &root);
        self.owners.fill(&root, owner);
        move_to(&mut self.units, name, moved, made, mark_of(settles, wait));
        Given::Began { snapshot }
    }
}

/// That it is ready to settle, or waits for the finish of that one.
fn mark_of(settles: bool, wait: Name) -> Mark
    ensures { result ≡ mark_ahead settles (marks.Waiting (waits.Finish wait)) }
{
    if settles {
        Mark::Ready(Work::Settle)
    } else {
        Mark::Waiting(WaitOn::Finish(wait))
    }
}

/// Adds a task under the name, for which there is a place.
pub fn add_task(units: &mut Units, alloc: Global, name: &Name)
    requires none { piece_at units.old name.now ≡ None }
    requires place { HasPlace units.old name.now }
    ensures added { IsPutAt name.now (Some (pieces.Task (marks.Ready works.Eval))) units.old units.new }
    ensures claims { SameClaims units.old units.new }
    ensures places { (other : Called) → HasPlace units.old other → HasPlace units.new other }
{
    match units.add_task(alloc, name) {
        Ok(()) => {}
        Err(_) => unreachable!(),
    }
}
