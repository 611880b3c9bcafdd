// What a result that is given back comes to.
ghost use Rattle.std.specs.Prelude.{◌≡◌, IfOk, IfSome, IsOk, None, Ok, OnOk, Some, false};
ghost use Rattle.std.specs.Option.{IsSome};
ghost use Rattle.std.specs.Arc.{arc_value};
ghost use Rattle.eval_step.specs.Evaluation.{IsOf};
ghost use Rattle.lent_pieces.specs.Back.{GivesBack, HasGiven};
ghost use Rattle.lent_pieces.specs.Claims.{FindsLive, IsAbandoned};
ghost use Rattle.lent_pieces.specs.Doomed.{FindsDoomed, IsDoomed, IsToAbort};
ghost use Rattle.lent_pieces.specs.Giving.{GivesTo, HasHalted, IsMovedOn, IsOpenUnit, IsStanderOf};
ghost use Rattle.world_steps.specs.Kept.{shared_of};
ghost use Rattle.attempt_deciding.specs.TaskAt.{IsTaskAt};
ghost use Rattle.attempt_steps.specs.Tasks.{IsOwned};
ghost use Rattle.attempts_gone.specs.Dropping.{HasAttempt};
ghost use Rattle.shared_world.specs.Marks.{AreMarked, HasMarks};
ghost use Rattle.shared_world.specs.Returned.{IsLive, IsSameMachine};
ghost use Rattle.shared_world.specs.Shared.{kept_machine};
ghost use Rattle.shared_world.specs.Stands.{Stands};
ghost use Rattle.unit_table.specs.Board.{unit_at};
ghost use Rattle.value_core.specs.Named.{named};
ghost use Rattle.world_claim.specs.Lent.{IsMachineOf};
ghost use Rattle.world_claim.specs.Run.{IsRunOf, returned_of};

use crate::claims::{abandon, claimed, live_name, live_piece};
use crate::leading::give_piece;
use actor_turns::give_actor;
use attempt_deciding::{abort_claimed, to_undo};
use attempt_steps::{settle_task, step_task};
use core_syntax::Program;
use eval_step::Machine;
use serial_model::Halt;
use shared_world::Given;
use std::alloc::{AllocError, Global};
use txn_commit::Conflict;
use unit_table::Piece;
use value_core::Name;
use value_core::name_map::find;
use world_claim::Parts;
use world_steps::Kept;

/// A machine that was moved, and where it halts.
#[derive(Drop)]
pub(crate) struct Moved {
    pub(crate) machine: Machine,
    pub(crate) halt: Halt,
}

/// What stands under a name: a unit, a task of the attempt of that unit, or an actor.
#[derive(Drop)]
pub(crate) enum Stander {
    Unit,
    Task(Name),
    Actor,
}

/// What a result with these parts comes to. It is Stale exactly where its claim is out no more, or what it was lent is not what is
/// kept. For want of memory its claim is out no more, and its piece is ready again; where an attempt is to be undone by it, it takes none.
pub fn give(kept: &mut Kept, alloc: Global, parts: Parts) -> Result<Given, AllocError>
    requires stands { Stands (shared_of kept.old) }
    requires marks { HasMarks (shared_of kept.old) }
    requires run { IsRunOf (returned_of (arc_value kept.old.program) parts) }
    ensures gives { GivesBack (shared_of kept.old) (returned_of (arc_value kept.old.program) parts) (shared_of kept.new) result }
    ensures aborts { IsToAbort (shared_of kept.old) (returned_of (arc_value kept.old.program) parts) → IsOk result }
{
    match doomed(kept, &parts) {
        Some(conflict) => Ok(give_doomed(kept, alloc, parts, conflict)),
        None => give_on(kept, alloc, parts),
    }
}

/// Why the attempt is to be undone of whose task that is the result, where it is live and that is so. It takes no memory. The machines
/// are compared last, which may cost most, and only where there is a reason.
fn doomed(kept: &Kept, parts: &Parts) -> Option<Conflict>
    ensures { FindsDoomed (shared_of kept.now) (returned_of (arc_value kept.now.program) parts.now) result }
{
    let name = claimed(kept, parts.ticket)?;
    let conflict = to_undo(kept, name)?;
    let _live = live_name(kept, parts.ticket, parts.work, &parts.machine)?;
    Some(conflict)
}

/// What a result comes to by which an attempt is undone. It takes no memory.
fn give_doomed(kept: &mut Kept, alloc: Global, parts: Parts, conflict: Conflict) -> Given
    requires stands { Stands (shared_of kept.old) }
    requires marks { HasMarks (shared_of kept.old) }
    requires doomed { IsDoomed (shared_of kept.old) (returned_of (arc_value kept.old.program) parts) conflict }
    ensures { HasGiven (shared_of kept.old) (returned_of (arc_value kept.old.program) parts) (shared_of kept.new) result }
{
    let ticket = parts.ticket;
    drop_parts(parts);
    abort_claimed(kept, alloc, ticket, conflict)
}

/// What any other result comes to.
fn give_on(kept: &mut Kept, alloc: Global, parts: Parts) -> Result<Given, AllocError>
    requires stands { Stands (shared_of kept.old) }
    requires marks { HasMarks (shared_of kept.old) }
    requires run { IsRunOf (returned_of (arc_value kept.old.program) parts) }
    ensures { GivesBack (shared_of kept.old) (returned_of (arc_value kept.old.program) parts) (shared_of kept.new) result }
{
    match live_piece(kept, alloc, parts.ticket, parts.work, &parts.machine) {
        Ok(found) => give_found(kept, alloc, found, parts),
        Err(error) => {
            leave(kept, parts);
            Err(error)
        }
    }
}

/// What a result comes to that is live under that name, or under none.
fn give_found(
    kept: &mut Kept,
    alloc: Global,
    found: Option<Name>,
    parts: Parts,
) -> Result<Given, AllocError>
    requires stands { Stands (shared_of kept.old) }
    requires marks { HasMarks (shared_of kept.old) }
    requires run { IsRunOf (returned_of (arc_value kept.old.program) parts) }
    requires found { FindsLive (shared_of kept.old) parts.ticket parts.work parts.machine found }
    ensures { GivesBack (shared_of kept.old) (returned_of (arc_value kept.old.program) parts) (shared_of kept.new) result }
{
    match found {
        Some(name) => give_live(kept, alloc, &name, parts),
        None => {
            leave(kept, parts);
            Ok(Given::Stale)
        }
    }
}

/// The claim of the parts ends, where it is out. It takes no memory.
fn leave(kept: &mut Kept, parts: Parts)
    ensures { IsAbandoned parts.ticket (shared_of kept.old) (shared_of kept.new) }
{
    let ticket = parts.ticket;
    drop_parts(parts);
    abandon(kept, ticket);
}

/// What a result that is live under that name comes to.
fn give_live(kept: &mut Kept, alloc: Global, name: &Name, parts: Parts) -> Result<Given, AllocError>
    requires stands { Stands (shared_of kept.old) }
    requires marks { HasMarks (shared_of kept.old) }
    requires run { IsRunOf (returned_of (arc_value kept.old.program) parts) }
    requires live { IsLive (shared_of kept.old) (returned_of (arc_value kept.old.program) parts) name.now }
    ensures { GivesBack (shared_of kept.old) (returned_of (arc_value kept.old.program) parts) (shared_of kept.new) result }
{
    let Parts {
        ticket,
        work,
        machine,
        halt,
    } = parts;
    kept.units.claims_are_tied();
    match give_piece(kept, alloc, name, work, machine, halt) {
        Ok(found) => given(found),
        Err(error) => {
            abandon(kept, ticket);
            kept.units.claims_are_tied();
            Err(error)
        }
    }
}

/// What the piece comes to whose machine, as it was lent, was given back, with the halt to which it was evaluated, where it
/// was. It is no turn that runs ahead of the history, and begins none: either is taken for want of memory. For want of memory the
/// history is as it was, and the piece as it was, or ready to settle.
pub fn give_to(
    kept: &mut Kept,
    alloc: Global,
    name: &Name,
    machine: Option<Machine>,
    halt: Option<Halt>,
) -> Result<Given, AllocError>
    requires stands { Stands (shared_of kept.old) }
    requires marks { AreMarked (shared_of kept.old) }
    requires going { kept.old.end ≡ None }
    requires unfinished { IsOpenUnit kept.old.units name.now }
    requires same { IsSameMachine (kept_machine (shared_of kept.old) name.now) machine }
    requires of { IsMachineOf (arc_value kept.old.program) machine }
    requires halts { HasHalted (arc_value kept.old.program) machine halt }
    ensures { GivesTo (shared_of kept.old) name.now (shared_of kept.new) result }
{
    match machine {
        Some(machine) => {
            let moved = moved_on(alloc, machine, halt, &kept.program)?;
            give_moved(kept, alloc, name, moved)
        }
        None => {
            drop(halt);
            give_ended(kept, alloc, name)
        }
    }
}

/// What the piece comes to whose machine was moved.
fn give_moved(
    kept: &mut Kept,
    alloc: Global,
    name: &Name,
    moved: Moved,
) -> Result<Given, AllocError>
    requires stands { Stands (shared_of kept.old) }
    requires marks { AreMarked (shared_of kept.old) }
    requires going { kept.old.end ≡ None }
    requires unfinished { IsOpenUnit kept.old.units name.now }
    requires moved { IfSome (kept_machine (shared_of kept.old) name.now) (λ m. IsMovedOn (arc_value kept.old.program) m moved) }
    requires there { IsSome (kept_machine (shared_of kept.old) name.now) }
    ensures { GivesTo (shared_of kept.old) name.now (shared_of kept.new) result }
{
    let Ok(stander) = stander_of(kept, alloc, name) else {
        drop(moved);
        return Err(AllocError);
    };
    match stander {
        Stander::Unit => kept.give_unit(alloc, name, moved.machine, moved.halt),
        Stander::Task(owner) => { step_task(kept, alloc, &owner, name, moved.machine, moved.halt) }
        Stander::Actor => {
            drop(moved);
            Err(AllocError)
        }
    }
}

/// What the piece comes to that has no machine: an actor takes a message; a task has ended, where the root of its attempt
/// has. Another one, of which no claim knows, is taken for want of memory.
fn give_ended(kept: &mut Kept, alloc: Global, name: &Name) -> Result<Given, AllocError>
    requires stands { Stands (shared_of kept.old) }
    requires marks { AreMarked (shared_of kept.old) }
    requires going { kept.old.end ≡ None }
    requires none { kept_machine (shared_of kept.old) name.now ≡ None }
    ensures { GivesTo (shared_of kept.old) name.now (shared_of kept.new) result }
{
    match stander_of(kept, alloc, name)? {
        Stander::Unit => Err(AllocError),
        Stander::Task(owner) => settle_task(kept, alloc, &owner, name),
        Stander::Actor => give_actor(kept, alloc, name),
    }
}

/// What stands under the name. What no claim knows is taken for want of memory.
fn stander_of(kept: &Kept, alloc: Global, name: &Name) -> Result<Stander, AllocError>
    ensures { IfOk result (IsStanderOf (shared_of kept.now) name.now) }
{
    match kept.units.piece(name) {
        Some(Piece::Unit(_)) => level_unit(kept, name),
        Some(Piece::Task(_)) => Ok(Stander::Task(owner_of(kept, alloc, name)?)),
        Some(Piece::Actor(_)) => Ok(Stander::Actor),
        None => Err(AllocError),
    }
}

/// A unit that stands where the history left it. One that runs ahead is taken for want of memory.
fn level_unit(kept: &Kept, name: &Name) -> Result<Stander, AllocError>
    requires { IsSome (unit_at kept.now.units name.now) }
    ensures { IfOk result (IsStanderOf (shared_of kept.now) name.now) }
{
    check_level(kept, name)?;
    Ok(Stander::Unit)
}

/// No turn of that name runs ahead.
fn check_level(kept: &Kept, name: &Name) -> Result<(), AllocError>
    ensures { OnOk result (named name.now (shared_of kept.now).aheads ≡ None) }
{
    match find(&kept.aheads, name) {
        Some(_) => Err(AllocError),
        None => Ok(()),
    }
}

/// The unit whose attempt the task is of.
fn owner_of(kept: &Kept, alloc: Global, task: &Name) -> Result<Name, AllocError>
    requires { IsTaskAt kept.now.units task.now }
    ensures { IfOk result (IsOwned (shared_of kept.now) task.now) }
{
    match kept.owners.get(task) {
        Some(owner) => {
            check_attempt(kept, owner)?;
            owner.copy(alloc)
        }
        None => Err(AllocError),
    }
}

/// The unit is there, and has an attempt.
fn check_attempt(kept: &Kept, owner: &Name) -> Result<(), AllocError>
    ensures { OnOk result (HasAttempt (shared_of kept.now) owner.now) }
{
    match (kept.units.unit(owner), find(&kept.attempts, owner)) {
        (Some(_), Some(_)) => Ok(()),
        _ => Err(AllocError),
    }
}

/// The machine as it was moved, and where it halts. A machine that was not evaluated is run on to there.
pub(crate) fn moved_on(
    alloc: Global,
    machine: Machine,
    halt: Option<Halt>,
    program: &Program,
) -> Result<Moved, AllocError>
    requires of { IsOf program.now machine }
    requires halted { HasHalted program.now (Some machine) halt }
    ensures { IfOk result (IsMovedOn program.now machine) }
{
    match halt {
        Some(halt) => Ok(Moved { machine, halt }),
        None => run_on_to(alloc, machine, program),
    }
}

/// The machine is run on to where it halts.
fn run_on_to(alloc: Global, mut machine: Machine, program: &Program) -> Result<Moved, AllocError>
    requires { IsOf program.now machine }
    ensures { IfOk result (IsMovedOn program.now machine) }
{
    let halt = machine.run_to_ask(alloc, program)?;
    Ok(Moved { machine, halt })
}

/// Drops the parts of a result.
fn drop_parts(_parts: Parts) {}

/// What was found is given.
fn given(found: Given) -> Result<Given, AllocError>
    ensures { result ≡ Ok found }
{
    Ok(found)
}
