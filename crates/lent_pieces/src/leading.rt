// What comes of a result of a turn that runs ahead of the history, or of an actor that begins one.
ghost use Rattle.std.specs.Prelude.{◌≡◌, IfOk, IfSome, None, true};
ghost use Rattle.std.specs.Arc.{arc_value};
ghost use Rattle.std.specs.Option.{IsSome};
ghost use Rattle.lent_pieces.specs.Giving.{HasHalted, IsMovedOn, IsOpenUnit};
ghost use Rattle.lent_pieces.specs.Leading.{GivesLead, GivesLive, GoesAhead, IsSettling};
ghost use Rattle.shared_world.specs.Marks.{AreMarked};
ghost use Rattle.shared_world.specs.Returned.{IsSameMachine};
ghost use Rattle.shared_world.specs.rows.Leading.{is_to_settle};
ghost use Rattle.shared_world.specs.Shared.{kept_machine};
ghost use Rattle.shared_world.specs.Stands.{Stands};
ghost use Rattle.value_core.specs.Named.{named};
ghost use Rattle.world_claim.specs.Lent.{IsMachineOf};
ghost use Rattle.world_steps.specs.Kept.{shared_of};

use crate::giving::{Moved, give_to, moved_on};
use actor_turns::take_ahead;
use ahead_settling::settle_next;
use ahead_steps::{check_definite, go_ahead};
use eval_step::Machine;
use serial_model::Halt;
use shared_world::Given;
use std::alloc::{AllocError, Global};
use unit_table::Work;
use value_core::Name;
use world_steps::Kept;

/// What the piece comes to that was lent for that work, whose machine, as it was lent, was given back, with the halt to which it was
/// evaluated, where it was. For want of memory the history is as it was, and the piece as it was, or ready to settle.
pub(crate) fn give_piece(
    kept: &mut Kept,
    alloc: Global,
    name: &Name,
    work: Work,
    machine: Option<Machine>,
    halt: Option<Halt>,
) -> Result<Given, AllocError>
    requires stands { Stands (shared_of kept.old) }
    requires marks { AreMarked (shared_of kept.old) }
    requires going { kept.old.end ≡ None }
    requires unfinished { IsOpenUnit kept.old.units name.now }
    requires same { IsSameMachine (kept_machine (shared_of kept.old) name.now) machine }
    requires of { IsMachineOf (arc_value kept.old.program) machine }
    requires halts { HasHalted (arc_value kept.old.program) machine halt }
    ensures { GivesLive (shared_of kept.old) name.now work (shared_of kept.new) result }
{
    if kept.runs_ahead(name) {
        return give_lead(kept, alloc, name, work, machine, halt);
    }
    if begins_ahead(kept, name, &machine) {
        lent_goes(machine, halt);
        return take_ahead(kept, alloc, name);
    }
    give_to(kept, alloc, name, machine, halt)
}

/// Whether the piece has no machine, and the first message that waits for it is not settled.
fn begins_ahead(kept: &Kept, name: &Name, machine: &Option<Machine>) -> bool {
    if machine.is_some() {
        return false;
    }
    match kept.mails.front(name) {
        Some(message) => message.depends.is_some(),
        None => false,
    }
}

/// What the turn comes to that runs ahead: where it is definite and was lent to settle, the next that it holds is settled; else it goes on.
fn give_lead(
    kept: &mut Kept,
    alloc: Global,
    name: &Name,
    work: Work,
    machine: Option<Machine>,
    halt: Option<Halt>,
) -> Result<Given, AllocError>
    requires stands { Stands (shared_of kept.old) }
    requires marks { AreMarked (shared_of kept.old) }
    requires going { kept.old.end ≡ None }
    requires unfinished { IsOpenUnit kept.old.units name.now }
    requires leads { IsSome (named name.now (shared_of kept.old).aheads) }
    requires same { IsSameMachine (kept_machine (shared_of kept.old) name.now) machine }
    requires of { IsMachineOf (arc_value kept.old.program) machine }
    requires halts { HasHalted (arc_value kept.old.program) machine halt }
    ensures { GivesLead (shared_of kept.old) name.now work (shared_of kept.new) result }
{
    match settles(kept, name, work) {
        Ok(true) => {
            lent_goes(machine, halt);
            settle_next(kept, alloc, name)
        }
        Ok(false) => go_on(kept, alloc, name, machine, halt),
        Err(error) => {
            lent_goes(machine, halt);
            Err(error)
        }
    }
}

/// Whether the turn is definite and was lent to settle what it holds. One that does not run ahead is taken for want of memory.
fn settles(kept: &Kept, name: &Name, work: Work) -> Result<bool, AllocError>
    ensures { IfOk result (IsSettling (shared_of kept.now) name.now work) }
{
    let definite = check_definite(kept, name)?;
    Ok(definite && is_to_settle(work))
}

/// Whether a piece was lent to settle something.
fn is_to_settle(work: Work) -> bool
    ensures { result ≡ is_to_settle work }
{
    match work {
        Work::Settle => true,
        Work::Eval | Work::Begin => false,
    }
}

/// The turn goes on ahead. One without a machine, of which no run knows, is taken for want of memory.
fn go_on(
    kept: &mut Kept,
    alloc: Global,
    name: &Name,
    machine: Option<Machine>,
    halt: Option<Halt>,
) -> Result<Given, AllocError>
    requires stands { Stands (shared_of kept.old) }
    requires unfinished { IsOpenUnit kept.old.units name.now }
    requires leads { IsSome (named name.now (shared_of kept.old).aheads) }
    requires same { IsSameMachine (kept_machine (shared_of kept.old) name.now) machine }
    requires of { IsMachineOf (arc_value kept.old.program) machine }
    requires halts { HasHalted (arc_value kept.old.program) machine halt }
    ensures { GoesAhead (shared_of kept.old) name.now (shared_of kept.new) result }
{
    match machine {
        Some(machine) => {
            let moved = moved_on(alloc, machine, halt, &kept.program)?;
            go_moved(kept, alloc, name, moved)
        }
        None => {
            drop(halt);
            Err(AllocError)
        }
    }
}

/// The turn whose machine was moved goes on ahead.
fn go_moved(kept: &mut Kept, alloc: Global, name: &Name, moved: Moved) -> Result<Given, AllocError>
    requires stands { Stands (shared_of kept.old) }
    requires unfinished { IsOpenUnit kept.old.units name.now }
    requires leads { IsSome (named name.now (shared_of kept.old).aheads) }
    requires moved { IfSome (kept_machine (shared_of kept.old) name.now) (λ m. IsMovedOn (arc_value kept.old.program) m moved) }
    ensures { GoesAhead (shared_of kept.old) name.now (shared_of kept.new) result }
{
    let Moved { machine, halt } = moved;
    go_ahead(kept, alloc, name, machine, halt)
}

/// Drops what was lent.
fn lent_goes(_machine: Option<Machine>, _halt: Option<Halt>) {}
