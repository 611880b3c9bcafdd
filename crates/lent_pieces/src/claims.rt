// Claims that are given out, and claims that end.
ghost use Rattle.std.specs.Prelude.{◌≡◌, ◌↔◌, IfOk, IsTrue, OnErr, Some, true};
ghost use Rattle.std.specs.Option.{option_and_then, option_copied, option_map};
ghost use Rattle.lent_pieces.specs.Claims.{FindsLive, IsAbandoned, IsClaimOn, IsKeptSo};
ghost use Rattle.world_steps.specs.Kept.{shared_of, IsSameBut};
ghost use Rattle.shared_world.specs.Returned.{IsSameMachine};
ghost use Rattle.shared_world.specs.Shared.{claimed, kept_machine, machine_in, ready, tree_with, work_in};
ghost use Rattle.shared_world.specs.Stands.{Stands};
ghost use Rattle.task_fork_join.specs.Attempt.{machine_of};
ghost use Rattle.unit_table.specs.Board.{marks_ready};
ghost use Rattle.unit_table.specs.Piece.{mark_in};

use eval_step::Machine;
use std::alloc::{AllocError, Global};
use unit_table::{Mark, Piece, Work};
use value_core::name_map::find;
use value_core::{Name, Ticket};
use world_claim::Claim;
use world_steps::Kept;

/// A claim on the piece, which is ready. For want of memory nothing changes but room.
pub fn claim_piece(kept: &mut Kept, alloc: Global, name: &Name) -> Result<Claim, AllocError>
    requires stands { Stands (shared_of kept.old) }
    requires ready { ready (shared_of kept.old) name.now ≡ true }
    ensures claim { IfOk result (λ claim. IsClaimOn name.now (shared_of kept.old) claim (shared_of kept.new)) }
    ensures same { OnErr result (IsSameBut (shared_of kept.old) (shared_of kept.new)) }
{
    let found = kept.units.piece(name);
    let work = ready_work(found);
    let machine = copied(alloc, machine_in(kept, name, found))?;
    let program = kept.program.clone()?;
    let piece = name.copy(alloc)?;
    let ticket = kept.units.lend(name)?;
    Ok(Claim::new(program, piece, ticket, work, machine))
}

/// The claim of that ticket is out no more, where it was. It takes no memory.
pub fn abandon(kept: &mut Kept, ticket: Ticket)
    ensures { IsAbandoned ticket (shared_of kept.old) (shared_of kept.new) }
{
    kept.units.claims_are_tied();
    kept.units.lent_are_ready();
    kept.units.take_back(ticket);
}

/// The piece under whose name a result with these parts is live. None exactly where it is live under none.
pub(crate) fn live_piece(
    kept: &Kept,
    alloc: Global,
    ticket: Ticket,
    work: Work,
    machine: &Option<Machine>,
) -> Result<Option<Name>, AllocError>
    ensures { IfOk result (FindsLive (shared_of kept.now) ticket work machine.now) }
{
    match live_name(kept, ticket, work, machine) {
        Some(name) => Ok(Some(name.copy(alloc)?)),
        None => Ok(None),
    }
}

/// The name of that piece. It takes no memory.
pub(crate) fn live_name<'a>(
    kept: &'a Kept,
    ticket: Ticket,
    work: Work,
    machine: &Option<Machine>,
) -> Option<&'a Name>
    ensures { FindsLive (shared_of kept.now) ticket work machine.now (option_copied result) }
{
    let name = claimed(kept, ticket)?;
    if is_kept_so(kept, name, work, machine) {
        Some(name)
    } else {
        None
    }
}

/// The piece whose claim has that ticket and is out. Once the run has ended none is.
pub(crate) fn claimed(kept: &Kept, ticket: Ticket) -> Option<&Name>
    ensures { option_copied result ≡ claimed (shared_of kept.now) ticket }
{
    match &kept.end {
        None => kept.units.piece_of(ticket),
        Some(_) => None,
    }
}

/// Whether the work and the machine are those that are kept of the piece. It takes no memory.
fn is_kept_so(kept: &Kept, name: &Name, work: Work, machine: &Option<Machine>) -> bool
    ensures { IsTrue result ↔ IsKeptSo (shared_of kept.now) name.now work machine.now }
{
    let piece = kept.units.piece(name);
    is_for(piece, work) && is_same(machine_in(kept, name, piece), machine)
}

/// Whether that is what can be done with what was found.
fn is_for(found: Option<&Piece>, work: Work) -> bool
    ensures { IsTrue result ↔ (option_and_then work_in (option_map mark_in (option_copied found.entry)) ≡ Some work) }
{
    match work_of(found) {
        Some(can) => can == work,
        None => false,
    }
}

/// What can be done with what was found, which is ready.
fn ready_work(found: Option<&Piece>) -> Work
    requires { marks_ready (option_copied found) ≡ true }
    ensures { option_and_then work_in (option_map mark_in (option_copied found.entry)) ≡ Some result }
{
    match work_of(found) {
        Some(work) => work,
        None => unreachable!(),
    }
}

/// What can be done with what was found, where something can.
fn work_of(found: Option<&Piece>) -> Option<Work>
    ensures { result ≡ option_and_then work_in (option_map mark_in (option_copied found.entry)) }
{
    match found {
        Some(piece) => work_in(piece.mark()),
        None => None,
    }
}

/// An equal machine of the piece. None exactly where it has none.
pub fn copy_machine(kept: &Kept, alloc: Global, name: &Name) -> Result<Option<Machine>, AllocError>
    ensures { IfOk result (λ machine. machine ≡ kept_machine (shared_of kept.now) name.now) }
{
    copied(alloc, machine_in(kept, name, kept.units.piece(name)))
}

/// An equal machine, where there is one.
fn copied(alloc: Global, machine: Option<&Machine>) -> Result<Option<Machine>, AllocError>
    ensures { IfOk result (λ copy. copy ≡ option_copied machine.entry) }
{
    match machine {
        Some(machine) => Ok(Some(machine.copy(alloc)?)),
        None => Ok(None),
    }
}

/// The machine of what was found under the name, where it has one.
fn machine_in<'a>(kept: &'a Kept, name: &Name, found: Option<&'a Piece>) -> Option<&'a Machine>
    ensures { option_copied result ≡ option_and_then (machine_in (shared_of kept.now) name.now) (option_copied found.entry) }
{
    match found {
        Some(Piece::Unit(unit)) => Some(&unit.machine),
        Some(Piece::Task(_)) => task_machine(kept, name),
        Some(Piece::Actor(_)) | None => None,
    }
}

/// The machine of the task, where it has an attempt in which it goes on.
fn task_machine<'a>(kept: &'a Kept, name: &Name) -> Option<&'a Machine>
    ensures { option_copied result ≡ option_and_then (λ tree. machine_of tree name.now) (tree_with (shared_of kept.now) name.now) }
{
    let owner = kept.owners.get(name)?;
    let tree = find(&kept.attempts, owner)?;
    tree.machine(name)
}

/// What can be done with a piece of that mark. None exactly where nothing can.
pub fn work_in(mark: &Mark) -> Option<Work>
    ensures { result ≡ work_in mark.now }
{
    match mark {
        Mark::Ready(work) => Some(*work),
        Mark::Waiting(_) | Mark::Resting | Mark::Finished(_) | Mark::Dropped => None,
    }
}

/// Whether both are none, or machines that evaluate the same and have the same answers. It takes no memory.
fn is_same(kept: Option<&Machine>, lent: &Option<Machine>) -> bool
    ensures { IsTrue result ↔ IsSameMachine (option_copied kept.entry) lent.now }
{
    match (kept, lent) {
        (Some(kept), Some(lent)) => kept.same(lent),
        (None, None) => true,
        (Some(_), None) | (None, Some(_)) => false,
    }
}
