ghost use Rattle.std.specs.Prelude.{◌≡◌, IfOk, IfSome, IsErrOf};
ghost use mathlib.Core.List.{IsPrefix};
ghost use Rattle.interleave_core.specs.declared.error.ClaimNo.TheVariants as no;
ghost use Rattle.interleave_core.specs.Grown.{history_seen, setup_seen, IsDone};
ghost use Rattle.world_lock.specs.Known.{IsSeatOf};
ghost use Rattle.world_lock.specs.Later.{IsLater};

use interleave_core::{ClaimNo, StepNo, World};
use shared_world::Given;
use std::alloc::Global;
use std::sync::Wait;
use value_core::Ticket;
use world_claim::{Claim, Done};
use world_lock::{Seat, WorldLock};

/// A seat after a hold in which a claim was asked for, and what came of that.
#[derive(Drop)]
pub(crate) struct Asked {
    pub(crate) seat: Seat<World>,
    pub(crate) found: Result<Claim, ClaimNo>,
}

/// A seat after a hold in which a result was given back, and what came of that.
#[derive(Drop)]
pub(crate) struct Told {
    pub(crate) seat: Seat<World>,
    pub(crate) returned: Returned,
}

/// What the world answered to a result that was given back, and what was claimed next.
#[derive(Drop)]
pub(crate) struct Returned {
    pub(crate) answer: Result<Given, StepNo>,
    pub(crate) next: Option<Claim>,
}

/// Enters, claims a piece that is ready, and leaves.
pub(crate) fn claim_in<R: Wait>(
    rt: &R,
    alloc: Global,
    lock: &WorldLock<World>,
    seat: Seat<World>,
) -> Asked
    requires { IsSeatOf lock.now seat }
    ensures of { IsSeatOf lock.now result.seat }
    ensures shares { result.seat.shares ≡ seat.shares }
    ensures seen { IsPrefix seat.seen result.seat.seen }
    ensures program { IfOk result.found (λ claim. claim.program ≡ lock.now.setup.0) }
    ensures over { IsErrOf result.found no.Over → IsDone lock.now.setup result.seat.seen }
{
    let mut turn = lock.enter(rt, seat);
    let found = turn.value().claim(alloc);
    let seat = lock.leave(turn);
    Asked { seat, found }
}

/// Enters, gives the result back, claims a piece that is ready where nothing was settled, and leaves.
pub(crate) fn give_in<R: Wait>(
    rt: &R,
    alloc: Global,
    lock: &WorldLock<World>,
    seat: Seat<World>,
    done: Done,
) -> Told
    requires of { IsSeatOf lock.now seat }
    requires program { done.program ≡ lock.now.setup.0 }
    ensures of { IsSeatOf lock.now result.seat }
    ensures shares { result.seat.shares ≡ seat.shares }
    ensures seen { IsPrefix seat.seen result.seat.seen }
    ensures next { IfSome result.returned.next (λ claim. claim.program ≡ lock.now.setup.0) }
{
    let mut turn = lock.enter(rt, seat);
    let returned = give_and_claim(turn.value(), alloc, done);
    let seat = lock.leave(turn);
    Told { seat, returned }
}

/// Gives the result back. Where that settles nothing a piece that is ready is claimed at once, where one is: its evaluation needs no
/// further hold. Where an entry was settled, what the worker does between its holds comes first.
fn give_and_claim(world: &mut World, alloc: Global, done: Done) -> Returned
    requires { done.program ≡ world.old.setup.program }
    ensures later { IsLater setup_seen history_seen world.old world.new }
    ensures next { IfSome result.next (λ claim. claim.program ≡ world.old.setup.program) }
{
    let answer = world.give(alloc, done);
    let next = next_after(world, alloc, &answer);
    Returned { answer, next }
}

/// A claim on a piece that is ready, where the answer tells of a step that settled nothing and one can be had.
fn next_after(world: &mut World, alloc: Global, answer: &Result<Given, StepNo>) -> Option<Claim>
    ensures later { IsLater setup_seen history_seen world.old world.new }
    ensures next { IfSome result (λ claim. claim.program ≡ world.old.setup.program) }
{
    if settles_nothing(answer) {
        claim_next(world, alloc)
    } else {
        None
    }
}

/// Whether the answer tells of a step that settled nothing.
fn settles_nothing(answer: &Result<Given, StepNo>) -> bool {
    match answer {
        Ok(Given::Settled(_)) | Err(_) => false,
        Ok(_) => true,
    }
}

/// A claim on a piece that is ready, where one can be had.
fn claim_next(world: &mut World, alloc: Global) -> Option<Claim>
    ensures later { IsLater setup_seen history_seen world.old world.new }
    ensures next { IfSome result (λ claim. claim.program ≡ world.old.setup.program) }
{
    match world.claim(alloc) {
        Ok(claim) => Some(claim),
        Err(_) => None,
    }
}

/// Enters, abandons the claim of that ticket, and leaves.
pub(crate) fn abandon_in<R: Wait>(
    rt: &R,
    lock: &WorldLock<World>,
    seat: Seat<World>,
    ticket: Ticket,
) -> Seat<World>
    requires { IsSeatOf lock.now seat }
    ensures of { IsSeatOf lock.now result }
    ensures shares { result.shares ≡ seat.shares }
    ensures seen { IsPrefix seat.seen result.seen }
{
    let mut turn = lock.enter(rt, seat);
    turn.value().abandon(ticket);
    lock.leave(turn)
}
