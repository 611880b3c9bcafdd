ghost use Rattle.std.specs.Prelude.{◌≡◌, IfSome, None};
ghost use mathlib.Core.List.{IsPrefix};
ghost use Rattle.interleave_core.specs.Grown.{IsDone};
ghost use Rattle.worker_rounds.specs.declared.rounds.Went.TheVariants as went;
ghost use Rattle.world_lock.specs.Known.{IsSeatOf};

use crate::gate::Gate;
use crate::holds::{Asked, Returned, Told, abandon_in, claim_in, give_in};
use core_syntax::Program;
use interleave_core::{ClaimNo, StepNo, World};
use shared_world::Given;
use std::alloc::Global;
use std::sync::Wait;
use world_claim::Claim;
use world_lock::{Seat, WorldLock};

/// What became of a worker's round.
#[derive(Clone, Copy, Debug, PartialEq, Eq)]
pub(crate) enum Went {
    /// An entry was settled.
    Settled,
    /// A step was done that the history does not see.
    On,
    /// There was nothing to claim.
    Idle,
    /// The run is over.
    Over,
    /// Memory is wanting.
    Memory,
}

/// A worker's seat after a round, what became of the round, and what was claimed for the next one.
#[derive(Drop)]
pub(crate) struct Round {
    pub(crate) seat: Seat<World>,
    pub(crate) went: Went,
    pub(crate) next: Option<Claim>,
}

/// A round: a claim, in a hold of its own unless it was made before, its evaluation outside of the lock, and its return in another hold.
pub(crate) fn do_round<R: Wait, G: Gate>(
    rt: &R,
    alloc: Global,
    lock: &WorldLock<World>,
    seat: Seat<World>,
    program: &Program,
    next: Option<Claim>,
    worker: u32,
    turn: u64,
    gate: &G,
) -> Round
    requires of { IsSeatOf lock.now seat }
    requires program { program.now ≡ lock.now.setup.0 }
    requires next { IfSome next (λ claim. claim.program ≡ lock.now.setup.0) }
    ensures of { IsSeatOf lock.now result.seat }
    ensures shares { result.seat.shares ≡ seat.shares }
    ensures seen { IsPrefix seat.seen result.seat.seen }
    ensures over { result.went ≡ went.Over → IsDone lock.now.setup result.seat.seen }
    ensures next { IfSome result.next (λ claim. claim.program ≡ lock.now.setup.0) }
{
    match next {
        Some(claim) => take_turn(rt, alloc, lock, seat, program, claim, worker, turn, gate),
        None => claim_and_take(rt, alloc, lock, seat, program, worker, turn, gate),
    }
}

/// A round that begins with a claim in a hold of its own.
fn claim_and_take<R: Wait, G: Gate>(
    rt: &R,
    alloc: Global,
    lock: &WorldLock<World>,
    seat: Seat<World>,
    program: &Program,
    worker: u32,
    turn: u64,
    gate: &G,
) -> Round
    requires of { IsSeatOf lock.now seat }
    requires program { program.now ≡ lock.now.setup.0 }
    ensures of { IsSeatOf lock.now result.seat }
    ensures shares { result.seat.shares ≡ seat.shares }
    ensures seen { IsPrefix seat.seen result.seat.seen }
    ensures over { result.went ≡ went.Over → IsDone lock.now.setup result.seat.seen }
    ensures next { IfSome result.next (λ claim. claim.program ≡ lock.now.setup.0) }
{
    let Asked { seat, found } = claim_in(rt, alloc, lock, seat);
    match found {
        Ok(claim) => take_turn(rt, alloc, lock, seat, program, claim, worker, turn, gate),
        Err(ClaimNo::Idle) => without_claim(seat, Went::Idle),
        Err(ClaimNo::Over) => without_claim(seat, Went::Over),
        Err(ClaimNo::Memory) => without_claim(seat, Went::Memory),
    }
}

/// A round that leaves nothing claimed.
fn without_claim(seat: Seat<World>, went: Went) -> Round
    ensures { result ≡ record { seat = seat; went = went; next = None } }
{
    Round {
        seat,
        went,
        next: None,
    }
}

/// Evaluates the claim, passes the gate, and gives the result back. A claim that finds no memory is abandoned.
fn take_turn<R: Wait, G: Gate>(
    rt: &R,
    alloc: Global,
    lock: &WorldLock<World>,
    seat: Seat<World>,
    program: &Program,
    claim: Claim,
    worker: u32,
    turn: u64,
    gate: &G,
) -> Round
    requires of { IsSeatOf lock.now seat }
    requires program { program.now ≡ lock.now.setup.0 }
    requires claim { claim.program ≡ lock.now.setup.0 }
    ensures of { IsSeatOf lock.now result.seat }
    ensures shares { result.seat.shares ≡ seat.shares }
    ensures seen { IsPrefix seat.seen result.seat.seen }
    ensures going { result.went ≡ went.Over → IsDone lock.now.setup result.seat.seen }
    ensures next { IfSome result.next (λ claim. claim.program ≡ lock.now.setup.0) }
{
    match claim.run(alloc, program) {
        Ok(done) => {
            gate.pass(worker, turn);
            told(give_in(rt, alloc, lock, seat, done))
        }
        Err(ticket) => without_claim(abandon_in(rt, lock, seat, ticket), Went::Memory),
    }
}

/// The round whose result was answered so.
fn told(told: Told) -> Round
    ensures seat { result.seat ≡ told.seat }
    ensures next { result.next ≡ told.returned.next }
    ensures going { result.went ≡ went.Over → ⊥ }
{
    let Told { seat, returned } = told;
    let Returned { answer, next } = returned;
    let went = match answer {
        Ok(Given::Settled(_)) => Went::Settled,
        Ok(_) => Went::On,
        Err(StepNo::Memory) => Went::Memory,
    };
    Round { seat, went, next }
}
