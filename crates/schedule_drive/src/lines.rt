//! What comes of each line of a schedule.
ghost use Rattle.std.specs.Prelude.{◌≡◌, ◌&&◌, IfOk, OnErr, not, true};
ghost use Rattle.lent_pieces.specs.Claims.{IsClaimOn};
ghost use Rattle.schedule_drive.specs.Drive.{can_go, can_turn, has_result, is_actor, Comes, IsClaimedAndRun, IsLater, IsRunAndGiven};
ghost use Rattle.schedule_drive.specs.UnderWay.{stage, AreOf, ComesAlone};
ghost use Rattle.schedule_text.specs.declared.line.Line.TheVariants as line;
ghost use Rattle.shared_world.specs.Gave.{Gave};
ghost use Rattle.shared_world.specs.Shared.{ready};

use crate::kept::{is_kept, keep, take};
use core_syntax::Program;
use interleave_core::World;
use schedule_report::Told;
use schedule_text::Line;
use shared_world::Given;
use std::alloc::{AllocError, Global};
use std::collections::BTreeMap;
use value_core::Name;
use world_claim::{Claim, Done};

/// Does the line, and says what came of it.
pub(crate) fn do_line(
    world: &mut World,
    kept: &mut BTreeMap<Name, Done>,
    alloc: Global,
    program: &Program,
    line: &Line,
) -> Result<Told, AllocError>
    requires program { program.now ≡ world.old.setup.program }
    requires of { AreOf world.old.setup.program kept.old.entries }
    ensures came { IfOk result (λ said. Comes line.now (stage world.old kept.old.entries) said (stage world.new kept.new.entries)) }
    ensures of { IfOk result (λ said. AreOf world.old.setup.program kept.new.entries) }
    ensures later { OnErr result (IsLater world.old world.new) }
{
    match line {
        Line::Go(name) => go(world, alloc, program, name),
        Line::Hold(name) => hold(world, kept, alloc, program, name),
        Line::Back(name) => back(world, kept, alloc, name),
        Line::Turn(name) => turn(world, alloc, program, name),
    }
}

/// Claims the unit or task, runs it, and gives it.
fn go(world: &mut World, alloc: Global, program: &Program, name: &Name) -> Result<Told, AllocError>
    requires { program.now ≡ world.old.setup.program }
    ensures came { IfOk result (λ said. ComesAlone (line.Go name.now) world.old said world.new) }
    ensures later { OnErr result (IsLater world.old world.new) }
{
    if !can_go(world, name) {
        return Ok(Told::NotReady);
    }
    let found = run_and_give(world, alloc, program, name)?;
    Ok(Told::Answered(found))
}

/// Claims the actor, and gives it.
fn turn(
    world: &mut World,
    alloc: Global,
    program: &Program,
    name: &Name,
) -> Result<Told, AllocError>
    requires { program.now ≡ world.old.setup.program }
    ensures came { IfOk result (λ said. ComesAlone (line.Turn name.now) world.old said world.new) }
    ensures later { OnErr result (IsLater world.old world.new) }
{
    if !can_turn(world, name) {
        return Ok(Told::NotReady);
    }
    let found = run_and_give(world, alloc, program, name)?;
    Ok(Told::Answered(found))
}

/// Claims the unit or task, runs it, and keeps the result.
fn hold(
    world: &mut World,
    kept: &mut BTreeMap<Name, Done>,
    alloc: Global,
    program: &Program,
    name: &Name,
) -> Result<Told, AllocError>
    requires program { program.now ≡ world.old.setup.program }
    requires of { AreOf world.old.setup.program kept.old.entries }
    ensures came { IfOk result (λ said. Comes (line.Hold name.now) (stage world.old kept.old.entries) said (stage world.new kept.new.entries)) }
    ensures of { IfOk result (λ said. AreOf world.old.setup.program kept.new.entries) }
    ensures later { OnErr result (IsLater world.old world.new) }
{
    if !can_hold(world, kept, name) {
        return Ok(Told::NotReady);
    }
    let done = claim_and_run(world, alloc, program, name)?;
    keep(alloc, kept, name, done)?;
    Ok(Told::Kept)
}

/// Gives the result that is kept under the name.
fn back(
    world: &mut World,
    kept: &mut BTreeMap<Name, Done>,
    alloc: Global,
    name: &Name,
) -> Result<Told, AllocError>
    requires { AreOf world.old.setup.program kept.old.entries }
    ensures came { IfOk result (λ said. Comes (line.Back name.now) (stage world.old kept.old.entries) said (stage world.new kept.new.entries)) }
    ensures of { IfOk result (λ said. AreOf world.old.setup.program kept.new.entries) }
    ensures later { OnErr result (IsLater world.old world.new) }
{
    match take(kept, name) {
        Some(done) => {
            let found = give(world, alloc, done)?;
            Ok(Told::Answered(found))
        }
        None => Ok(Told::NotReady),
    }
}

/// Claims the piece, which is ready, runs it, and gives it.
fn run_and_give(
    world: &mut World,
    alloc: Global,
    program: &Program,
    name: &Name,
) -> Result<Given, AllocError>
    requires program { program.now ≡ world.old.setup.program }
    requires ready { ready world.old name.now ≡ true }
    ensures given { IfOk result (λ found. IsRunAndGiven name.now world.old found world.new) }
    ensures later { OnErr result (IsLater world.old world.new) }
{
    let done = claim_and_run(world, alloc, program, name)?;
    give(world, alloc, done)
}

/// Gives the result.
#[tactic(auto, using(crate::proofs::Wants::back_later))]
fn give(world: &mut World, alloc: Global, done: Done) -> Result<Given, AllocError>
    requires { done.program ≡ world.old.setup.program }
    ensures gave { IfOk result (λ found. Gave world.old done found world.new) }
    ensures later { OnErr result (IsLater world.old world.new) }
{
    match world.give(alloc, done) {
        Ok(found) => Ok(found),
        Err(_) => Err(AllocError),
    }
}

/// Claims the piece, which is ready, and runs it. Where there is no memory to run it, its claim is abandoned.
fn claim_and_run(
    world: &mut World,
    alloc: Global,
    program: &Program,
    name: &Name,
) -> Result<Done, AllocError>
    requires program { program.now ≡ world.old.setup.program }
    requires ready { ready world.old name.now ≡ true }
    ensures run { IfOk result (λ done. IsClaimedAndRun name.now world.old done world.new) }
    ensures later { OnErr result (IsLater world.old world.new) }
{
    let claim = claim(world, alloc, name)?;
    match claim.run(alloc, program) {
        Ok(done) => Ok(done),
        Err(ticket) => {
            world.abandon(ticket);
            Err(AllocError)
        }
    }
}

/// Claims the piece, which is ready.
#[tactic(auto, using(crate::proofs::Wants::same_later))]
fn claim(world: &mut World, alloc: Global, name: &Name) -> Result<Claim, AllocError>
    requires { ready world.old name.now ≡ true }
    ensures claim { IfOk result (λ claim. IsClaimOn name.now world.old claim world.new) }
    ensures later { OnErr result (IsLater world.old world.new) }
{
    match world.claim_named(alloc, name) {
        Ok(claim) => Ok(claim),
        Err(_) => Err(AllocError),
    }
}

/// Whether a unit or a task of that name is ready.
fn can_go(world: &World, name: &Name) -> bool
    ensures { result ≡ can_go world.now name.now }
{
    world.is_ready(name) && !is_actor(world, name)
}

/// Whether an actor of that name is ready.
fn can_turn(world: &World, name: &Name) -> bool
    ensures { result ≡ can_turn world.now name.now }
{
    world.is_ready(name) && is_actor(world, name)
}

/// Whether a unit or a task of that name is ready, and no result is kept under it.
fn can_hold(world: &World, kept: &BTreeMap<Name, Done>, name: &Name) -> bool
    ensures { result ≡ (can_go world.now name.now && not (has_result kept.now.entries name.now)) }
{
    can_go(world, name) && !is_kept(kept, name)
}

/// Whether an actor stands under the name.
fn is_actor(world: &World, name: &Name) -> bool
    ensures { result ≡ is_actor world.now name.now }
{
    world.actor_now(name).is_some()
}
