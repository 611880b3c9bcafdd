// Where the history left a unit that runs ahead of it.
ghost use Rattle.std.specs.Prelude.{◌≡◌, IfOk, OnOk};
ghost use Rattle.core_syntax.specs.Table.{Table};
ghost use Rattle.eval_step.specs.Evaluation.{IsAsking, IsOf};
ghost use Rattle.turns_ahead.specs.Leading.{ahead_of};
ghost use Rattle.world_reset.specs.Left.{HasGoneOn, IsLeft, IsLeftMachine, LeadsTo};

use core_syntax::Program;
use eval_step::Machine;
use serial_model::{Halt, Request};
use std::alloc::{AllocError, Global};
use tentative_turn::{count_made, foretell};
use turns_ahead::TurnAhead;
use unit_table::{Becoming, Unit, UnitKind};
use value_core::Name;

/// Where the history left a unit: its machine, how many things it had made, and what its actor was to become.
#[derive(Drop)]
pub(crate) struct Left {
    pub(crate) machine: Machine,
    pub(crate) made: u32,
    pub(crate) becomes: Option<Becoming>,
}

/// Where the history left the turn.
pub(crate) fn left_of(
    program: &Program,
    alloc: Global,
    name: &Name,
    unit: &Unit,
    lead: &TurnAhead,
) -> Result<Left, AllocError>
    ensures { IfOk result (IsLeft program.now unit.now (ahead_of lead.now)) }
{
    let becomes = lead.left_becomes()?;
    let machine = left_machine(program, alloc, name, unit, lead.left_answers())?;
    Ok(Left {
        machine,
        made: lead.left_made(),
        becomes,
    })
}

/// The turn's machine with the first of its answers alone, so many of them. A turn that runs ahead has done so since it began, and so
/// each of its answers can be told again; where one cannot, which there is none of, it is taken for want of memory.
fn left_machine(
    program: &Program,
    alloc: Global,
    name: &Name,
    unit: &Unit,
    answers: u64,
) -> Result<Machine, AllocError>
    ensures { IfOk result (IsLeftMachine program.now answers unit.now.machine) }
{
    match &unit.kind {
        UnitKind::Turn(actor) => told_again(program, alloc, name, actor, &unit.machine, answers),
        UnitKind::Main | UnitKind::Plain => Err(AllocError),
    }
}

/// The machine of that turn of the actor with the first of its answers alone, so many of them.
fn told_again(
    program: &Program,
    alloc: Global,
    turn: &Name,
    actor: &Name,
    machine: &Machine,
    answers: u64,
) -> Result<Machine, AllocError>
    ensures { IfOk result (IsLeftMachine program.now answers machine.now) }
{
    let mut again = machine.again(alloc, program)?;
    let made = go_by(&mut again, program, alloc, turn, actor, answers)?;
    let left = again.copy(alloc)?;
    go_to(again, program, alloc, turn, actor, made, machine)?;
    Ok(left)
}

/// The machine goes on by so many answers, each of which can be told. How many things the turn has made then.
fn go_by(
    machine: &mut Machine,
    program: &Program,
    alloc: Global,
    turn: &Name,
    actor: &Name,
    answers: u64,
) -> Result<u32, AllocError>
    requires { IsOf program.now machine.old }
    ensures { OnOk result (HasGoneOn program.now answers machine.old machine.new) }
{
    let mut made = 0;
    for given in 0..answers {
        made = go_on(machine, program, alloc, turn, actor, made)?;
    }
    Ok(made)
}

/// The machine goes on, by answers each of which can be told, until it has the answers of the other one.
fn go_to(
    mut machine: Machine,
    program: &Program,
    alloc: Global,
    turn: &Name,
    actor: &Name,
    mut made: u32,
    other: &Machine,
) -> Result<(), AllocError>
    requires { IsOf program.now machine }
    ensures { OnOk result (LeadsTo machine other.now) }
{
    for _ in 0..u64::MAX {
        if machine.same(other) {
            return Ok(());
        }
        made = go_on(&mut machine, program, alloc, turn, actor, made)?;
    }
    Err(AllocError)
}

/// The machine goes on by one answer, which can be told of the turn, which has made so many things. How many it has made then.
fn go_on(
    machine: &mut Machine,
    program: &Program,
    alloc: Global,
    turn: &Name,
    actor: &Name,
    made: u32,
) -> Result<u32, AllocError>
    requires { IsOf program.now machine.old }
    ensures { OnOk result (HasGoneOn program.now 1 machine.old machine.new) }
{
    match machine.run_to_ask(alloc, program)? {
        Halt::Ask(request, _) => {
            let told = tell(machine, alloc, turn, actor, made, &request);
            drop(request);
            told
        }
        Halt::Value(_) | Halt::Fault(_, _) | Halt::Spent => Err(AllocError),
    }
}

/// The machine, which asks for that, is told the answer, where it can be told of the turn, which has made so many things. How many it has
/// made then.
fn tell(
    machine: &mut Machine,
    alloc: Global,
    turn: &Name,
    actor: &Name,
    made: u32,
    request: &Request,
) -> Result<u32, AllocError>
    requires { IsAsking machine.old }
    ensures { OnOk result ((program : Table) → IsOf program machine.old → HasGoneOn program 1 machine.old machine.new) }
{
    let answer = foretell(alloc, turn, actor, made, request)?.ok_or(AllocError)?;
    machine.answer(alloc, answer)?;
    made.checked_add(count_made(request)).ok_or(AllocError)
}
