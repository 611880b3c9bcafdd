ghost use Rattle.std.specs.Prelude.{◌≡◌, IfOk};
ghost use Rattle.std.specs.Arc.{arc_value};
ghost use Rattle.eval_step.specs.Evaluation.{IsOf};

use crate::units::name;
use core_syntax::{Builder, Program};
use eval_step::Machine;
use serial_model::Halt;
use std::alloc::{AllocError, Global};
use std::sync::Arc;
use std::test::Fail;
use unit_table::Work;
use value_core::{Seq, Ticket, Value, Values};
use world_claim::{Claim, Done, Parts};

// The program of no forms.
fn nothing(alloc: Global) -> Result<Program, AllocError> {
    let builder = Builder::new(alloc);
    builder.finish(Seq::new(alloc), Seq::new(alloc), 0, Seq::new(alloc))
}

fn ticket() -> Ticket {
    Ticket {
        slot: 1,
        generation: 2,
    }
}

fn main_machine(alloc: Global, program: &Program) -> Result<Machine, AllocError>
    ensures { IfOk result (λ machine. IsOf program.now machine) }
{
    Machine::start(alloc, program.main(), Values::new(alloc), false, 10)
}

// A claim on main, for that work.
fn claim_of(alloc: Global, program: Arc<Program>, work: Work) -> Result<Claim, AllocError>
    ensures { IfOk result (λ claim. claim.program ≡ arc_value program) }
{
    let machine = main_machine(alloc, &program)?;
    let main = name(alloc, "0")?;
    Ok(Claim::new(program, main, ticket(), work, Some(machine)))
}

fn shared(alloc: Global) -> Result<Arc<Program>, AllocError> {
    let program = nothing(alloc)?;
    Ok(Arc::new(alloc, program)?)
}

// What comes of a claim on main, for that work.
fn ran(alloc: Global, program: &Arc<Program>, work: Work) -> Result<Done, AllocError> {
    let claim = claim_of(alloc, program.clone()?, work)?;
    match claim.run(alloc, program) {
        Ok(done) => Ok(done),
        Err(_) => Err(AllocError),
    }
}

fn done(alloc: Global, work: Work) -> Result<Done, AllocError> {
    let program = shared(alloc)?;
    ran(alloc, &program, work)
}

// The parts of a copy of what comes of a claim.
fn parts_of(alloc: Global, work: Work) -> Result<Parts, AllocError> {
    let done = done(alloc, work)?;
    let copied = done.copy(alloc)?;
    Ok(copied.into_parts())
}

fn is_of_claim(alloc: Global) -> Result<bool, AllocError> {
    let done = done(alloc, Work::Begin)?;
    Ok(done.ticket() == ticket() && done.work() == Work::Begin)
}

// What is claimed to be evaluated comes to its halt.
fn is_evaluated(alloc: Global) -> Result<bool, AllocError> {
    let parts = parts_of(alloc, Work::Eval)?;
    Ok(matches!(parts.halt, Some(Halt::Value(Value::Nil))))
}

// What is claimed to settle has its machine and no halt.
fn is_settled(alloc: Global) -> Result<bool, AllocError> {
    let parts = parts_of(alloc, Work::Settle)?;
    Ok(parts.work == Work::Settle && parts.machine.is_some() && parts.halt.is_none())
}

#[test]
fn claims_are_run(rt: HostRuntime) -> Result<(), Fail> {
    assert!(rt; is_of_claim(rt.alloc())?);
    assert!(rt; is_evaluated(rt.alloc())?);
    assert!(rt; is_settled(rt.alloc())?);
    Ok(())
}
