ghost use Rattle.std.specs.Prelude.{◌≡◌, [], true, IfOk, IfSome, IsTrue};
ghost use Rattle.eval_step.specs.Evaluation.{IsOf};
ghost use Rattle.task_fork_join.specs.Attempt.{IsKept};
ghost use Rattle.task_fork_join.specs.Step.{HaltsAt};

use crate::samples::{BOTH, CHILD, FORKED, JOINED, sample};
use core_syntax::{NodeId, Program};
use eval_step::Machine;
use ref_store::Store;
use serial_model::{Answer, Effect, Halt, What};
use std::alloc::{AllocError, Global};
use std::test::Fail;
use task_fork_join::{Stepped, TaskEnd, Tree};
use task_log::list_effects;
use value_core::{Name, Place, Value, Values};

/// A machine that was moved to that halt.
#[derive(Drop)]
struct Moved {
    machine: Machine,
    halt: Halt,
}

fn name(alloc: Global, text: &str) -> Result<Name, AllocError> {
    Name::read(alloc, text.as_bytes()).map_err(|_| AllocError)
}

fn future(alloc: Global) -> Result<Value, AllocError> {
    Ok(Value::Future(name(alloc, "0.1.0")?))
}

/// A machine of the node with that index, or of main where there is none, inside a transaction.
fn begun(alloc: Global, program: &Program, index: u32) -> Result<Machine, AllocError>
    ensures of { IfOk result (IsOf program.now) }
    ensures inside { IfOk result (λ machine. machine.inside ≡ true) }
    ensures fuel { IfOk result (λ machine. machine.fuel ≡ 10) }
    ensures none { IfOk result (λ machine. machine.answers ≡ []) }
{
    let index = index.min(program.main().index);
    Machine::start(alloc, NodeId { index }, Values::new(alloc), true, 10)
}

/// An attempt of the root 0.1 alone, which evaluates the node with that index.
fn root_alone(alloc: Global, program: &Program, index: u32) -> Result<Tree, AllocError> {
    let machine = begun(alloc, program, index)?;
    let at = Place::new(1, 1);
    Tree::new(alloc, name(alloc, "0.1")?, machine, None, 0, 10, at)
}

/// Whether the machine asks, and is answered with the value.
fn is_answered(
    alloc: Global,
    program: &Program,
    machine: &mut Machine,
    value: &Value,
) -> Result<bool, AllocError>
    requires { IsOf program.now machine.old }
    ensures { IfOk result (λ _. IsOf program.now machine.new) }
{
    let value = value.copy(alloc)?;
    match machine.run_to_ask(alloc, program)? {
        Halt::Ask(_, _) => {
            machine.answer(alloc, Answer::Value(value))?;
            Ok(true)
        }
        _ => Ok(false),
    }
}

/// The machine is run to its halt.
fn run(alloc: Global, program: &Program, machine: Machine) -> Result<Moved, AllocError>
    requires { IsOf program.now machine }
    ensures { IfOk result (λ moved. HaltsAt moved.machine moved.halt) }
{
    let mut machine = machine;
    let halt = machine.run_to_ask(alloc, program)?;
    Ok(Moved { machine, halt })
}

/// A machine of the node with that index that was given these values, and run. None where it does not ask so often.
fn after(
    alloc: Global,
    program: &Program,
    index: u32,
    given: &[Value],
) -> Result<Option<Moved>, AllocError>
    ensures { IfOk result (λ moved. IfSome moved (λ moved. HaltsAt moved.machine moved.halt)) }
{
    let mut machine = begun(alloc, program, index)?;
    for value in given {
        if !is_answered(alloc, program, &mut machine, value)? {
            return Ok(None);
        }
    }
    Ok(Some(run(alloc, program, machine)?))
}

/// Whether the machine is as that which the tree keeps for the task.
fn is_kept(tree: &Tree, task: &Name, moved: &Machine) -> bool
    ensures { IsTrue result → IsKept task.now moved.now tree.now.tasks }
{
    match tree.machine(task) {
        Some(machine) => machine.same(moved),
        None => false,
    }
}

/// Steps the task by the machine. None where the tree keeps no such machine for it.
fn step(
    tree: &mut Tree,
    alloc: Global,
    task: &Name,
    moved: Moved,
) -> Result<Option<Stepped>, AllocError>
    requires { HaltsAt moved.machine moved.halt }
{
    if !is_kept(tree, task, &moved.machine) {
        return Ok(None);
    }
    let store = Store::new(alloc);
    let stepped = tree.step(alloc, task, moved.machine, moved.halt, &store, None)?;
    Ok(Some(stepped))
}

/// Steps the task of that name, which evaluates the node with that index and was given these values.
fn goes(
    tree: &mut Tree,
    alloc: Global,
    program: &Program,
    task: &str,
    index: u32,
    given: &[Value],
) -> Result<Option<Stepped>, AllocError> {
    let task = name(alloc, task)?;
    match after(alloc, program, index, given)? {
        Some(moved) => step(tree, alloc, &task, moved),
        None => Ok(None),
    }
}

/// Whether the name is that of the first child.
fn is_child(name: &Name) -> bool {
    name.parts() == [0, 1, 0].as_slice()
}

// The root forks its first child.
fn root_forks(
    tree: &mut Tree,
    alloc: Global,
    program: &Program,
    index: u32,
) -> Result<bool, AllocError> {
    match goes(tree, alloc, program, "0.1", index, &[])? {
        Some(Stepped::Forked(child)) => Ok(is_child(&child)),
        _ => Ok(false),
    }
}

// The root waits for its first child.
fn root_waits(
    tree: &mut Tree,
    alloc: Global,
    program: &Program,
    index: u32,
) -> Result<bool, AllocError> {
    let given = [future(alloc)?];
    match goes(tree, alloc, program, "0.1", index, given.as_slice())? {
        Some(Stepped::WaitJoin(child)) => Ok(is_child(&child)),
        _ => Ok(false),
    }
}

// The child prints, and is at its value.
fn child_goes(tree: &mut Tree, alloc: Global, program: &Program) -> Result<bool, AllocError> {
    let printed = goes(tree, alloc, program, "0.1.0", CHILD, &[])?;
    let given = [Value::Nil];
    let ended = goes(tree, alloc, program, "0.1.0", CHILD, given.as_slice())?;
    Ok(matches!(printed, Some(Stepped::Now)) && matches!(ended, Some(Stepped::Finished)))
}

// The root joins its child, and is at its value.
fn root_joins(tree: &mut Tree, alloc: Global, program: &Program) -> Result<bool, AllocError> {
    let before = [future(alloc)?];
    let joined = goes(tree, alloc, program, "0.1", JOINED, before.as_slice())?;
    let after = [future(alloc)?, Value::Nil];
    let ended = goes(tree, alloc, program, "0.1", JOINED, after.as_slice())?;
    Ok(matches!(joined, Some(Stepped::Now)) && matches!(ended, Some(Stepped::Finished)))
}

// The root is at its value, and has joined its child there.
fn root_closes(tree: &mut Tree, alloc: Global, program: &Program) -> Result<bool, AllocError> {
    let given = [future(alloc)?];
    let ended = goes(tree, alloc, program, "0.1", BOTH, given.as_slice())?;
    Ok(matches!(ended, Some(Stepped::Finished)))
}

/// Whether the effect is the first one of the first child, which prints 1.
fn is_childs_print(effect: &Effect) -> bool {
    match &effect.what {
        What::Bytes(bytes) => {
            is_child(&effect.task) && effect.number == 0 && bytes.items() == b"1\n".as_slice()
        }
        _ => false,
    }
}

/// Whether what the root has done is what its child did.
fn has_the_childs_print(tree: &Tree, alloc: Global) -> Result<bool, AllocError> {
    let effects = list_effects(alloc, tree.root().effects())?;
    Ok(match effects.as_slice() {
        [only] => is_childs_print(only),
        _ => false,
    })
}

fn joins_its_child(tree: &mut Tree, alloc: Global, program: &Program) -> Result<bool, AllocError> {
    let begun = root_forks(tree, alloc, program, JOINED)?;
    let waits = root_waits(tree, alloc, program, JOINED)?;
    let child = child_goes(tree, alloc, program)?;
    let joined = root_joins(tree, alloc, program)?;
    let is_nil = matches!(tree.outcome(), Some(TaskEnd::Value(Value::Nil)));
    Ok(begun && waits && child && joined && is_nil && has_the_childs_print(tree, alloc)?)
}

fn closes_with_its_child(
    tree: &mut Tree,
    alloc: Global,
    program: &Program,
) -> Result<bool, AllocError> {
    let begun = root_forks(tree, alloc, program, BOTH)?;
    let waits = root_waits(tree, alloc, program, BOTH)?;
    let child = child_goes(tree, alloc, program)?;
    let closed = root_closes(tree, alloc, program)?;
    let is_one = matches!(tree.outcome(), Some(TaskEnd::Value(Value::Int(1))));
    Ok(begun && waits && child && closed && is_one && has_the_childs_print(tree, alloc)?)
}

// The value of the root is its child's future, which may not go out.
fn lets_a_future_out(
    tree: &mut Tree,
    alloc: Global,
    program: &Program,
) -> Result<bool, AllocError> {
    let begun = root_forks(tree, alloc, program, FORKED)?;
    let child = child_goes(tree, alloc, program)?;
    let given = [future(alloc)?];
    let ended = goes(tree, alloc, program, "0.1", FORKED, given.as_slice())?;
    let escapes = matches!(tree.outcome(), Some(TaskEnd::Fault(_, _)));
    Ok(begun && child && matches!(ended, Some(Stepped::Finished)) && escapes)
}

fn a_root_joins(alloc: Global, program: &Program) -> Result<bool, AllocError> {
    let mut tree = root_alone(alloc, program, JOINED)?;
    joins_its_child(&mut tree, alloc, program)
}

// A copy goes on to its end, and the attempt that was copied stays.
fn a_copy_goes_on(alloc: Global, program: &Program) -> Result<bool, AllocError> {
    let tree = root_alone(alloc, program, JOINED)?;
    let mut copied = tree.copy(alloc)?;
    let joined = joins_its_child(&mut copied, alloc, program)?;
    Ok(joined && tree.outcome().is_none())
}

fn a_root_closes(alloc: Global, program: &Program) -> Result<bool, AllocError> {
    let mut tree = root_alone(alloc, program, BOTH)?;
    closes_with_its_child(&mut tree, alloc, program)
}

fn a_future_escapes(alloc: Global, program: &Program) -> Result<bool, AllocError> {
    let mut tree = root_alone(alloc, program, FORKED)?;
    lets_a_future_out(&mut tree, alloc, program)
}

#[test]
fn a_root_waits_for_its_child_and_joins_it(rt: HostRuntime) -> Result<(), Fail> {
    let program = sample(rt.alloc())?;
    assert!(rt; a_root_joins(rt.alloc(), &program)?);
    Ok(())
}

#[test]
fn a_copy_of_an_attempt_goes_on_alone(rt: HostRuntime) -> Result<(), Fail> {
    let program = sample(rt.alloc())?;
    assert!(rt; a_copy_goes_on(rt.alloc(), &program)?);
    Ok(())
}

#[test]
fn at_its_value_a_root_joins_its_child(rt: HostRuntime) -> Result<(), Fail> {
    let program = sample(rt.alloc())?;
    assert!(rt; a_root_closes(rt.alloc(), &program)?);
    Ok(())
}

#[test]
fn a_value_that_holds_a_future_is_a_fault(rt: HostRuntime) -> Result<(), Fail> {
    let program = sample(rt.alloc())?;
    assert!(rt; a_future_escapes(rt.alloc(), &program)?);
    Ok(())
}
