// Copies of what a task keeps, and the machine of a task that is answered.
ghost use Rattle.std.specs.Prelude.{◌≡◌, IfOk};
ghost use Rattle.eval_step.specs.Evaluation.{IsAsking};
ghost use Rattle.task_fork_join.specs.Closing.{ArePartsOf};
ghost use Rattle.task_fork_join.specs.Stepping.{IsGiven};
ghost use Rattle.value_core.specs.Named.{Rises};

use crate::task::{Closing, Parts, Stage, Task};
use eval_step::Machine;
use serial_model::Answer;
use std::alloc::{AllocError, Global};
use std::collections::BTreeMap;
use value_core::Name;
use value_core::name_map::put;

/// What the task has done, and what it knows.
pub(crate) fn copy_parts(alloc: Global, task: &Task) -> Result<Parts, AllocError>
    ensures { IfOk result (ArePartsOf task.now) }
{
    let knows = task.knows.copy()?;
    Ok(Parts {
        log: task.log.copy(alloc)?,
        knows,
    })
}

/// Equal tasks.
pub(crate) fn copy_tasks(
    alloc: Global,
    tasks: &BTreeMap<Name, Task>,
) -> Result<BTreeMap<Name, Task>, AllocError>
    requires { Rises tasks.now.entries }
    ensures { IfOk result (λ copied. copied.entries ≡ tasks.now.entries) }
{
    let mut copied = BTreeMap::new(alloc);
    for (name, task) in tasks {
        let task = copy_task(alloc, task)?;
        put(&mut copied, name.copy(alloc)?, task)?;
    }
    Ok(copied)
}

/// An equal task.
fn copy_task(alloc: Global, task: &Task) -> Result<Task, AllocError>
    ensures { IfOk result (λ copied. copied ≡ task.now) }
{
    let stage = copy_stage(alloc, &task.stage)?;
    let Parts { log, knows } = copy_parts(alloc, task)?;
    Ok(Task { log, knows, stage })
}

/// An equal stage.
fn copy_stage(alloc: Global, stage: &Stage) -> Result<Stage, AllocError>
    ensures { IfOk result (λ copied. copied ≡ stage.now) }
{
    match stage {
        Stage::Going(machine) => Ok(Stage::Going(machine.copy(alloc)?)),
        Stage::Closing(closing) => Ok(Stage::Closing(copy_closing(alloc, closing)?)),
        Stage::Ended(ended) => Ok(Stage::Ended(ended.copy(alloc)?)),
    }
}

/// The same task at its value.
fn copy_closing(alloc: Global, closing: &Closing) -> Result<Closing, AllocError>
    ensures { IfOk result (λ copied. copied ≡ closing.now) }
{
    let machine = closing.machine.copy(alloc)?;
    Ok(Closing {
        machine,
        value: closing.value.copy(alloc)?,
        next: closing.next,
    })
}

/// The machine goes on with the answer.
pub(crate) fn give(alloc: Global, moved: Machine, answer: Answer) -> Result<Machine, AllocError>
    requires { IsAsking moved }
    ensures { IfOk result (IsGiven moved answer) }
{
    let mut machine = moved;
    machine.answer(alloc, answer)?;
    Ok(machine)
}
