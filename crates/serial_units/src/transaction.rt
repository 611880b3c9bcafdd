ghost use Rattle.std.specs.Prelude.{◌≡◌, ◌<◌, IfOk, length};
ghost use Rattle.serial_model.specs.Task.{root_task};
ghost use Rattle.serial_units.specs.Task.{outcome_of};
ghost use Rattle.serial_units.specs.Tasks.{around_of, root_turns, IsMachine};

use crate::around::Around;
use crate::task::Done;
use crate::tasks::Tasks;
use core_syntax::NodeId;
use eval_step::Machine;
use std::alloc::{AllocError, Global};
use value_core::{Name, Values};

/// How deep forks nest in a transaction.
const LEVELS: u32 = 16;

/// The transaction of that name: its tasks run to the end of its root, on the refs as they are.
pub fn transact(
    alloc: Global,
    around: &Around,
    name: Name,
    body: NodeId,
    values: Values,
) -> Result<Done, AllocError>
    requires { body.index < length (around_of around.now).program.nodes }
    ensures end { IfOk result (λ done. outcome_of done.end ≡ (root_task (around_of around.now) name body values).outcome) }
    ensures log { IfOk result (λ done. done.task.log ≡ (root_task (around_of around.now) name body values).log) }
{
    let mut machine = Machine::start(alloc, body, values, true, around.fuel)?;
    let done = root(alloc, around, name, &mut machine);
    drop(machine);
    done
}

/// The root task, which the machine evaluates, with 16 levels of forks below it.
fn root(
    alloc: Global,
    around: &Around,
    name: Name,
    machine: &mut Machine,
) -> Result<Done, AllocError>
    requires { IsMachine (around_of around.now) machine.old }
    ensures end { IfOk result (λ done. outcome_of done.end ≡ (root_turns (around_of around.now) machine.old name).outcome) }
    ensures log { IfOk result (λ done. done.task.log ≡ (root_turns (around_of around.now) machine.old name).log) }
{
    let mut tasks = Tasks::new(alloc, name);
    match tasks.turns(alloc, around, LEVELS, machine) {
        Ok(end) => Ok(tasks.ended(end)),
        Err(error) => Err(error),
    }
}
