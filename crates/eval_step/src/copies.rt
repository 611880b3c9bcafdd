ghost use Rattle.std.specs.Prelude.{◌≡◌, [], ◌∷◌, ◌++◌, IsErr, IfOk, OnOk, OnErr};
ghost use Rattle.eval_step.specs.Walk.{FailedAt, control_of};

use crate::context::Context;
use crate::item::Item;
use crate::walk::Walk;
use answer_runs::Answers;
use eval_frames::{At, Registers, Stop};
use serial_model::Answer;
use std::alloc::{AllocError, Global};
use value_core::Copied;

/// An equal walk. Of a failed one there is none.
pub fn copy_walk(alloc: Global, walk: &Walk) -> Result<Walk, AllocError>
    ensures copied { IfOk result (λ copied. copied ≡ walk.now) }
    ensures failed { FailedAt (control_of walk.now) → IsErr result }
{
    if let At::Failed = walk.at {
        return Err(AllocError);
    }
    Ok(Walk {
        at: walk.at,
        registers: copy_registers(alloc, &walk.registers)?,
        context: copy_context(alloc, &walk.context)?,
        left: walk.left,
    })
}

fn copy_context(alloc: Global, context: &Context) -> Result<Context, AllocError>
    ensures { IfOk result (λ copied. copied ≡ context.now) }
{
    Ok(Context {
        frame: context.frame.copy(alloc)?,
        stack: context.stack.copy()?,
    })
}

fn copy_registers(alloc: Global, registers: &Registers) -> Result<Registers, AllocError>
    ensures { IfOk result (λ copied. copied ≡ registers.now) }
{
    Ok(Registers {
        value: registers.value.copy(alloc)?,
        values: registers.values.copy(alloc)?,
        stop: Stop {
            halt: registers.stop.halt.copy(alloc)?,
        },
    })
}

impl Copied for Item {
    fn copied(&self, alloc: Global) -> Result<Self, AllocError> {
        copy_item(alloc, self)
    }
}

fn copy_item(alloc: Global, item: &Item) -> Result<Item, AllocError>
    ensures { IfOk result (λ copied. copied ≡ item.now) }
{
    match item {
        Item::Back(frame) => Ok(Item::Back(frame.copy(alloc)?)),
        Item::Shrink(count) => Ok(Item::Shrink(*count)),
        Item::Arguments(id, values, next) => {
            let values = values.copy(alloc)?;
            Ok(Item::Arguments(*id, values, *next))
        }
        Item::Choose(taken, other) => Ok(Item::Choose(*taken, *other)),
        Item::Do(id, next) => Ok(Item::Do(*id, *next)),
        Item::Let(id, next) => Ok(Item::Let(*id, *next)),
        Item::Steps(id, next, binds) => Ok(Item::Steps(*id, *next, *binds)),
    }
}

/// Appends an equal answer. For want of memory the answers stay.
pub fn keep_answer(alloc: Global, answers: &mut Answers, answer: &Answer) -> Result<(), AllocError>
    ensures ok { OnOk result (answers.new ≡ answers.old ++ answer.now ∷ []) }
    ensures err { OnErr result (answers.new ≡ answers.old) }
{
    answers.add(answer.copy(alloc)?)
}
