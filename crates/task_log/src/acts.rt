// What a request of a task adds to its log, with the answer. For want of memory the log stays.
ghost use Rattle.std.specs.Prelude.{◌≡◌, IfOk, OnErr};
ghost use Rattle.value_core.specs.declared.value.Value.TheVariants as value;
ghost use Rattle.value_core.specs.Named.{made_by};
ghost use Rattle.serial_model.specs.declared.answer.Answer.TheVariants as answer;
ghost use Rattle.serial_model.specs.declared.effect.What.TheVariants as what;
ghost use Rattle.serial_model.specs.Log.{with_effect, with_made, with_write};
ghost use Rattle.task_log.specs.Answered.{IsDone};

use crate::log::TaskLog;
use serial_model::{Answer, What};
use std::alloc::{AllocError, Global};
use value_core::{Name, Text, Value, Values};

/// A print is answered with nil.
pub fn print(alloc: Global, log: &mut TaskLog, text: Text) -> Result<Answer, AllocError>
    ensures done { IfOk result (λ found. IsDone log.new (with_effect log.old (what.Bytes text)) found (answer.Value value.Nil)) }
    ensures same { OnErr result (log.new ≡ log.old) }
{
    log.act(alloc, What::Bytes(text))?;
    Ok(Answer::Value(Value::Nil))
}

/// A new ref is the next thing that the task makes.
pub fn new_ref(alloc: Global, log: &mut TaskLog, content: Value) -> Result<Answer, AllocError>
    ensures done { IfOk result (λ found. IsDone log.new (with_made (with_write log.old (made_by log.old.name log.old.made) content))
        found (answer.Value (value.Ref (made_by log.old.name log.old.made)))) }
    ensures same { OnErr result (log.new ≡ log.old) }
{
    let name = log.next_made(alloc)?;
    log.make_ref(alloc, content)?;
    Ok(Answer::Value(Value::Ref(name)))
}

/// A ref is set, which is answered with the value.
pub fn set_ref(
    alloc: Global,
    log: &mut TaskLog,
    name: Name,
    content: Value,
) -> Result<Answer, AllocError>
    ensures done { IfOk result (λ found. IsDone log.new (with_write log.old name content) found (answer.Value content)) }
    ensures same { OnErr result (log.new ≡ log.old) }
{
    let given = content.copy(alloc)?;
    write(log, name, content, given)
}

/// Writes the ref, which is answered so.
fn write(log: &mut TaskLog, name: Name, content: Value, given: Value) -> Result<Answer, AllocError>
    ensures done { IfOk result (λ found. IsDone log.new (with_write log.old name content) found (answer.Value given)) }
    ensures same { OnErr result (log.new ≡ log.old) }
{
    log.write(name, content)?;
    Ok(Answer::Value(given))
}

/// A new actor is the next thing that the task makes.
pub fn spawn(
    alloc: Global,
    log: &mut TaskLog,
    behaviour: u32,
    state: Values,
) -> Result<Answer, AllocError>
    ensures done { IfOk result (λ found. IsDone log.new (with_made (with_effect log.old (what.Spawn (made_by log.old.name log.old.made) behaviour state)))
        found (answer.Value (value.Actor (made_by log.old.name log.old.made)))) }
    ensures same { OnErr result (log.new ≡ log.old) }
{
    let name = log.next_made(alloc)?;
    log.make_actor(alloc, behaviour, state)?;
    Ok(Answer::Value(Value::Actor(name)))
}

/// A send is answered with nil.
pub fn send(
    alloc: Global,
    log: &mut TaskLog,
    actor: Name,
    message: Values,
) -> Result<Answer, AllocError>
    ensures done { IfOk result (λ found. IsDone log.new (with_effect log.old (what.Send actor message)) found (answer.Value value.Nil)) }
    ensures same { OnErr result (log.new ≡ log.old) }
{
    log.act(alloc, What::Send(actor, message))?;
    Ok(Answer::Value(Value::Nil))
}

/// The actor of the turn becomes that at its end, which is answered with nil.
pub fn turn_into(
    alloc: Global,
    log: &mut TaskLog,
    behaviour: u32,
    state: Values,
) -> Result<Answer, AllocError>
    ensures done { IfOk result (λ found. IsDone log.new (with_effect log.old (what.Become behaviour state)) found (answer.Value value.Nil)) }
    ensures same { OnErr result (log.new ≡ log.old) }
{
    log.act(alloc, What::Become(behaviour, state))?;
    Ok(Answer::Value(Value::Nil))
}
