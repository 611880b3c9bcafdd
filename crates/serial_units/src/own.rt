// Requests that a task answers by itself.
ghost use Rattle.std.specs.Prelude.{◌≡◌, IfOk, Some};
ghost use Rattle.std.specs.Option.{option_copied};
ghost use Rattle.serial_model.specs.Task.{done_by};
ghost use Rattle.serial_units.specs.Own.{own_answer, IsOwn};
ghost use Rattle.value_core.specs.Named.{made_by};

use serial_model::{Answer, Request};
use std::alloc::{AllocError, Global};
use task_log::TaskLog;
use task_log::acts::{new_ref, print, send, set_ref, spawn, turn_into};
use value_core::{Code, Name, Value};

/// Does what the request asks for, and answers it, where that rests on nothing but the task.
pub(crate) fn act(
    alloc: Global,
    log: &mut TaskLog,
    actor: Option<&Name>,
    request: Request,
) -> Result<Answer, AllocError>
    requires { IsOwn request }
    ensures answer { IfOk result (λ given. own_answer (option_copied actor.entry) (made_by log.old.name log.old.made) request ≡ Some given) }
    ensures log { IfOk result (λ _. log.new ≡ done_by (option_copied actor.entry) log.old request) }
{
    match request {
        Request::Print(text) => print(alloc, log, text),
        Request::NewRef(content) => new_ref(alloc, log, content),
        Request::RefSet(name, content) => set_ref(alloc, log, name, content),
        Request::Spawn(behaviour, state) => spawn(alloc, log, behaviour, state),
        Request::Send(to, message) => send(alloc, log, to, message),
        Request::Become(behaviour, state) => match actor {
            Some(_) => turn_into(alloc, log, behaviour, state),
            None => Ok(Answer::Fault(Code::NoTurn)),
        },
        Request::SelfActor => match actor {
            Some(actor) => Ok(Answer::Value(Value::Actor(actor.copy(alloc)?))),
            None => Ok(Answer::Fault(Code::NoTurn)),
        },
        _ => unreachable!(),
    }
}
