ghost use Rattle.std.specs.Prelude.{◌≡◌, Some, IfOk};
ghost use Rattle.serial_model.specs.Ahead.{answer_ahead};
ghost use Rattle.tentative_turn.specs.Turn.{things_made};
ghost use Rattle.value_core.specs.Named.{made_by};

use serial_model::{Answer, Request};
use std::alloc::{AllocError, Global};
use value_core::{Name, Value};

/// The answer of a request of the turn of that actor, which has made so many things, where the answer can be told without
/// looking anything up.
pub fn foretell(
    alloc: Global,
    turn: &Name,
    actor: &Name,
    made: u32,
    request: &Request,
) -> Result<Option<Answer>, AllocError>
    ensures { IfOk result (λ answer. answer ≡ answer_ahead (Some actor.now) (made_by turn.now made) request.now) }
{
    match request {
        Request::Print(_) => Ok(Some(Answer::Value(Value::Nil))),
        Request::NewRef(_) => Ok(Some(Answer::Value(Value::Ref(turn.child(alloc, made)?)))),
        Request::Fork(_, _) => Ok(Some(Answer::Value(Value::Future(turn.child(alloc, made)?)))),
        Request::Spawn(_, _) => Ok(Some(Answer::Value(Value::Actor(turn.child(alloc, made)?)))),
        Request::Send(_, _) => Ok(Some(Answer::Value(Value::Nil))),
        Request::Become(_, _) => Ok(Some(Answer::Value(Value::Nil))),
        Request::SelfActor => Ok(Some(Answer::Value(Value::Actor(actor.copy(alloc)?)))),
        Request::Deref(_) | Request::RefSet(_, _) | Request::Join(_) | Request::Dosync(_, _) => Ok(
            None,
        ),
    }
}

/// How many things the request makes.
pub fn count_made(request: &Request) -> u32
    ensures { result ≡ things_made request.now }
{
    match request {
        Request::NewRef(_) | Request::Fork(_, _) | Request::Spawn(_, _) => 1,
        Request::Print(_)
        | Request::Deref(_)
        | Request::RefSet(_, _)
        | Request::Join(_)
        | Request::Dosync(_, _)
        | Request::Send(_, _)
        | Request::Become(_, _)
        | Request::SelfActor => 0,
    }
}
