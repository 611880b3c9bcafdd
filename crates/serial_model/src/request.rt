ghost use Rattle.std.specs.Prelude.{◌≡◌, IfOk};
ghost use Rattle.serial_model.specs.declared.request.Request.TheVariants as request;

use core_syntax::NodeId;
use std::alloc::{AllocError, Global};
use value_core::{Name, Text, Value, Values};

/// What an evaluation asks for.
#[derive(Drop)]
pub enum Request {
    /// The bytes of a line, for the output.
    Print(Text),
    /// A new ref with that value.
    NewRef(Value),
    /// The value of the ref.
    Deref(Name),
    /// The ref's new value.
    RefSet(Name, Value),
    /// A task that evaluates the body in a frame of these values.
    Fork(NodeId, Values),
    /// The value of the future.
    Join(Name),
    /// A transaction that evaluates the body in a frame of these values.
    Dosync(NodeId, Values),
    /// A new actor of the behaviour with that number, with that state.
    Spawn(u32, Values),
    /// A message to the actor.
    Send(Name, Values),
    /// The behaviour with that number, with that state, for later turns.
    Become(u32, Values),
    /// The actor whose turn this is.
    SelfActor,
}

impl Request {
    /// An equal request.
    pub fn copy(&self, alloc: Global) -> Result<Self, AllocError>
        ensures { IfOk result (λ copied. copied ≡ self.now) }
    {
        match self {
            Request::Print(line) => line.copy(alloc).map(Request::Print),
            Request::NewRef(content) => content.copy(alloc).map(Request::NewRef),
            Request::Deref(cell) => cell.copy(alloc).map(Request::Deref),
            Request::RefSet(cell, content) => copy_ref_set(alloc, cell, content),
            Request::Fork(body, frame) => frame.copy().map(|frame| Request::Fork(*body, frame)),
            Request::Join(future) => future.copy(alloc).map(Request::Join),
            Request::Dosync(body, frame) => frame.copy().map(|frame| Request::Dosync(*body, frame)),
            Request::Spawn(number, state) => state
                .copy()
                .map(|state| Request::Spawn(*number, state)),
            Request::Send(actor, message) => copy_send(alloc, actor, message),
            Request::Become(number, state) => state
                .copy()
                .map(|state| Request::Become(*number, state)),
            Request::SelfActor => Ok(Request::SelfActor),
        }
    }
}

/// A request, equal to the one that sets that ref to the content.
fn copy_ref_set(alloc: Global, cell: &Name, content: &Value) -> Result<Request, AllocError>
    ensures { IfOk result (λ copied. copied ≡ request.RefSet cell.now content.now) }
{
    let content = content.copy(alloc)?;
    match cell.copy(alloc) {
        Ok(cell) => Ok(Request::RefSet(cell, content)),
        Err(failed) => {
            drop(content);
            Err(failed)
        }
    }
}

/// A request, equal to the one that sends the message to that actor.
fn copy_send(alloc: Global, actor: &Name, message: &Values) -> Result<Request, AllocError>
    ensures { IfOk result (λ copied. copied ≡ request.Send actor.now message.now) }
{
    let message = message.copy()?;
    Ok(Request::Send(actor.copy(alloc)?, message))
}
