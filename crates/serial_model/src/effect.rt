ghost use Rattle.std.specs.Prelude.{◌≡◌, IfOk};

use std::alloc::{AllocError, Global};
use value_core::{Name, Text, Values};

/// What a task of a transaction did, with the task and the number of the effect there, from 0. By these two an effect is
/// known.
#[derive(Drop)]
pub struct Effect {
    pub task: Name,
    pub number: u32,
    pub what: What,
}

/// An effect that the others see at the commit.
#[derive(Drop)]
pub enum What {
    /// Bytes are printed.
    Bytes(Text),
    /// The actor is sent the message.
    Send(Name, Values),
    /// An actor of that name begins, of the behaviour with that number and with that state.
    Spawn(Name, u32, Values),
    /// The turn's actor has that behaviour and state from the next turn on.
    Become(u32, Values),
}

impl Effect {
    /// An equal effect.
    pub fn copy(&self, alloc: Global) -> Result<Self, AllocError>
        ensures { IfOk result (λ copied. copied ≡ self.now) }
    {
        Ok(Effect {
            task: self.task.copy(alloc)?,
            number: self.number,
            what: self.what.copy(alloc)?,
        })
    }
}

impl What {
    /// An equal one.
    pub fn copy(&self, alloc: Global) -> Result<Self, AllocError>
        ensures { IfOk result (λ copied. copied ≡ self.now) }
    {
        match self {
            What::Bytes(text) => Ok(What::Bytes(Text::from_bytes(alloc, text.items())?)),
            What::Send(actor, message) => {
                let message = message.copy()?;
                Ok(What::Send(actor.copy(alloc)?, message))
            }
            What::Spawn(actor, behaviour, state) => {
                let state = state.copy()?;
                Ok(What::Spawn(actor.copy(alloc)?, *behaviour, state))
            }
            What::Become(behaviour, state) => {
                let state = state.copy()?;
                Ok(What::Become(*behaviour, state))
            }
        }
    }
}
