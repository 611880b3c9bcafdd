ghost use Rattle.std.specs.Prelude.{◌≡◌, [], ◌∷◌, ◌++◌, IfOk, OnErr, OnOk};
ghost use Rattle.std.specs.Option.{option_copied};
ghost use Rattle.tentative_turn.specs.declared.held_effect.HeldEffect.TheVariants as held;
ghost use Rattle.tentative_turn.specs.Sending.{held_receiver, listed};

use serial_model::{Answer, Entry, Request};
use std::alloc::{AllocError, Global};
use std::collections::VecDeque;
use value_core::Name;

/// An effect that is held until it settles.
#[derive(Drop)]
pub enum HeldEffect {
    /// The turn's message is taken.
    Take(Entry),
    /// The turn made the request, and was given the answer.
    Asked(Request, Answer),
}

impl HeldEffect {
    /// An equal effect.
    pub fn copy(&self, alloc: Global) -> Result<Self, AllocError>
        ensures { IfOk result (λ copied. copied ≡ self.now) }
    {
        match self {
            HeldEffect::Take(entry) => entry.copy(alloc).map(HeldEffect::Take),
            HeldEffect::Asked(request, answer) => copy_asked(alloc, request, answer),
        }
    }

    /// The receiver of what it sends, where it is a request that sends something. It takes no memory.
    pub fn receiver(&self) -> Option<&Name>
        ensures { listed (option_copied result) ≡ held_receiver self.now }
    {
        match self {
            HeldEffect::Asked(Request::Send(to, _), _) => Some(to),
            _ => None,
        }
    }
}

/// An equal effect: that request, with the answer that it was given.
fn copy_asked(alloc: Global, request: &Request, answer: &Answer) -> Result<HeldEffect, AllocError>
    ensures { IfOk result (λ copied. copied ≡ held.Asked request.now answer.now) }
{
    let request = request.copy(alloc)?;
    match answer.copy(alloc) {
        Ok(answer) => Ok(HeldEffect::Asked(request, answer)),
        Err(_) => {
            drop(request);
            Err(AllocError)
        }
    }
}

/// Appends the effect. For want of memory the effects stay, and this one is dropped.
pub(crate) fn hold_last(
    effects: &mut VecDeque<HeldEffect>,
    effect: HeldEffect,
) -> Result<(), AllocError>
    ensures held { OnOk result (effects.new.items ≡ effects.old.items ++ effect ∷ []) }
    ensures same { OnErr result (effects.new.items ≡ effects.old.items) }
{
    match effects.push_back(effect) {
        Ok(()) => Ok(()),
        Err(refused) => {
            drop(refused);
            Err(AllocError)
        }
    }
}
