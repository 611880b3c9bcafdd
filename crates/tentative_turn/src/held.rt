ghost use Rattle.std.specs.Prelude.{◌≡◌, ◌↔◌, ◌+◌, [], ◌∷◌, ◌++◌, IfOk, OnErr, OnOk, drop, length};
ghost use Rattle.std.specs.List.{slice_get};
ghost use Rattle.std.specs.Option.{option_copied};
ghost use Rattle.tentative_turn.specs.Sending.{held_receiver, held_receivers, is_send_to, is_sent_to, sent_to};
ghost use Rattle.tentative_turn.specs.Turn.{answered_ahead, is_turn, things_made, IsBegun, IsDosync, IsLookUp, IsMustWait, IsTake, IsTakeOf, RunsAhead};
ghost use Rattle.tentative_turn.specs.declared.held_effect.HeldEffect.TheVariants as held;

use crate::ahead::Ahead;
use crate::copies::copy_effects;
use crate::foretelling::{count_made, foretell};
use crate::held_effect::{HeldEffect, hold_last};
use serial_model::{Answer, Entry, Request};
use std::alloc::{AllocError, Global};
use std::collections::VecDeque;
use std::marker::Model;
use value_core::Name;

/// A turn that runs ahead, and the effects that it holds, in the order in which it did them.
#[derive(Drop)]
pub struct Held {
    turn: Name,
    actor: Name,
    made: u32,
    effects: VecDeque<HeldEffect>,
}

impl Model for Held {
    ghost use Rattle.tentative_turn.specs.Turn.{Turn, turn_code};

    ghost Value = { Turn };

    ghost coded = { turn_code };

    ghost view = { λ h. record { name = h.turn; actor = h.actor; made = h.made; effects = h.effects.items } };
}

impl Held {
    /// The turn of that name, which is begun by the entry `take` and has made `first_made` things: it holds that entry
    /// alone.
    pub fn new(alloc: Global, take: Entry, turn: Name, first_made: u32) -> Result<Self, AllocError>
        requires { IsTake take }
        ensures { IfOk result (λ held. IsBegun take turn first_made held) }
    {
        let actor = copy_actor(alloc, &take)?;
        let mut effects = VecDeque::new(alloc);
        hold_last(&mut effects, HeldEffect::Take(take))?;
        Ok(Held {
            turn,
            actor,
            made: first_made,
            effects,
        })
    }

    /// Whether the turn has that name, is one of that actor, and has made so many things.
    pub fn is_of(&self, turn: &Name, actor: &Name, made: u32) -> bool
        ensures { result ≡ is_turn self.now turn.now actor.now made }
    {
        self.turn == *turn && self.actor == *actor && self.made == made
    }

    /// Answers the request ahead and holds its effect last, or hands it back where it must wait: a deref, a join and a
    /// ref-set. For want of memory, as when the turn would have made more than 4,294,967,295 things, the turn stays as it
    /// was and the request is dropped.
    pub fn run_ahead(&mut self, alloc: Global, request: Request) -> Result<Ahead, AllocError>
        requires { ¬ IsDosync request }
        ensures ahead { IfOk result (RunsAhead self.old request (answered_ahead self.old request) self.new) }
        ensures waits { IfOk result (λ ahead. IsMustWait ahead ↔ IsLookUp request) }
        ensures same { OnErr result (self.new ≡ self.old) }
    {
        match foretell(alloc, &self.turn, &self.actor, self.made, &request) {
            Ok(Some(answer)) => {
                let given = hold(&mut self.made, &mut self.effects, alloc, request, answer)?;
                Ok(Ahead::Answered(given))
            }
            Ok(None) => Ok(Ahead::MustWait(request)),
            Err(_) => {
                drop(request);
                Err(AllocError)
            }
        }
    }

    /// The effect that settles next, where one is held.
    pub fn next_held(&self) -> Option<&HeldEffect>
        ensures { option_copied result ≡ slice_get self.now.effects 0 }
    {
        self.effects.front()
    }

    /// Gives the effect that settles next, where one is held, which is then held no more. It takes no memory.
    pub fn flush(&mut self) -> Option<HeldEffect>
        ensures first { result ≡ slice_get self.old.effects 0 }
        ensures others { self.new ≡ record self.old { effects = drop 1 self.old.effects } }
    {
        self.effects.pop_front()
    }

    /// An equal value.
    pub fn copy(&self, alloc: Global) -> Result<Self, AllocError>
        ensures { IfOk result (λ copied. copied ≡ self.now) }
    {
        Ok(Held {
            turn: self.turn.copy(alloc)?,
            actor: self.actor.copy(alloc)?,
            made: self.made,
            effects: copy_effects(alloc, &self.effects)?,
        })
    }

    /// How many of the requests that it holds send something to that actor.
    pub fn count_sends(&self, to: &Name) -> usize
        ensures { result ≡ length (sent_to to.now self.now.effects) }
    {
        count_sent(&self.effects, to)
    }

    /// The effects that it holds, in their order. It takes no memory.
    pub fn effects(&self) -> &VecDeque<HeldEffect>
        ensures { result.now.items ≡ self.now.effects }
    {
        &self.effects
    }

    /// The receivers of what the requests that it holds send, in their order; or it finds no memory.
    pub fn receivers(&self, alloc: Global) -> Result<Vec<Name>, AllocError>
        ensures { IfOk result (λ names. names.items ≡ held_receivers self.now.effects) }
    {
        list_receivers(alloc, &self.effects)
    }
}

/// How many of the effects are requests that send something to that actor.
fn count_sent(effects: &VecDeque<HeldEffect>, to: &Name) -> usize
    ensures { result ≡ length (sent_to to.now effects.now.items) }
{
    effects
        .iter()
        .filter(|effect| is_sent_to(effect, to))
        .count()
}

/// Whether the effect is a request that sends something to that actor.
fn is_sent_to(effect: &HeldEffect, to: &Name) -> bool
    ensures { result ≡ is_sent_to to.now effect.now }
{
    match effect {
        HeldEffect::Asked(request, _) => is_send_to(request, to),
        HeldEffect::Take(_) => false,
    }
}

/// The receivers of what the requests among the effects send, in their order.
fn list_receivers(alloc: Global, effects: &VecDeque<HeldEffect>) -> Result<Vec<Name>, AllocError>
    ensures { IfOk result (λ names. names.items ≡ held_receivers effects.now.items) }
{
    let mut names = Vec::new(alloc);
    for effect in effects {
        push_receiver(alloc, effect, &mut names)?;
    }
    Ok(names)
}

/// Appends the receiver of what the effect sends, where it sends something.
fn push_receiver(
    alloc: Global,
    effect: &HeldEffect,
    names: &mut Vec<Name>,
) -> Result<(), AllocError>
    ensures { OnOk result (names.new.items ≡ names.old.items ++ held_receiver effect.now) }
{
    if let HeldEffect::Asked(Request::Send(to, _), _) = effect {
        names.push(to.copy(alloc)?)?;
    }
    Ok(())
}

/// Whether the request sends something to that actor.
fn is_send_to(request: &Request, to: &Name) -> bool
    ensures { result ≡ is_send_to to.now request.now }
{
    match request {
        Request::Send(actor, _) => to == actor,
        _ => false,
    }
}

/// The actor that begins a turn by that entry.
fn copy_actor(alloc: Global, take: &Entry) -> Result<Name, AllocError>
    requires { IsTake take.now }
    ensures { IfOk result (λ actor. IsTakeOf take.now actor) }
{
    match take {
        Entry::Take(actor, _) => actor.copy(alloc),
        Entry::Run(_) => unreachable!(),
    }
}

/// Holds the request, so answered, as the last effect, and counts what it makes. An equal answer is handed out.
fn hold(
    made: &mut u32,
    effects: &mut VecDeque<HeldEffect>,
    alloc: Global,
    request: Request,
    answer: Answer,
) -> Result<Answer, AllocError>
    ensures answer { IfOk result (λ given. given ≡ answer) }
    ensures made { OnOk result (made.new ≡ made.old + things_made request) }
    ensures held { OnOk result (effects.new.items ≡ effects.old.items ++ held.Asked request answer ∷ []) }
    ensures same_made { OnErr result (made.new ≡ made.old) }
    ensures same_held { OnErr result (effects.new.items ≡ effects.old.items) }
{
    let Ok((given, count)) = handed_out(alloc, *made, &request, &answer) else {
        drop(request);
        drop(answer);
        return Err(AllocError);
    };
    match hold_last(effects, HeldEffect::Asked(request, answer)) {
        Ok(()) => {
            *made = count;
            Ok(given)
        }
        Err(_) => {
            drop(given);
            Err(AllocError)
        }
    }
}

/// An answer equal to that of the request, and how many things are made with what the request makes.
fn handed_out(
    alloc: Global,
    made: u32,
    request: &Request,
    answer: &Answer,
) -> Result<(Answer, u32), AllocError>
    ensures { IfOk result (λ out. (out.0 ≡ answer.now) × (out.1 ≡ made + things_made request.now)) }
{
    let count = made.checked_add(count_made(request)).ok_or(AllocError)?;
    Ok((answer.copy(alloc)?, count))
}
