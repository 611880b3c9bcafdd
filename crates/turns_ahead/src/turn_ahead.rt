ghost use Rattle.std.specs.Prelude.{◌≡◌, IfOk, IfSome, None, OnErr, Option, drop, is_some, length, true};
ghost use Rattle.std.specs.Option.{option_copied, IsSome};
ghost use Rattle.serial_model.specs.Sends.{sends_to};
ghost use Rattle.shared_world.specs.rows.Leading.{becomes_after, leads_on};
ghost use Rattle.tentative_turn.specs.Sending.{request_receivers};
ghost use Rattle.tentative_turn.specs.Turn.{is_turn, IsDosync, IsTake};
ghost use Rattle.turns_ahead.specs.Leading.{ahead_of, becomes_or, begins, first_asked, hands_back, AreAsked, HasBegun, HasGone, HasSettled, IsLeftBy, IsLeftNext};
ghost use Rattle.turns_ahead.specs.Next.{IsFirstHeld};
ghost use Rattle.unit_table.specs.declared.unit.Becoming.{Becoming as Turning};

use crate::next_held::NextHeld;
use serial_model::{Entry, Request};
use std::alloc::{AllocError, Global};
use std::collections::VecDeque;
use std::marker::Model;
use tentative_turn::{Ahead, Held, HeldEffect, count_made};
use unit_table::Becoming;
use value_core::Name;

/// A turn that runs ahead of the history: it is answered without waiting, and what it does is held until it settles. Beside
/// that it keeps where the history left it.
#[derive(Drop)]
pub struct TurnAhead {
    held: Held,
    // How many of its answers the history knows.
    answers: u64,
    // How many things it had made there.
    made: u32,
    becomes: Option<Becoming>,
    // Whether it waits until it is definite and holds nothing.
    waits: bool,
    // Its number among the turns that run ahead, in the order in which they began.
    number: u64,
}

impl Model for TurnAhead {
    ghost use Rattle.turns_ahead.specs.Leading.{leading_code, IsLine, Leading};

    ghost Value = { Leading };

    ghost coded = { leading_code };

    ghost view = { λ t. record { turn = t.held; answers = t.answers; made = t.made; becomes = t.becomes; waits = t.waits } };

    ghost invariant = { λ t. IsLine t.held.effects };
}

impl TurnAhead {
    /// The turn of that name, which is begun by the entry and has that number in the order of begins: it holds that alone, and the
    /// history knows nothing of it.
    pub fn begin(alloc: Global, take: Entry, turn: Name, number: u64) -> Result<Self, AllocError>
        requires { IsTake take }
        ensures { IfOk result (HasBegun take turn) }
    {
        Ok(TurnAhead {
            held: Held::new(alloc, take, turn, 0)?,
            answers: 0,
            made: 0,
            becomes: None,
            waits: false,
            number,
        })
    }

    /// The number that it has in the order of begins. Nothing is proved of it: it says where to look for a turn first.
    pub fn number(&self) -> u64 {
        self.number
    }

    /// Whether the turn has that name, is one of that actor, and has made so many things.
    pub fn is_of(&self, turn: &Name, actor: &Name, made: u32) -> bool
        ensures { result ≡ is_turn self.now.turn turn.now actor.now made }
    {
        self.held.is_of(turn, actor, made)
    }

    /// The actor of the turn, where its begin is held.
    pub fn takes(&self) -> Option<&Name>
        ensures { option_copied result ≡ begins self.now.turn.effects }
    {
        match self.held.next_held() {
            Some(HeldEffect::Take(Entry::Take(actor, _))) => Some(actor),
            _ => None,
        }
    }

    /// Whether the turn waits until it is definite and holds nothing.
    pub fn waits(&self) -> bool
        ensures { result ≡ self.now.waits }
    {
        self.waits
    }

    /// Answers the request ahead and holds it as the last; or hands it back where its answer has to be looked up, and the turn
    /// waits. For want of memory the turn stays, and the request is dropped.
    pub fn go(&mut self, alloc: Global, request: Request) -> Result<Ahead, AllocError>
        requires { ¬ IsDosync request }
        ensures went { IfOk result (HasGone self.old request self.new) }
        ensures same { OnErr result (self.new ≡ self.old) }
    {
        let ahead = self.held.run_ahead(alloc, request)?;
        self.waits = must_wait(&ahead);
        Ok(ahead)
    }

    /// The begin of the turn is settled, where it is held: all that it holds then are requests. It takes no memory.
    pub fn settle_begin(&mut self)
        requires { IsSome (begins self.old.turn.effects) }
        ensures asked { AreAsked self.new.turn.effects }
        ensures turn { self.new ≡ record self.old { turn = record self.old.turn { effects = drop 1 self.old.turn.effects } } }
        ensures left { ahead_of self.new ≡ record (ahead_of self.old) { takes = None } }
    {
        effect_goes(self.held.flush());
    }

    /// The first request that is held is settled: the history has given its answer, and what it made, and what the actor becomes
    /// by it. It takes no memory, and fails only where there is too much to count, and where nothing is held or the begin is. Then
    /// the turn stays.
    pub fn settle_first(&mut self) -> Result<Request, AllocError>
        ensures settled { IfOk result (λ request. HasSettled self.old request self.new) }
        ensures same { OnErr result (self.new ≡ self.old) }
    {
        let left = self.left_next()?;
        match self.held.flush() {
            Some(HeldEffect::Asked(request, _)) => {
                self.leave_at(left);
                Ok(request)
            }
            _ => unreachable!(),
        }
    }

    /// Where the history leaves the turn once the first request is settled. It fails for want of memory, and where there is too
    /// much to count, or nothing is held or the begin is.
    pub fn left_next(&self) -> Result<Left, AllocError>
        ensures { IfOk result (IsLeftNext self.now) }
    {
        match self.held.next_held() {
            Some(HeldEffect::Asked(request, _)) => left_by(self.answers, self.made, request),
            _ => Err(AllocError),
        }
    }

    /// The history leaves the turn there.
    fn leave_at(&mut self, left: Left)
        ensures { self.new ≡ record self.old { answers = left.answers; made = left.made; becomes = becomes_or left.becomes self.old.becomes } }
    {
        self.answers = left.answers;
        self.made = left.made;
        if let Some(becomes) = left.becomes {
            self.becomes = Some(becomes);
        }
    }

    /// The turn waits until it is definite and holds nothing. It takes no memory.
    pub fn wait(&mut self)
        ensures { self.new ≡ record self.old { waits = true } }
    {
        self.waits = true;
    }

    /// How many of the requests that it holds send something to that actor.
    pub fn count_sends(&self, to: &Name) -> usize
        ensures { result ≡ length (sends_to to.now (ahead_of self.now).held) }
    {
        self.held.count_sends(to)
    }

    /// The effects that it holds, in their order: its begin, where that is held, and requests. It takes no memory.
    pub fn effects(&self) -> &VecDeque<HeldEffect>
        ensures { result.now.items ≡ self.now.turn.effects }
    {
        self.held.effects()
    }

    /// The receivers of what the requests that it holds send, in their order; or it finds no memory.
    pub fn receivers(&self, alloc: Global) -> Result<Vec<Name>, AllocError>
        ensures { IfOk result (λ names. names.items ≡ request_receivers (ahead_of self.now).held) }
    {
        self.held.receivers(alloc)
    }

    /// The request that is held first. None where its begin is held, or nothing is.
    pub fn first_request(&self) -> Option<&Request>
        ensures { option_copied result ≡ first_asked self.now.turn.effects }
    {
        match self.held.next_held() {
            Some(HeldEffect::Asked(request, _)) => Some(request),
            _ => None,
        }
    }

    /// What it holds first; or it finds no memory, or holds nothing.
    pub fn next_held(&self, alloc: Global) -> Result<NextHeld, AllocError>
        ensures { IfOk result (IsFirstHeld self.now) }
    {
        match self.takes() {
            Some(actor) => Ok(NextHeld::Begin(actor.copy(alloc)?)),
            None => self.next_asked(alloc),
        }
    }

    /// The request that it holds first, where its begin is not held.
    fn next_asked(&self, alloc: Global) -> Result<NextHeld, AllocError>
        requires { begins self.now.turn.effects ≡ None }
        ensures { IfOk result (IsFirstHeld self.now) }
    {
        match self.first_request() {
            Some(request) => Ok(NextHeld::Asked(request.copy(alloc)?)),
            None => Err(AllocError),
        }
    }

    /// How many things it had made where the history left it.
    pub fn left_made(&self) -> u32
        ensures { result ≡ self.now.made }
    {
        self.made
    }

    /// How many of its answers the history knows.
    pub fn left_answers(&self) -> u64
        ensures { result ≡ self.now.answers }
    {
        self.answers
    }

    /// What its actor was to become where the history left it.
    pub fn left_becomes(&self) -> Result<Option<Becoming>, AllocError>
        ensures { IfOk result (λ becomes. becomes ≡ self.now.becomes) }
    {
        match &self.becomes {
            Some(next) => Ok(Some(Becoming {
                behaviour: next.behaviour,
                state: next.state.copy()?,
            })),
            None => Ok(None),
        }
    }

    /// Whether it runs ahead still, where all that it holds are requests.
    pub fn holds(&self) -> bool
        ensures { AreAsked self.now.turn.effects → result ≡ is_some (leads_on (ahead_of self.now)) }
    {
        self.held.next_held().is_some()
    }

    /// The first request that is held is settled, and the history leaves the turn there: all that it holds then are requests. It
    /// takes no memory.
    pub fn settle_by(&mut self, left: Left)
        requires { IsLeftNext self.old left }
        ensures settled { IfSome (first_asked self.old.turn.effects) (λ request. HasSettled self.old request self.new) }
        ensures asked { AreAsked self.new.turn.effects }
    {
        let first = self.held.flush();
        effect_goes(first);
        self.leave_at(left);
    }
}

/// How many answers the history has given, and how many things it has made; and what the actor becomes by the request, where
/// that says so.
#[derive(Drop)]
pub struct Left {
    pub(crate) answers: u64,
    pub(crate) made: u32,
    pub(crate) becomes: Option<Becoming>,
}

/// Where the history leaves a turn once the request is settled, of whose answers it knew so many, and which had made so many things.
fn left_by(answers: u64, made: u32, request: &Request) -> Result<Left, AllocError>
    ensures { IfOk result (IsLeftBy answers made request.now) }
{
    let answers = answers.checked_add(1).ok_or(AllocError)?;
    let made = made.checked_add(count_made(request)).ok_or(AllocError)?;
    let becomes = next_becomes(request)?;
    Ok(Left {
        answers,
        made,
        becomes,
    })
}

/// What the actor becomes by the request, where that says so.
pub fn next_becomes(request: &Request) -> Result<Option<Becoming>, AllocError>
    ensures { IfOk result (λ next. (before : Option Turning) → becomes_or next before ≡ becomes_after request.now before) }
{
    match request {
        Request::Become(behaviour, state) => Ok(Some(Becoming {
            behaviour: *behaviour,
            state: state.copy()?,
        })),
        _ => Ok(None),
    }
}

/// Whether the request was handed back.
fn must_wait(ahead: &Ahead) -> bool
    ensures { result ≡ hands_back ahead.now }
{
    match ahead {
        Ahead::Answered(_) => false,
        Ahead::MustWait(_) => true,
    }
}

/// Drops what was held.
fn effect_goes(_effect: Option<HeldEffect>) {}
