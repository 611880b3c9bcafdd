ghost use Rattle.std.specs.Prelude.{IfOk};
ghost use Rattle.tentative_turn.specs.Turn.{IsDosync};

use core_syntax::NodeId;
use serial_model::{Answer, Entry, Request};
use std::alloc::{AllocError, Global};
use std::test::Fail;
use tentative_turn::{Ahead, Held, HeldEffect};
use value_core::{Name, Text, Value, Values};

pub(crate) fn name(alloc: Global, text: &str) -> Result<Name, AllocError> {
    Name::read(alloc, text.as_bytes()).map_err(|_| AllocError)
}

/// The turn 0.1.7 of the actor 0.1, which has made so many things.
fn begun(alloc: Global, made: u32) -> Result<Held, AllocError> {
    let take = Entry::Take(name(alloc, "0.1")?, name(alloc, "0")?);
    Held::new(alloc, take, name(alloc, "0.1.7")?, made)
}

/// The kinds of request that a turn may run ahead over, by a letter.
pub(crate) fn request(alloc: Global, kind: char) -> Result<Request, AllocError>
    ensures { IfOk result (λ asked. ¬ IsDosync asked) }
{
    match kind {
        'p' => Ok(Request::Print(Text::from_bytes(alloc, b"1")?)),
        'n' => Ok(Request::NewRef(Value::Nil)),
        'd' => Ok(Request::Deref(name(alloc, "0.2")?)),
        'r' => Ok(Request::RefSet(name(alloc, "0.2")?, Value::Nil)),
        'f' => Ok(Request::Fork(NodeId { index: 0 }, Values::new(alloc))),
        'j' => Ok(Request::Join(name(alloc, "0.3")?)),
        'a' => Ok(Request::Spawn(0, Values::new(alloc))),
        's' => Ok(Request::Send(name(alloc, "0.1")?, Values::new(alloc))),
        'b' => Ok(Request::Become(0, Values::new(alloc))),
        _ => Ok(Request::SelfActor),
    }
}

pub(crate) fn letter(request: &Request) -> char {
    match request {
        Request::Print(_) => 'p',
        Request::NewRef(_) => 'n',
        Request::Deref(_) => 'd',
        Request::RefSet(_, _) => 'r',
        Request::Fork(_, _) => 'f',
        Request::Join(_) => 'j',
        Request::Dosync(_, _) => 't',
        Request::Spawn(_, _) => 'a',
        Request::Send(_, _) => 's',
        Request::Become(_, _) => 'b',
        Request::SelfActor => 'o',
    }
}

/// The answer in words, with the name in it.
fn words(alloc: Global, answer: &Answer) -> Result<String, AllocError> {
    match answer {
        Answer::Value(Value::Nil) => format!(in alloc; "nil"),
        Answer::Value(Value::Ref(name)) => format!(in alloc; "ref {:?}", name.parts()),
        Answer::Value(Value::Future(name)) => format!(in alloc; "future {:?}", name.parts()),
        Answer::Value(Value::Actor(name)) => format!(in alloc; "actor {:?}", name.parts()),
        _ => format!(in alloc; "another"),
    }
}

/// What becomes of a request, in words.
pub(crate) fn told(alloc: Global, ahead: &Ahead) -> Result<String, AllocError> {
    match ahead {
        Ahead::Answered(answer) => words(alloc, answer),
        Ahead::MustWait(back) => format!(in alloc; "wait {}", letter(back)),
    }
}

/// What becomes of the request, in words.
fn tried(alloc: Global, held: &mut Held, kind: char) -> Result<String, AllocError> {
    let asked = request(alloc, kind)?;
    let ahead = held.run_ahead(alloc, asked)?;
    told(alloc, &ahead)
}

#[test]
fn requests_run_ahead_or_wait(rt: HostRuntime) -> Result<(), Fail> {
    let alloc = rt.alloc();
    let mut held = begun(alloc, 0)?;
    let rows = [
        ('p', "nil"),
        ('n', "ref [0, 1, 7, 0]"),
        ('d', "wait d"),
        ('f', "future [0, 1, 7, 1]"),
        ('r', "wait r"),
        ('a', "actor [0, 1, 7, 2]"),
        ('j', "wait j"),
        ('s', "nil"),
        ('b', "nil"),
        ('o', "actor [0, 1]"),
    ];
    for (kind, wanted) in rows {
        assert_eq!(rt; tried(alloc, &mut held, kind)?.as_str(), wanted);
    }
    Ok(())
}

/// The letter of the effect's request, or `T` for the `Take`.
fn effect_letter(effect: &HeldEffect) -> char {
    match effect {
        HeldEffect::Take(_) => 'T',
        HeldEffect::Asked(request, _) => letter(request),
    }
}

/// A letter for each effect that is held, in the order in which they are flushed.
fn flushed(alloc: Global, mut held: Held) -> Result<String, AllocError> {
    let mut letters = String::new(alloc);
    for _ in 0..9 {
        match held.flush() {
            Some(effect) => letters.push(effect_letter(&effect))?,
            None => letters.push('.')?,
        }
    }
    Ok(letters)
}

#[test]
fn effects_settle_in_their_order(rt: HostRuntime) -> Result<(), Fail> {
    let alloc = rt.alloc();
    let mut held = begun(alloc, 0)?;
    for kind in ['s', 'd', 'p', 'a', 'o', 'j', 'b'] {
        tried(alloc, &mut held, kind)?;
    }
    let copied = held.copy(alloc)?;
    assert!(rt; matches!(copied.next_held(), Some(HeldEffect::Take(_))));
    assert_eq!(rt; flushed(alloc, copied)?.as_str(), "Tspaob...");
    assert_eq!(rt; flushed(alloc, held)?.as_str(), "Tspaob...");
    Ok(())
}

#[test]
fn things_are_counted_up_to_32_bits(rt: HostRuntime) -> Result<(), Fail> {
    let alloc = rt.alloc();
    let mut held = begun(alloc, u32::MAX - 1)?;
    let last = tried(alloc, &mut held, 'n')?;
    assert_eq!(rt; last.as_str(), "ref [0, 1, 7, 4294967294]");
    assert!(rt; tried(alloc, &mut held, 'a').is_err());
    assert_eq!(rt; tried(alloc, &mut held, 'p')?.as_str(), "nil");
    assert_eq!(rt; flushed(alloc, held)?.as_str(), "Tnp......");
    Ok(())
}
