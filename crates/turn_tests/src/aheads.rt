use crate::turns::{letter, name, request, told};
use serial_model::Entry;
use std::alloc::{AllocError, Global};
use std::test::Fail;
use turns_ahead::TurnAhead;

/// The turn 0.1.7 of the actor 0.1, whose begin is held.
fn begun(alloc: Global) -> Result<TurnAhead, AllocError> {
    let take = Entry::Take(name(alloc, "0.1")?, name(alloc, "0")?);
    TurnAhead::begin(alloc, take, name(alloc, "0.1.7")?, 0)
}

/// What becomes of the request, in words.
fn tried(alloc: Global, turn: &mut TurnAhead, kind: char) -> Result<String, AllocError> {
    let asked = request(alloc, kind)?;
    let ahead = turn.go(alloc, asked)?;
    told(alloc, &ahead)
}

/// The letter of what is settled, `T` for its begin, and a point where there is nothing.
fn settled(turn: &mut TurnAhead) -> char {
    if turn.takes().is_some() {
        turn.settle_begin();
        return 'T';
    }
    match turn.settle_first() {
        Ok(request) => letter(&request),
        Err(AllocError) => '.',
    }
}

#[test]
fn a_turn_waits_where_its_answer_is_looked_up(rt: HostRuntime) -> Result<(), Fail> {
    let mut turn = begun(rt.alloc())?;
    let rows = [
        ('p', "nil", false),
        ('d', "wait d", true),
        ('n', "ref [0, 1, 7, 0]", false),
        ('j', "wait j", true),
    ];
    for (kind, wanted, waits) in rows {
        assert_eq!(rt; tried(rt.alloc(), &mut turn, kind)?.as_str(), wanted);
        assert_eq!(rt; turn.waits(), waits);
    }
    Ok(())
}

#[test]
fn what_a_turn_holds_is_settled_in_its_order(rt: HostRuntime) -> Result<(), Fail> {
    let mut turn = begun(rt.alloc())?;
    for kind in ['s', 'd', 'p', 'a', 'o', 'j', 'b'] {
        tried(rt.alloc(), &mut turn, kind)?;
    }
    for wanted in ['T', 's', 'p', 'a', 'o', 'b', '.'] {
        assert_eq!(rt; settled(&mut turn), wanted);
    }
    Ok(())
}

/// Whether the turn is the one of that name, of that actor, which has made so many things.
fn is_so(
    alloc: Global,
    turn: &TurnAhead,
    of: &str,
    actor: &str,
    made: u32,
) -> Result<bool, AllocError> {
    Ok(turn.is_of(&name(alloc, of)?, &name(alloc, actor)?, made))
}

#[test]
fn a_turn_is_known(rt: HostRuntime) -> Result<(), Fail> {
    let mut turn = begun(rt.alloc())?;
    tried(rt.alloc(), &mut turn, 'n')?;
    let rows = [
        ("0.1.7", "0.1", 1, true),
        ("0.1.6", "0.1", 1, false),
        ("0.1.7", "0.2", 1, false),
        ("0.1.7", "0.1", 0, false),
    ];
    for (of, actor, made, wanted) in rows {
        assert_eq!(rt; is_so(rt.alloc(), &turn, of, actor, made)?, wanted);
    }
    Ok(())
}
