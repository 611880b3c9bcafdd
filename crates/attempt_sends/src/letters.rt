// What the root of an attempt has sent since it had done so much.
ghost use Rattle.std.specs.Prelude.{◌≡◌, ◌+◌, ◌++◌, ◌∷◌, [], IfOk, OnOk, drop, length, reverse, take};
ghost use Rattle.std.specs.Option.{option_copied, option_map};
ghost use Rattle.attempt_sends.specs.Letters.{held_sends, left_at, letters_of, AreLeft};
ghost use Rattle.serial_model.specs.Sends.{effects_to};
ghost use Rattle.shared_chain.specs.Links.{from_link};
ghost use Rattle.shared_world.specs.rows.Sending.{send_in, sends_in};
ghost use Rattle.turns_ahead.specs.Leading.{ahead_of};
ghost use Rattle.value_core.specs.Named.{with_named};
ghost use Rattle.world_model.specs.Message.{tentative};

use actor_mailbox::Message;
use serial_model::{Effect, What};
use shared_chain::Link;
use std::alloc::{AllocError, Global};
use std::collections::BTreeMap;
use turns_ahead::TurnAhead;
use txn_snapshot::TaskLog;
use value_core::name_map::{find, put};
use value_core::{Name, Values};

/// A message, the actor to which it goes, and how many sends to that actor its unit and the attempt of that had made before it which are
/// not settled.
#[derive(Drop)]
pub(crate) struct Letter {
    pub(crate) to: Name,
    pub(crate) message: Message,
    pub(crate) earlier: usize,
}

/// What is sent by the effects of the root of the unit's attempt, but for the first ones. Where there are not so many, it is taken for
/// want of memory.
pub(crate) fn letters_since(
    alloc: Global,
    unit: &Name,
    root: &Name,
    turn: Option<&TurnAhead>,
    log: &TaskLog,
    before: usize,
) -> Result<Vec<Letter>, AllocError>
    ensures { IfOk result (λ letters. letters.items ≡ letters_of unit.now root.now (option_map ahead_of (option_copied turn.entry)) (sends_in (take before log.now.log.effects)) (sends_in (drop before log.now.log.effects))) }
{
    let effects = log.effects();
    let mut left = effects.len().checked_sub(before).ok_or(AllocError)?;
    let mut letters = Vec::new(alloc);
    let mut counts = BTreeMap::new(alloc);
    let mut last = effects.last();
    while left > 0 {
        match last {
            Some(link) => {
                let (effect, below) = link.parts();
                add_letter(
                    &mut letters,
                    &mut counts,
                    alloc,
                    unit,
                    root,
                    turn,
                    log,
                    effect,
                    below,
                )?;
                last = below;
                left -= 1;
            }
            None => return Err(AllocError),
        }
    }
    letters.reverse();
    Ok(letters)
}

/// Adds what the effect sends, before which the attempt has done those below. Of each actor it is counted how many of the effects up to
/// this one send something to it, and then of those below.
fn add_letter(
    letters: &mut Vec<Letter>,
    counts: &mut BTreeMap<Name, usize>,
    alloc: Global,
    unit: &Name,
    root: &Name,
    turn: Option<&TurnAhead>,
    log: &TaskLog,
    effect: &Effect,
    below: Option<&Link<Effect>>,
) -> Result<(), AllocError>
    requires counts { AreLeft counts.old.entries log.now.log.effects (reverse (from_link (option_copied below)) ++ effect.now ∷ []) }
    ensures items { OnOk result (letters.new.items ≡ letters.old.items ++ letters_of unit.now root.now (option_map ahead_of (option_copied turn.entry)) (sends_in (reverse (from_link (option_copied below.entry)))) (send_in effect.now.what)) }
    ensures counts { OnOk result (AreLeft counts.new.entries log.now.log.effects (reverse (from_link (option_copied below.entry)))) }
{
    if let What::Send(to, args) = &effect.what {
        let before = take_one(counts, alloc, log, to)?;
        let earlier = add_held(turn, to, before)?;
        letters.push(make_letter(alloc, unit, root, to, args, earlier)?)?;
    }
    Ok(())
}

/// A message of the unit's attempt to that actor.
fn make_letter(
    alloc: Global,
    unit: &Name,
    root: &Name,
    to: &Name,
    args: &Values,
    earlier: usize,
) -> Result<Letter, AllocError>
    ensures { IfOk result (λ letter. letter ≡ record { to = to.now; message = tentative unit.now root.now args.now; earlier = earlier }) }
{
    let message = Message {
        sender: unit.copy(alloc)?,
        args: args.copy()?,
        depends: Some(root.copy(alloc)?),
    };
    let to = to.copy(alloc)?;
    Ok(Letter {
        to,
        message,
        earlier,
    })
}

/// How many sends to that actor there are, with so many of the unit's attempt, and those that its turn holds.
fn add_held(turn: Option<&TurnAhead>, to: &Name, before: usize) -> Result<usize, AllocError>
    ensures { IfOk result (λ count. count ≡ length (held_sends to.now (option_map ahead_of (option_copied turn.entry))) + before) }
{
    let held = match turn {
        Some(turn) => turn.count_sends(to),
        None => 0,
    };
    before.checked_add(held).ok_or(AllocError)
}

/// One less is counted for the actor; and how many that is. Where none is counted, it is taken for want of memory.
fn take_one(
    counts: &mut BTreeMap<Name, usize>,
    alloc: Global,
    log: &TaskLog,
    to: &Name,
) -> Result<usize, AllocError>
    ensures count { IfOk result (λ count. count + 1 ≡ left_at to.now counts.old.entries log.now.log.effects) }
    ensures counts { IfOk result (λ count. counts.new.entries ≡ with_named counts.old.entries to.now count) }
{
    let count = count_of(counts, log, to).checked_sub(1).ok_or(AllocError)?;
    put(counts, to.copy(alloc)?, count)?;
    Ok(count)
}

/// How many are counted for the actor: all that the log sends to it, where no other number is noted.
fn count_of(counts: &BTreeMap<Name, usize>, log: &TaskLog, to: &Name) -> usize
    ensures { result ≡ left_at to.now counts.now.entries log.now.log.effects }
{
    match find(counts, to) {
        Some(count) => *count,
        None => log.sends_to(to),
    }
}
