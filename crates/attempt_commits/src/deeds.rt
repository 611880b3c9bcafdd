// What the effects of a commit do to actors.
ghost use Rattle.std.specs.Prelude.{◌≡◌, ◌+◌, ◌++◌, ◌∷◌, [], IfOk, OnOk, Some};
ghost use Rattle.attempt_commits.specs.Deeds.{count_at, letter_of, AreDeeds, IsWithDeed};
ghost use Rattle.serial_model.specs.Step as row;
ghost use Rattle.value_core.specs.Named.{named, with_named};

use actor_mailbox::Message;
use serial_model::{ActorState, Effect, What};
use std::alloc::{AllocError, Global};
use std::collections::BTreeMap;
use unit_table::Becoming;
use value_core::name_map::{find, put};
use value_core::{Name, Values};
use world_steps::idle;

/// A message, and the actor to which it goes.
#[derive(Drop)]
pub(crate) struct Letter {
    pub(crate) to: Name,
    pub(crate) message: Message,
}

/// What the effects of a commit do to actors: the messages in order, and how many there are to each receiver; the actors that
/// begin; and what the actor of the unit becomes, where that is said.
#[derive(Drop)]
pub(crate) struct Deeds {
    pub(crate) letters: Vec<Letter>,
    pub(crate) counts: BTreeMap<Name, usize>,
    pub(crate) actors: BTreeMap<Name, ActorState>,
    pub(crate) becomes: Option<Becoming>,
}

/// What the effects of the unit do to actors.
pub(crate) fn deeds_of(alloc: Global, owner: &Name, effects: &[Effect]) -> Result<Deeds, AllocError>
    ensures { IfOk result (AreDeeds owner.now effects.now) }
{
    let mut deeds = no_deeds(alloc);
    for effect in effects {
        add_deed(&mut deeds, alloc, owner, &effect.what)?;
    }
    Ok(deeds)
}

/// Nothing is done. It takes no memory.
fn no_deeds(alloc: Global) -> Deeds
    ensures letters { result.letters.items ≡ [] }
    ensures counts { result.counts.entries ≡ [] }
    ensures actors { result.actors.entries ≡ [] }
    ensures becomes { result.becomes ≡ None }
{
    Deeds {
        letters: Vec::new(alloc),
        counts: BTreeMap::new(alloc),
        actors: BTreeMap::new(alloc),
        becomes: None,
    }
}

/// Adds what an effect of the unit does to actors.
fn add_deed(deeds: &mut Deeds, alloc: Global, owner: &Name, what: &What) -> Result<(), AllocError>
    ensures { OnOk result (IsWithDeed owner.now what.now deeds.old deeds.new) }
{
    match what {
        What::Bytes(_) => Ok(()),
        What::Send(to, args) => add_letter(
            &mut deeds.letters,
            &mut deeds.counts,
            alloc,
            owner,
            to,
            args,
        ),
        What::Spawn(name, behaviour, state) => {
            add_spawned(&mut deeds.actors, alloc, name, *behaviour, state)
        }
        What::Become(behaviour, state) => set_becoming(&mut deeds.becomes, *behaviour, state),
    }
}

/// Adds a message of the unit to an actor.
fn add_letter(
    letters: &mut Vec<Letter>,
    counts: &mut BTreeMap<Name, usize>,
    alloc: Global,
    owner: &Name,
    to: &Name,
    args: &Values,
) -> Result<(), AllocError>
    ensures letters { OnOk result (letters.new.items ≡ letters.old.items ++ letter_of owner.now to.now args.now ∷ []) }
    ensures counts { OnOk result (counts.new.entries ≡ with_named counts.old.entries to.now (count_at counts.old.entries to.now + 1)) }
{
    let letter = new_letter(alloc, owner, to, args)?;
    count(counts, alloc, to)?;
    letters.push(letter)?;
    Ok(())
}

/// A settled message of the unit to an actor.
fn new_letter(alloc: Global, owner: &Name, to: &Name, args: &Values) -> Result<Letter, AllocError>
    ensures { IfOk result (λ letter. letter ≡ letter_of owner.now to.now args.now) }
{
    let message = Message {
        sender: owner.copy(alloc)?,
        args: args.copy()?,
        depends: None,
    };
    let to = to.copy(alloc)?;
    Ok(Letter { to, message })
}

/// One more is counted under the name.
fn count(counts: &mut BTreeMap<Name, usize>, alloc: Global, name: &Name) -> Result<(), AllocError>
    ensures { OnOk result (counts.new.entries ≡ with_named counts.old.entries name.now (count_at counts.old.entries name.now + 1)) }
{
    let more = count_of(counts, name).checked_add(1).ok_or(AllocError)?;
    put(counts, name.copy(alloc)?, more)
}

/// How many are counted under the name.
fn count_of(counts: &BTreeMap<Name, usize>, name: &Name) -> usize
    ensures { result ≡ count_at counts.now.entries name.now }
{
    match find(counts, name) {
        Some(count) => *count,
        None => 0,
    }
}

/// Adds an idle actor, in the place of one of that name.
fn add_spawned(
    actors: &mut BTreeMap<Name, ActorState>,
    alloc: Global,
    name: &Name,
    behaviour: u32,
    state: &Values,
) -> Result<(), AllocError>
    ensures { OnOk result (actors.new.entries ≡ with_named actors.old.entries name.now (row.idle behaviour state.now)) }
{
    let actor = idle(behaviour, state.copy()?);
    put(actors, name.copy(alloc)?, actor)
}

/// It is said what the actor becomes.
fn set_becoming(
    becomes: &mut Option<Becoming>,
    behaviour: u32,
    state: &Values,
) -> Result<(), AllocError>
    ensures { OnOk result (becomes.new ≡ Some (record { behaviour = behaviour; state = state.now })) }
{
    let state = state.copy()?;
    *becomes = Some(Becoming { behaviour, state });
    Ok(())
}
