// How an attempt commits.
ghost use Rattle.std.specs.Prelude.{◌≡◌, ◌≤◌, All, IfOk, IfSome, None, OnErr, OnOk, Some, length, suc};
ghost use Rattle.std.specs.Option.{IsSome};
ghost use Rattle.std.specs.Arc.{arc_value};
ghost use Rattle.eval_step.specs.Evaluation.{IsAsking, IsOf, IsSame};
ghost use Rattle.attempt_commits.specs.Committing.{CommitsOr, IsGatheredOf, IsPreparedFor, IsReadyUnit, IsAtRequest, IsTrying};
ghost use Rattle.world_steps.specs.Kept.{shared_of, IsSameBut};
ghost use Rattle.ref_store.specs.Store.{HasRoomFor};
ghost use Rattle.shared_world.specs.Stands.{Stands};
ghost use Rattle.unit_table.specs.Board.{unit_at};
ghost use Rattle.value_core.specs.Named.{named, Rises};
ghost use Rattle.attempt_commits.specs.Deeds.{AreDeeds, AreVacant, CanHold};
ghost use Rattle.attempt_commits.specs.Settling.{AreTurns};
ghost use Rattle.value_core.specs.Placed.{filled};
ghost use Rattle.world_model.specs.rows.Commits.{effects_bytes, what_bytes};

use crate::deeds::{Deeds, deeds_of};
use crate::doing::{do_deeds, room_for_deeds, turns_of};
use attempts_gone::{drop_attempt, forget_tasks, prune, room_for_snapshots};
use core_syntax::Program;
use eval_step::Machine;
use ref_store::Writes;
use serial_model::{Effect, Halt, What};
use shared_world::Given;
use std::alloc::{AllocError, Global};
use std::collections::BTreeMap;
use task_fork_join::Tree;
use task_log::list_effects;
use txn_snapshot::TaskLog;
use value_core::name_map::find;
use value_core::{Name, Value};
use world_steps::{Kept, Ready};

/// What a commit takes out of an attempt: the name of its root, what that wrote, what was printed in it, and what is to be done to
/// actors; and room for the snapshots of the attempts that are left.
#[derive(Drop)]
pub(crate) struct Gathered {
    pub(crate) root: Name,
    pub(crate) writes: Writes,
    pub(crate) text: Vec<u8>,
    pub(crate) deeds: Deeds,
    pub(crate) live: Vec<u64>,
}

/// A commit that is ready: the number of its entry, how many things the unit has made then, what it takes out of the attempt,
/// the turns on its messages, and the step of the unit. But for what it prints it takes no more memory.
#[derive(Drop)]
pub(crate) struct Prepared {
    pub(crate) number: u64,
    pub(crate) made: u32,
    pub(crate) gathered: Gathered,
    pub(crate) turns: BTreeMap<Name, Name>,
    pub(crate) ready: Ready,
}

/// The attempt of the unit commits, and the unit goes on with that value. For want of memory nothing changes but room.
pub fn commit(
    kept: &mut Kept,
    alloc: Global,
    owner: &Name,
    value: Value,
) -> Result<Given, AllocError>
    requires stands { Stands (shared_of kept.old) }
    requires going { kept.old.end ≡ None }
    requires attempt { IsTrying (shared_of kept.old) owner.now }
    ensures { CommitsOr (shared_of kept.old) owner.now value (shared_of kept.new) result }
{
    kept.units.claims_are_tied();
    let prepared = prepare(kept, alloc, owner, value)?;
    let Ok(()) = kept
        .output
        .extend_from_slice(prepared.gathered.text.as_slice())
    else {
        drop(prepared);
        return Err(AllocError);
    };
    let Prepared {
        number,
        made,
        gathered,
        turns,
        ready,
    } = prepared;
    let Gathered {
        root,
        writes,
        deeds,
        live,
        ..
    } = gathered;
    let tasks = drop_attempt(&mut kept.attempts, &mut kept.units, owner);
    kept.store.commit(writes, number);
    prune(&kept.attempts, &mut kept.store, live);
    let given = kept.settle(owner, ready, made);
    kept.units.claims_are_tied();
    do_deeds(kept, alloc, owner, &root, &turns, deeds);
    forget_tasks(&mut kept.units, tasks);
    Ok(given)
}

/// Takes all memory for the commit but that for what it prints. For want of memory nothing has changed but room.
fn prepare(
    kept: &mut Kept,
    alloc: Global,
    owner: &Name,
    value: Value,
) -> Result<Prepared, AllocError>
    requires stands { Stands (shared_of kept.old) }
    requires going { kept.old.end ≡ None }
    requires attempt { IsTrying (shared_of kept.old) owner.now }
    ensures same { IsSameBut (shared_of kept.old) (shared_of kept.new) }
    ensures others { kept.new ≡ record kept.old { history = kept.new.history; store = kept.new.store; units = kept.new.units; mails = kept.new.mails } }
    ensures prepared { IfOk result (IsPreparedFor (shared_of kept.old) kept.new owner.now value) }
{
    let Ok((number, made)) = numbers_of(kept, owner) else {
        drop(value);
        return Err(AllocError);
    };
    let Ok(gathered) = gather(kept, alloc, owner) else {
        drop(value);
        return Err(AllocError);
    };
    let Ok(ready) = ready_unit(kept, alloc, owner, value) else {
        drop(gathered);
        return Err(AllocError);
    };
    let Ok(turns) = turns_with_room(kept, alloc, &gathered) else {
        drop((gathered, ready));
        return Err(AllocError);
    };
    Ok(Prepared {
        number,
        made,
        gathered,
        turns,
        ready,
    })
}

/// The turns on the messages of what is gathered, and room for what it does to actors.
fn turns_with_room(
    kept: &mut Kept,
    alloc: Global,
    gathered: &Gathered,
) -> Result<BTreeMap<Name, Name>, AllocError>
    ensures same { IsSameBut (shared_of kept.old) (shared_of kept.new) }
    ensures others { kept.new ≡ record kept.old { units = kept.new.units; mails = kept.new.mails } }
    ensures turns { IfOk result (λ turns. AreTurns gathered.now.root gathered.now.deeds.counts.entries (filled kept.old.taken) kept.old.units turns.entries) }
    ensures letters { OnOk result (CanHold gathered.now.deeds.counts.entries kept.new.mails) }
    ensures actors { OnOk result (AreVacant gathered.now.deeds.actors.entries kept.new.units) }
{
    let turns = turns_of(kept, alloc, &gathered.root, &gathered.deeds.counts)?;
    room_for_deeds(kept, alloc, &gathered.deeds)?;
    Ok(turns)
}

/// The number of the next entry, and how many things the unit has made with the one that it makes next.
fn numbers_of(kept: &Kept, name: &Name) -> Result<(u64, u32), AllocError>
    requires there { IsSome (unit_at kept.now.units name.now) }
    ensures number { IfOk result (λ n. n.0 ≡ suc (length kept.now.history.items)) }
    ensures made { IfOk result (λ n. IfSome (unit_at kept.now.units name.now) (λ x. n.1 ≡ suc x.made)) }
{
    let number = kept.next_number()?;
    Ok((number, made_with_next(kept, name)?))
}

/// How many things the unit has made with the one that it makes next.
fn made_with_next(kept: &Kept, name: &Name) -> Result<u32, AllocError>
    requires there { IsSome (unit_at kept.now.units name.now) }
    ensures { IfOk result (λ made. IfSome (unit_at kept.now.units name.now) (λ x. made ≡ suc x.made)) }
{
    kept.made_of(name).checked_add(1).ok_or(AllocError)
}

/// What the commit takes out of the attempt, and room for it in the store.
fn gather(kept: &mut Kept, alloc: Global, owner: &Name) -> Result<Gathered, AllocError>
    ensures same { shared_of kept.new ≡ shared_of kept.old }
    ensures others { kept.new ≡ record kept.old { store = kept.new.store } }
    ensures gathered { IfOk result (λ g. IfSome (named owner.now kept.old.attempts.entries) (λ tree. IsGatheredOf owner.now tree kept.old.attempts.entries g)) }
    ensures room { IfOk result (λ g. HasRoomFor g.writes.items kept.new.store.room) }
{
    let gathered = done_in(kept, alloc, owner)?;
    kept.store.reserve(alloc, &gathered.writes)?;
    Ok(gathered)
}

/// What the commit takes out of the attempt. Where there is none, of which no claim knows, it is taken for want of memory.
fn done_in(kept: &Kept, alloc: Global, owner: &Name) -> Result<Gathered, AllocError>
    ensures { IfOk result (λ g. IfSome (named owner.now kept.now.attempts.entries) (λ tree. IsGatheredOf owner.now tree kept.now.attempts.entries g)) }
{
    match find(&kept.attempts, owner) {
        Some(tree) => gathered_of(alloc, owner, tree, &kept.attempts),
        None => Err(AllocError),
    }
}

/// The step of the unit is ready to be settled with that value.
fn ready_unit(
    kept: &mut Kept,
    alloc: Global,
    name: &Name,
    value: Value,
) -> Result<Ready, AllocError>
    requires stands { Stands (shared_of kept.old) }
    requires going { kept.old.end ≡ None }
    requires attempt { IsTrying (shared_of kept.old) name.now }
    ensures same { shared_of kept.new ≡ shared_of kept.old }
    ensures others { kept.new ≡ record kept.old { history = kept.new.history } }
    ensures ready { IfOk result (IsReadyUnit (shared_of kept.old) kept.new name.now value) }
{
    let machine = standing(kept, alloc, name)?;
    kept.prepare(alloc, name, machine, value)
}

/// The machine of the unit, at the request where it stands.
fn standing(kept: &Kept, alloc: Global, name: &Name) -> Result<Machine, AllocError>
    requires stands { Stands (shared_of kept.now) }
    requires going { kept.now.end ≡ None }
    requires attempt { IsTrying (shared_of kept.now) name.now }
    ensures { IfOk result (IsAtRequest (shared_of kept.now) name.now) }
{
    match kept.units.unit(name) {
        Some(unit) => run_on(alloc, &unit.machine, &kept.program),
        None => Err(AllocError),
    }
}

/// A copy of the machine, at the request where it stands. Where it stands at none, it is taken for want of memory.
fn run_on(alloc: Global, machine: &Machine, program: &Program) -> Result<Machine, AllocError>
    requires { IsOf program.now machine.now }
    ensures same { IfOk result (IsSame machine.now) }
    ensures of { IfOk result (IsOf program.now) }
    ensures asks { IfOk result IsAsking }
{
    let mut moved = machine.copy(alloc)?;
    let halt = moved.run_to_ask(alloc, program)?;
    match &halt {
        Halt::Ask(_, _) => {
            drop(halt);
            Ok(moved)
        }
        Halt::Value(_) | Halt::Fault(_, _) | Halt::Spent => {
            drop(halt);
            Err(AllocError)
        }
    }
}

/// What the root of the attempt of the unit wrote, and what the effects in it are, with room for the snapshots of the attempts.
fn gathered_of(
    alloc: Global,
    owner: &Name,
    tree: &Tree,
    attempts: &BTreeMap<Name, Tree>,
) -> Result<Gathered, AllocError>
    ensures { IfOk result (IsGatheredOf owner.now tree.now attempts.now.entries) }
{
    let log = tree.root();
    let live = room_for_snapshots(alloc, attempts)?;
    let (text, deeds) = done_by(alloc, owner, log)?;
    let Ok((root, writes)) = named_writes(alloc, tree.root_name(), log) else {
        drop((live, text, deeds));
        return Err(AllocError);
    };
    Ok(Gathered {
        root,
        writes,
        text,
        deeds,
        live,
    })
}

/// What the effects of the task print, and what they do to actors.
fn done_by(alloc: Global, owner: &Name, log: &TaskLog) -> Result<(Vec<u8>, Deeds), AllocError>
    ensures text { IfOk result (λ done. done.0.items ≡ effects_bytes log.now.log.effects) }
    ensures deeds { IfOk result (λ done. AreDeeds owner.now log.now.log.effects done.1) }
{
    let effects = list_effects(alloc, log.effects())?;
    let text = printed(alloc, &effects)?;
    Ok((text, deeds_of(alloc, owner, &effects)?))
}

/// That name, and the refs that the task wrote, with their values.
fn named_writes(alloc: Global, name: &Name, log: &TaskLog) -> Result<(Name, Writes), AllocError>
    ensures name { IfOk result (λ found. found.0 ≡ name.now) }
    ensures writes { IfOk result (λ found. found.1.items ≡ log.now.log.writes) }
    ensures rises { OnOk result (Rises log.now.log.writes) }
{
    let writes = written(alloc, log)?;
    Ok((name.copy(alloc)?, writes))
}

/// The refs that the task wrote, with their values.
fn written(alloc: Global, log: &TaskLog) -> Result<Writes, AllocError>
    ensures writes { IfOk result (λ writes. writes.items ≡ log.now.log.writes) }
    ensures rises { OnOk result (Rises log.now.log.writes) }
{
    let entries = log.writes().entries()?;
    let mut writes = Writes::new(alloc);
    writes.reserve(entries.len())?;
    for (name, value) in entries {
        writes.put(name, value)?;
    }
    Ok(writes)
}

/// What the effects print, one after the other.
fn printed(alloc: Global, effects: &[Effect]) -> Result<Vec<u8>, AllocError>
    ensures { IfOk result (λ text. text.items ≡ effects_bytes effects.now) }
{
    let mut text = Vec::new(alloc);
    for effect in effects {
        text.extend_from_slice(bytes_of(&effect.what))?;
    }
    Ok(text)
}

/// What an effect prints.
fn bytes_of(what: &What) -> &[u8]
    ensures { result.now ≡ what_bytes what.now }
{
    match what {
        What::Bytes(text) => text.items(),
        What::Send(_, _) | What::Spawn(_, _, _) | What::Become(_, _) => &[],
    }
}
