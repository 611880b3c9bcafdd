// How one thread ends a run.
ghost use Rattle.std.specs.Prelude.{◌≡◌, [], IfOk, MatchOption, None, OnOk, Some, false, true};
ghost use Rattle.std.specs.Option.{option_and_then};
ghost use Rattle.actor_mails.specs.Firsts.{IsFirstWithMail};
ghost use Rattle.actor_mails.specs.Mails.{held, NoMail};
ghost use Rattle.run_end.specs.Finishing.{AreEnding, GoesOn, IsEnded, IsFinished, IsOverOr, NoneOut, NoneTried};
ghost use Rattle.run_end.specs.InTurn.{GoesInTurn, IsDue, IsLeft, IsMadeBehind, IsOpenPiece, IsUpToOpen, IsWalked, IsWalkedOr, IsLevel, number_at};
ghost use Rattle.run_end.specs.Over.{IsOverWith};
ghost use Rattle.run_end.specs.Sorted.{IsSorted};
ghost use Rattle.shared_world.specs.Few.{KeepsFew};
ghost use Rattle.shared_world.specs.Later.{IsLater};
ghost use Rattle.shared_world.specs.Marks.{HasMarks};
ghost use Rattle.shared_world.specs.Rest.{AreFinished};
ghost use Rattle.shared_world.specs.rows.Attempts.{ArePrunedFor};
ghost use Rattle.shared_world.specs.Shared.{work_in as kept_work_in};
ghost use Rattle.shared_world.specs.Stands.{Stands};
ghost use Rattle.unit_table.specs.Board.{ComesAfter, IsNextAfter, is_unfinished, lent_to, mark_at, piece_at};
ghost use Rattle.unit_table.specs.Piece.{says_finished};
ghost use Rattle.value_core.specs.declared.ticket.Ticket.{Ticket as Numbered};
ghost use Rattle.value_core.specs.Named.{Name as Called};
ghost use Rattle.world_steps.specs.Kept.{shared_of};

use crate::over::end_by;
use attempts_gone::prune;
use lent_pieces::{copy_machine, give_to, work_in};
use ref_store::Store;
use serial_model::End;
use shared_world::Given;
use std::alloc::{AllocError, Global};
use std::collections::BTreeMap;
use task_fork_join::Tree;
use unit_table::{Mark, Piece, Units, Work};
use value_core::Name;
use world_reset::{next_piece, reset};
use world_steps::Kept;

/// Ends the run by one thread: every claim ends, everything goes back to where the history left it, so that no attempt is left, no turn
/// runs ahead, and nothing is held, and then one entry after the other is settled, each in turn, until the run is over. Of each ref few
/// versions are kept. For want of memory the history has grown by whole entries.
pub fn finish(kept: &mut Kept, alloc: Global) -> Result<End, AllocError>
    requires stands { Stands (shared_of kept.old) }
    requires marks { HasMarks (shared_of kept.old) }
    ensures stands { Stands (shared_of kept.new) }
    ensures marks { HasMarks (shared_of kept.old) → HasMarks (shared_of kept.new) }
    ensures few { KeepsFew (shared_of kept.old) → KeepsFew (shared_of kept.new) }
    ensures later { IsLater (shared_of kept.old) (shared_of kept.new) }
    ensures turns { GoesInTurn (shared_of kept.old) (shared_of kept.new) }
    ensures finished { IfOk result (IsFinished (shared_of kept.new)) }
{
    withdraw(kept, alloc)?;
    let end = settle_all(kept, alloc)?;
    clear_attempts(&mut kept.attempts, &mut kept.store, alloc);
    Ok(end)
}

/// Every claim ends, and everything goes back to where the history left it: no attempt is left, and no turn runs ahead.
fn withdraw(kept: &mut Kept, alloc: Global) -> Result<(), AllocError>
    requires stands { Stands (shared_of kept.old) }
    ensures goes { GoesOn (shared_of kept.old) (shared_of kept.new) }
    ensures claims { OnOk result (NoneOut (shared_of kept.new)) }
    ensures tried { OnOk result (NoneTried kept.new.attempts.entries) }
    ensures level { OnOk result (IsLevel (shared_of kept.new)) }
{
    end_claims(&mut kept.units, alloc)?;
    reset(kept, alloc)
}

/// Settles one entry after the other, each in turn, until the run is over.
fn settle_all(kept: &mut Kept, alloc: Global) -> Result<End, AllocError>
    requires stands { Stands (shared_of kept.old) }
    requires marks { HasMarks (shared_of kept.old) }
    requires walked { IsWalkedOr (shared_of kept.old) None }
    ensures goes { GoesOn (shared_of kept.old) (shared_of kept.new) }
    ensures end { IfOk result (IsOverWith (shared_of kept.new)) }
{
    let mut passed = None;
    for _ in 0..u64::MAX {
        if let Some(end) = end_reached(kept, alloc, &passed)? {
            return Ok(end);
        }
        passed = settle_next(kept, alloc, passed)?;
    }
    Err(AllocError)
}

/// The end of the run, where it is set, or where the run is over and nothing is passed. So the mail is looked through once for each
/// walk over the pieces, and not for each step.
fn end_reached(kept: &Kept, alloc: Global, passed: &Option<Name>) -> Result<Option<End>, AllocError>
    requires stands { Stands (shared_of kept.now) }
    ensures { IfOk result (IsOverOr (shared_of kept.now)) }
{
    if kept.end.is_none() && passed.is_some() {
        return Ok(None);
    }
    match end_by(kept, &End::Done) {
        Some(end) => Ok(Some(end.copy(alloc)?)),
        None => Ok(None),
    }
}

/// One step: of the first unit that is not finished, or where each is finished, of the first actor that has mail; or one more piece is
/// passed on the way to that unit. It answers which is passed then.
fn settle_next(
    kept: &mut Kept,
    alloc: Global,
    passed: Option<Name>,
) -> Result<Option<Name>, AllocError>
    requires stands { Stands (shared_of kept.old) }
    requires marks { HasMarks (shared_of kept.old) }
    requires going { kept.old.end ≡ None }
    requires walked { IsWalked (shared_of kept.old) passed }
    ensures goes { GoesOn (shared_of kept.old) (shared_of kept.new) }
    ensures walked { IfOk result (IsWalkedOr (shared_of kept.new)) }
{
    if kept.units.open_unit().is_none() {
        return begin_turn(kept, alloc);
    }
    match next_piece(&kept.units, alloc, &passed)? {
        Some(name) => settle_or_pass(kept, alloc, name, passed),
        None => Ok(None),
    }
}

/// Where each unit is finished, the turn begins of the first actor in after-order that has mail, on a message of the first of its
/// senders. All but that turn is passed then. Where nobody has mail, nothing is.
fn begin_turn(kept: &mut Kept, alloc: Global) -> Result<Option<Name>, AllocError>
    requires stands { Stands (shared_of kept.old) }
    requires marks { HasMarks (shared_of kept.old) }
    requires going { kept.old.end ≡ None }
    requires level { IsLevel (shared_of kept.old) }
    requires finished { AreFinished kept.old.units }
    ensures goes { GoesOn (shared_of kept.old) (shared_of kept.new) }
    ensures walked { IfOk result (IsWalkedOr (shared_of kept.new)) }
{
    match first_mailed(kept, alloc)? {
        Some(name) => begin_turn_of(kept, alloc, &name),
        None => Ok(None),
    }
}

/// The turn begins of that actor, which is the first in after-order that has mail.
fn begin_turn_of(kept: &mut Kept, alloc: Global, name: &Name) -> Result<Option<Name>, AllocError>
    requires stands { Stands (shared_of kept.old) }
    requires marks { HasMarks (shared_of kept.old) }
    requires going { kept.old.end ≡ None }
    requires level { IsLevel (shared_of kept.old) }
    requires finished { AreFinished kept.old.units }
    requires mailed { IsFirstWithMail (held kept.old.mails) name.now }
    ensures goes { GoesOn (shared_of kept.old) (shared_of kept.new) }
    ensures walked { IfOk result (IsWalkedOr (shared_of kept.new)) }
{
    let left = before_made(&kept.units, alloc, name)?;
    sort_mail(kept, name);
    settle_due(kept, alloc, name, left)
}

/// The first actor in after-order that has mail, where one has. What is kept stays.
fn first_mailed(kept: &mut Kept, alloc: Global) -> Result<Option<Name>, AllocError>
    ensures same { kept.new ≡ kept.old }
    ensures first { IfOk result (λ found. MatchOption found (NoMail (held kept.old.mails)) (IsFirstWithMail (held kept.old.mails))) }
{
    kept.mails.first_with_mail(alloc)
}

/// The mail of the actor is sorted by sender.
fn sort_mail(kept: &mut Kept, name: &Name)
    ensures { IsSorted name.now (shared_of kept.old) (shared_of kept.new) }
{
    kept.mails.sort(name);
}

/// A name that comes right before what the piece makes next, where it is a unit or an actor.
fn before_made(units: &Units, alloc: Global, name: &Name) -> Result<Option<Name>, AllocError>
    ensures { IfOk result (λ left. IsMadeBehind units.now name.now left) }
{
    match number_at(units, name) {
        Some(number) => {
            let made = name.child(alloc, number)?;
            Ok(Some(made.child(alloc, 0)?))
        }
        None => Ok(None),
    }
}

/// The piece, which is the first behind those that were passed, takes a step, where that is in turn; else it is passed.
fn settle_or_pass(
    kept: &mut Kept,
    alloc: Global,
    name: Name,
    passed: Option<Name>,
) -> Result<Option<Name>, AllocError>
    requires stands { Stands (shared_of kept.old) }
    requires marks { HasMarks (shared_of kept.old) }
    requires going { kept.old.end ≡ None }
    requires walked { IsWalked (shared_of kept.old) passed }
    requires next { IsNextAfter kept.old.units passed name }
    ensures goes { GoesOn (shared_of kept.old) (shared_of kept.new) }
    ensures walked { IfOk result (IsWalkedOr (shared_of kept.new)) }
{
    if is_due(&kept.units, &name) {
        let left = left_of(&kept.units, alloc, &name, passed)?;
        settle_due(kept, alloc, &name, left)
    } else {
        Ok(Some(name))
    }
}

/// The piece, which is the first that is not finished, or where each unit is finished the first actor that has mail, takes its step. What
/// is given is passed then, before which nothing that the piece makes comes; unless the piece waits.
fn settle_due(
    kept: &mut Kept,
    alloc: Global,
    name: &Name,
    left: Option<Name>,
) -> Result<Option<Name>, AllocError>
    requires stands { Stands (shared_of kept.old) }
    requires marks { HasMarks (shared_of kept.old) }
    requires going { kept.old.end ≡ None }
    requires walked { IsWalked (shared_of kept.old) left }
    requires first { IsUpToOpen kept.old.units name.now }
    requires due { IsDue (shared_of kept.old) name.now }
    requires made { IsMadeBehind kept.old.units name.now left }
    ensures goes { GoesOn (shared_of kept.old) (shared_of kept.new) }
    ensures walked { IfOk result (IsWalkedOr (shared_of kept.new)) }
{
    let machine = copy_machine(kept, alloc, name)?;
    let given = give_to(kept, alloc, name, machine, None)?;
    if waits(given) { Ok(None) } else { Ok(left) }
}

/// Whether the piece waits.
fn waits(given: Given) -> bool {
    match given {
        Given::Waiting(_) => true,
        Given::Settled(_)
        | Given::Held
        | Given::Local
        | Given::Began { .. }
        | Given::Aborted { .. }
        | Given::Stale => false,
    }
}

/// No attempt is left, and no version that only one read. It takes no memory.
fn clear_attempts(attempts: &mut BTreeMap<Name, Tree>, store: &mut Store, alloc: Global)
    ensures none { attempts.new.entries ≡ [] }
    ensures pruned { ArePrunedFor attempts.new.entries store.old.versions store.new.versions }
{
    attempts.clear();
    prune(attempts, store, Vec::new(alloc));
}

/// Whether a step of the piece is in turn, where it is the first that is not passed: it is a unit or a task that is not finished. It
/// takes no memory.
fn is_due(units: &Units, name: &Name) -> bool
    ensures due { result ≡ true → IsOpenPiece (piece_at units.now name.now) }
    ensures passed { result ≡ false → is_unfinished units.now name.now ≡ false }
{
    match units.piece(name) {
        Some(Piece::Unit(unit)) => !is_finished(&unit.mark),
        Some(Piece::Task(mark)) => !is_finished(mark),
        Some(Piece::Actor(_)) | None => false,
    }
}

/// Whether the mark is that of a piece that is finished.
fn is_finished(mark: &Mark) -> bool
    ensures { result ≡ says_finished mark.now }
{
    match mark {
        Mark::Finished(_) => true,
        Mark::Ready(_) | Mark::Waiting(_) | Mark::Resting | Mark::Dropped => false,
    }
}

/// What was passed, where what the piece makes next comes behind it; else a name that comes right before that.
fn left_of(
    units: &Units,
    alloc: Global,
    name: &Name,
    passed: Option<Name>,
) -> Result<Option<Name>, AllocError>
    ensures { IfOk result (IsLeft units.now name.now passed) }
{
    match number_at(units, name) {
        Some(number) => {
            let made = name.child(alloc, number)?;
            Ok(before(passed, alloc, &made)?)
        }
        None => Ok(passed),
    }
}

/// How many things the piece has made, where it is a unit, and how many turns it began, where it is an actor.
fn number_at(units: &Units, name: &Name) -> Option<u32>
    ensures { result ≡ number_at units.now name.now }
{
    match units.piece(name) {
        Some(Piece::Unit(unit)) => Some(unit.made),
        Some(Piece::Actor(actor)) => Some(actor.state.turns),
        Some(Piece::Task(_)) | None => None,
    }
}

/// The name that was passed, where it comes before the other one; else one that comes right before that.
fn before(passed: Option<Name>, alloc: Global, made: &Name) -> Result<Option<Name>, AllocError>
    ensures made { IfOk result (λ left. ComesAfter left made.now) }
    ensures behind { IfOk result (λ left. (name : Called) → ComesAfter passed name → ComesAfter left name) }
{
    match passed {
        Some(name) => Ok(Some(before_name(name, alloc, made)?)),
        None => Ok(None),
    }
}

/// The name, where it comes before the other one; else one that comes right before that.
fn before_name(name: Name, alloc: Global, made: &Name) -> Result<Name, AllocError>
    ensures made { IfOk result (λ left. ComesAfter (Some left) made.now) }
    ensures behind { IfOk result (λ left. (other : Called) → ComesAfter (Some name) other → ComesAfter (Some left) other) }
{
    if name.cmp_after(made).is_lt() {
        Ok(name)
    } else {
        Ok(made.child(alloc, 0)?)
    }
}

/// Every claim ends.
fn end_claims(units: &mut Units, alloc: Global) -> Result<(), AllocError>
    ensures ending { AreEnding units.old units.new }
    ensures none { OnOk result ((ticket : Numbered) → lent_to units.new ticket ≡ None) }
{
    let mut passed = None;
    for _ in 0..u64::MAX {
        units.lent_are_ready();
        match next_piece(units, alloc, &passed)? {
            Some(name) => {
                end_claim(units, &name);
                passed = Some(name);
            }
            None => return Ok(()),
        }
    }
    Err(AllocError)
}

/// The claim on the piece ends, where one is out.
fn end_claim(units: &mut Units, name: &Name)
    ensures { IsEnded name.now units.old units.new }
{
    match work_at(units, name) {
        Some(work) => units.mark(name, Mark::Ready(work)),
        None => units.lent_are_ready(),
    }
}

/// What can be done with the piece, where something can.
fn work_at(units: &Units, name: &Name) -> Option<Work>
    ensures { result ≡ option_and_then kept_work_in (mark_at units.now name.now) }
{
    match units.mark_of(name) {
        Some(mark) => work_in(mark),
        None => None,
    }
}
