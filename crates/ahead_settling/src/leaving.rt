// How a turn is left where the history left it.
ghost use Rattle.std.specs.Prelude.{◌≡◌, ◌<◌, ◌∷◌, IfOk, IfSome, List, None, Some, false, is_some};
ghost use Rattle.std.specs.Option.{IsSome};
ghost use Rattle.ahead_settling.specs.Beginning.{HoldsIts};
ghost use Rattle.ahead_settling.specs.Leaving.{mark_so, root_in, CanLeave, CanSettle, IsLeft, IsMarkedLeft, LeavesAs, LeavesFirst, LevelUnless, WaitersAmong};
ghost use Rattle.serial_model.specs.declared.request.Request.{Request as Requested};
ghost use Rattle.shared_world.specs.Ahead.{Ahead as Leading};
ghost use Rattle.shared_world.specs.rows.Leading.{left_after, leads_on, IsChanged};
ghost use Rattle.turns_ahead.specs.Leading.{ahead_of, AreAsked, IsLeftNext};
ghost use Rattle.unit_table.specs.Board.{unit_at, HasPlace, IsUnlent};
ghost use Rattle.value_core.specs.Named.{each_as, named, Name as Called};
ghost use Rattle.world_steps.specs.Kept.{shared_of};

use crate::waking::wake_waiters;
use serial_model::Entry;
use shared_world::Given;
use std::alloc::{AllocError, Global};
use std::collections::BTreeMap;
use turns_ahead::{Left, TurnAhead};
use unit_table::{Mark, Units, WaitOn, Work};
use value_core::Name;
use value_core::name_map::find;
use world_steps::{Kept, Marks, append};

/// What is needed to leave a turn: the entry, twice, and the root of its attempt, where it has one.
#[derive(Drop)]
pub(crate) struct Leave {
    pub(crate) marks: Marks,
    pub(crate) root: Option<Name>,
}

/// The same, and where the history leaves the turn once the first request that it holds is settled.
#[derive(Drop)]
pub(crate) struct Settling {
    pub(crate) leave: Leave,
    pub(crate) left: Left,
}

/// Whether a turn runs ahead still, and whether it waits.
#[derive(Clone, Copy)]
pub(crate) struct StillAhead {
    pub(crate) leads: bool,
    pub(crate) waits: bool,
}

/// All memory that it takes to leave a turn by that entry.
pub(crate) fn leave_by(
    kept: &mut Kept,
    alloc: Global,
    name: &Name,
    entry: Entry,
) -> Result<Leave, AllocError>
    ensures same { shared_of kept.new ≡ shared_of kept.old }
    ensures others { kept.new ≡ record kept.old { history = kept.new.history } }
    ensures leave { IfOk result (CanLeave kept.new.history.room kept.new.units kept.new.attempts.entries name.now entry) }
{
    kept.make_room()?;
    let root = root_of(kept, alloc, name)?;
    let told = entry.copy(alloc)?;
    Ok(Leave {
        marks: Marks { entry, told },
        root,
    })
}

/// The name of the root of the unit's attempt, where it has one. Where nothing stands under that name, of which no run knows, it is
/// taken for want of memory.
fn root_of(kept: &Kept, alloc: Global, name: &Name) -> Result<Option<Name>, AllocError>
    ensures root { IfOk result (λ root. root ≡ root_in (named name.now kept.now.attempts.entries)) }
    ensures place { IfOk result (λ root. IfSome root (HasPlace kept.now.units)) }
{
    match find(&kept.attempts, name) {
        Some(tree) => {
            kept.check_place(tree.root_name())?;
            Ok(Some(tree.root_name().copy(alloc)?))
        }
        None => Ok(None),
    }
}

/// All memory that it takes to settle the first request that the turn holds, but for what that does.
pub(crate) fn prepare(kept: &mut Kept, alloc: Global, name: &Name) -> Result<Settling, AllocError>
    ensures same { shared_of kept.new ≡ shared_of kept.old }
    ensures others { kept.new ≡ record kept.old { history = kept.new.history } }
    ensures settling { IfOk result (CanSettle kept.new.history.room kept.new.units kept.new.attempts.entries kept.new.aheads.entries name.now) }
{
    let left = left_next(&kept.aheads, name)?;
    let leave = leave_by(kept, alloc, name, Entry::Run(name.copy(alloc)?))?;
    Ok(Settling { leave, left })
}

/// Where the history leaves the turn once the first request that it holds is settled.
fn left_next(aheads: &BTreeMap<Name, TurnAhead>, name: &Name) -> Result<Left, AllocError>
    ensures { IfOk result (λ left. IfSome (named name.now aheads.now.entries) (λ l. IsLeftNext l left)) }
{
    match find(aheads, name) {
        Some(turn) => turn.left_next(),
        None => Err(AllocError),
    }
}

/// The first request that the turn holds is settled: what it does is done. It takes no memory.
pub(crate) fn finish(kept: &mut Kept, name: &Name, settling: Settling) -> Given
    requires settling { CanSettle kept.old.history.room kept.old.units kept.old.attempts.entries kept.old.aheads.entries name.now settling }
    requires there { IsSome (unit_at kept.old.units name.now) }
    requires waiters { WaitersAmong kept.old.units name.now (named name.now kept.old.attempts.entries) }
    ensures leaves { LeavesFirst (shared_of kept.old) name.now (shared_of kept.new) result }
    ensures unlent { IsUnlent name.now kept.old.units kept.new.units }
    ensures end { kept.new.end ≡ kept.old.end }
{
    let Settling { leave, left } = settling;
    let still = settle_first(&mut kept.aheads, name, left);
    leave_turn(kept, name, leave, still)
}

/// The first request that the turn holds is settled, and the history leaves it there. It takes no memory.
fn settle_first(aheads: &mut BTreeMap<Name, TurnAhead>, name: &Name, left: Left) -> StillAhead
    requires { IfSome (named name.now aheads.old.entries) (λ l. IsLeftNext l left) }
    ensures { (h : Leading) (r : Requested) (rest : List Requested) → named name.now (each_as ahead_of aheads.old.entries) ≡ Some h → h.held ≡ r ∷ rest
        → IsLeft name.now (left_after h r rest) (each_as ahead_of aheads.old.entries) (each_as ahead_of aheads.new.entries) result }
{
    match aheads.get_mut(name) {
        Some(turn) => {
            turn.settle_by(left);
            still_ahead(turn)
        }
        None => none_ahead(left),
    }
}

/// The begin of the turn is settled. It takes no memory.
pub(crate) fn settle_take(aheads: &mut BTreeMap<Name, TurnAhead>, name: &Name) -> StillAhead
    requires { HoldsIts (each_as ahead_of aheads.old.entries) name.now }
    ensures { (h : Leading) → named name.now (each_as ahead_of aheads.old.entries) ≡ Some h
        → IsLeft name.now (record h { takes = None }) (each_as ahead_of aheads.old.entries) (each_as ahead_of aheads.new.entries) result }
{
    match aheads.get_mut(name) {
        Some(turn) => {
            turn.settle_begin();
            still_ahead(turn)
        }
        None => StillAhead {
            leads: false,
            waits: false,
        },
    }
}

/// Whether the turn, which holds requests alone, runs ahead still, and whether it waits.
fn still_ahead(turn: &TurnAhead) -> StillAhead
    ensures leads { AreAsked turn.now.turn.effects → result.leads ≡ is_some (leads_on (ahead_of turn.now)) }
    ensures waits { result.waits ≡ turn.now.waits }
{
    StillAhead {
        leads: turn.holds(),
        waits: turn.waits(),
    }
}

/// Where there is no turn: nothing runs ahead.
fn none_ahead(_left: Left) -> StillAhead {
    StillAhead {
        leads: false,
        waits: false,
    }
}

/// The turn is where the history left it: the entry is appended, and the unit is marked by that. It takes no memory.
pub(crate) fn leave_turn(kept: &mut Kept, name: &Name, leave: Leave, still: StillAhead) -> Given
    requires room { 0 < kept.old.history.room }
    requires told { leave.marks.told ≡ leave.marks.entry }
    requires root { leave.root ≡ root_in (named name.now kept.old.attempts.entries) }
    requires place { IfSome leave.root (HasPlace kept.old.units) }
    requires there { IsSome (unit_at kept.old.units name.now) }
    requires waiters { WaitersAmong kept.old.units name.now (named name.now kept.old.attempts.entries) }
    ensures leaves { LeavesAs (shared_of kept.old) name.now still leave.marks.entry (shared_of kept.new) result }
    ensures unlent { IsUnlent name.now kept.old.units kept.new.units }
    ensures end { kept.new.end ≡ kept.old.end }
{
    let Leave { marks, root } = leave;
    let Marks { entry, told } = marks;
    level_unless(kept, name, still.leads);
    mark_left(&mut kept.units, name, still, root);
    append(&mut kept.history, entry);
    Given::Settled(told)
}

/// A turn that holds nothing runs ahead no more, and nothing waits for it. It takes no memory.
fn level_unless(kept: &mut Kept, name: &Name, leads: bool)
    requires { WaitersAmong kept.old.units name.now (named name.now kept.old.attempts.entries) }
    ensures level { LevelUnless leads name.now (shared_of kept.old) (shared_of kept.new) }
    ensures others { kept.new ≡ record kept.old { units = kept.new.units; aheads = kept.new.aheads; begun = kept.new.begun } }
    ensures places { (other : Called) → HasPlace kept.old.units other → HasPlace kept.new.units other }
{
    if leads {
        return;
    }
    drop_turn(&mut kept.aheads, &mut kept.begun, name);
    wake_waiters(&mut kept.units, &kept.attempts, name);
}

/// The turn runs ahead no more. It takes no memory.
fn drop_turn(aheads: &mut BTreeMap<Name, TurnAhead>, begun: &mut BTreeMap<u64, Name>, name: &Name)
    ensures { IsChanged name.now None (each_as ahead_of aheads.old.entries) (each_as ahead_of aheads.new.entries) }
{
    let turn = aheads.remove(name);
    forget_number(begun, turn);
}

/// The turn has no number any more in the order of begins.
fn forget_number(begun: &mut BTreeMap<u64, Name>, turn: Option<TurnAhead>) {
    if let Some(turn) = turn {
        begun.remove(&turn.number());
    }
}

/// The unit has the mark of a turn that is left so, with an attempt of that root. It takes no memory.
fn mark_left(units: &mut Units, name: &Name, still: StillAhead, root: Option<Name>)
    requires there { IsSome (unit_at units.old name.now) }
    requires place { IfSome root (HasPlace units.old) }
    ensures marked { IsMarkedLeft name.now still root units.old units.new }
    ensures unlent { IsUnlent name.now units.old units.new }
{
    units.mark(name, mark_after(still, root));
}

/// The mark of a turn that is left so, with an attempt of that root.
fn mark_after(still: StillAhead, root: Option<Name>) -> Mark
    ensures { result ≡ mark_so still.leads root still.waits }
{
    if still.leads {
        return Mark::Ready(Work::Settle);
    }
    match root {
        Some(root) => Mark::Waiting(WaitOn::Finish(root)),
        None => mark_waited(still.waits),
    }
}

/// The mark of a turn that is left where it stands, and has no attempt.
fn mark_waited(waits: bool) -> Mark
    ensures { result ≡ mark_so false None waits }
{
    if waits {
        Mark::Ready(Work::Settle)
    } else {
        Mark::Ready(Work::Eval)
    }
}
