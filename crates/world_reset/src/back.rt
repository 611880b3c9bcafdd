// What becomes of each piece.
ghost use Rattle.std.specs.Prelude.{◌≡◌, IfOk, Some};
ghost use Rattle.std.specs.Option.{option_copied};
ghost use Rattle.shared_world.specs.Stands.{Stands};
ghost use Rattle.turns_ahead.specs.Leading.{ahead_of};
ghost use Rattle.unit_table.specs.Board.{piece_at};
ghost use Rattle.unit_table.specs.declared.piece.Piece.TheVariants as pieces;
ghost use Rattle.unit_table.specs.Piece.{says_finished};
ghost use Rattle.value_core.specs.Named.{named};
ghost use Rattle.world_reset.specs.Back.{anew_or_stays, IsBackFor, IsLeadBack, IsUnitBack};
ghost use Rattle.world_steps.specs.Kept.{shared_of};

use crate::left::{Left, left_of};
use core_syntax::Program;
use std::alloc::{AllocError, Global};
use std::collections::BTreeMap;
use task_fork_join::Tree;
use turns_ahead::TurnAhead;
use unit_table::{Mark, Piece, Unit};
use value_core::Name;
use value_core::name_map::find;
use world_steps::Kept;

/// What becomes of a piece, with all the memory that it takes.
#[derive(Drop)]
pub(crate) enum Back {
    /// It is gone: a task, or a turn whose begin is held.
    Gone,
    /// The unit stands there, and can go on.
    Left(Left),
    /// The unit, whose attempt is gone, can begin one anew.
    Anew,
    /// The unit stays.
    Stays,
    /// The actor has no turn but one that the history knows.
    Freed,
}

/// What becomes of what stands under the name.
pub(crate) fn back_of(kept: &Kept, alloc: Global, name: &Name) -> Result<Back, AllocError>
    requires stands { Stands (shared_of kept.now) }
    ensures { IfOk result (IsBackFor (shared_of kept.now) name.now) }
{
    match kept.units.piece(name) {
        Some(Piece::Unit(unit)) => unit_back(kept, alloc, name, unit),
        Some(Piece::Task(_)) => Ok(Back::Gone),
        Some(Piece::Actor(_)) => Ok(Back::Freed),
        None => Err(AllocError),
    }
}

/// What becomes of the unit under the name.
fn unit_back(kept: &Kept, alloc: Global, name: &Name, unit: &Unit) -> Result<Back, AllocError>
    ensures { IfOk result (IsUnitBack (shared_of kept.now) name.now unit.now) }
{
    match find(&kept.aheads, name) {
        Some(lead) => lead_back(&kept.program, alloc, name, unit, lead),
        None => Ok(level_back(&kept.attempts, name, unit)),
    }
}

/// What becomes of the unit, which runs ahead.
fn lead_back(
    program: &Program,
    alloc: Global,
    name: &Name,
    unit: &Unit,
    lead: &TurnAhead,
) -> Result<Back, AllocError>
    ensures { IfOk result (IsLeadBack program.now unit.now (ahead_of lead.now) (ahead_of lead.now).takes) }
{
    match lead.takes() {
        Some(_) => Ok(Back::Gone),
        None => Ok(Back::Left(left_of(program, alloc, name, unit, lead)?)),
    }
}

/// What becomes of a unit that stands where the history left it.
fn level_back(attempts: &BTreeMap<Name, Tree>, name: &Name, unit: &Unit) -> Back
    ensures { result ≡ anew_or_stays (named name.now attempts.now.entries) unit.now.mark }
{
    match find(attempts, name) {
        Some(_) if !is_finished(&unit.mark) => Back::Anew,
        _ => Back::Stays,
    }
}

/// Whether the mark is that of a piece that is finished.
fn is_finished(mark: &Mark) -> bool
    ensures { result ≡ says_finished mark.now }
{
    match mark {
        Mark::Finished(_) => true,
        Mark::Ready(_) | Mark::Waiting(_) | Mark::Resting | Mark::Dropped => false,
    }
}
