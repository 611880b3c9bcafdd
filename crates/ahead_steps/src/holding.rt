// A turn that holds one request more, and goes on with its answer.
ghost use Rattle.std.specs.Prelude.{◌≡◌, ◌++◌, ◌∷◌, [], IfOk, IfSome, OnErr, OnOk, Some, None, false};
ghost use Rattle.std.specs.Option.{IsSome};
ghost use Rattle.ahead_steps.specs.Going.{GoesOn, HoldsLast, IsGoing, IsGoingAt, IsTold};
ghost use Rattle.ahead_steps.specs.Leads.{HoldsOr};
ghost use Rattle.eval_step.specs.Evaluation.{IsAsking};
ghost use Rattle.serial_model.specs.declared.answer.Answer.TheVariants as answers;
ghost use Rattle.shared_world.specs.Stands.{Stands};
ghost use Rattle.tentative_turn.specs.Turn.{IsDosync, IsLookUp};
ghost use Rattle.turns_ahead.specs.Leading.{ahead_of, becomes_or};
ghost use Rattle.unit_table.specs.Board.{unit_at, HasPlace, IsPutAt, SameClaims};
ghost use Rattle.unit_table.specs.declared.piece.Piece.TheVariants as pieces;
ghost use Rattle.value_core.specs.Named.{Name as Called, each_as};
ghost use Rattle.world_steps.specs.Kept.{shared_of, IsUnitOf};

use crate::leads::{check_definite, mark_ahead};
use eval_step::Machine;
use serial_model::{Answer, Request};
use shared_world::Given;
use std::alloc::{AllocError, Global};
use std::collections::BTreeMap;
use tentative_turn::{Ahead, count_made, foretell};
use turns_ahead::{TurnAhead, next_becomes};
use unit_table::{Becoming, Mark, Unit, UnitKind, Units, Work};
use value_core::{Name, Value};
use world_steps::{Kept, answered, move_to};

/// A turn that is to go on ahead: its machine with the answer, how many things it has made then, what its actor becomes where the
/// request says so, and whether the turn is definite.
#[derive(Drop)]
pub(crate) struct Going {
    pub(crate) machine: Machine,
    pub(crate) made: u32,
    pub(crate) becomes: Option<Becoming>,
    pub(crate) definite: bool,
}

/// The turn holds the request as its last, and goes on with the answer.
pub(crate) fn hold(
    kept: &mut Kept,
    alloc: Global,
    name: &Name,
    moved: Machine,
    request: Request,
) -> Result<Given, AllocError>
    requires stands { Stands (shared_of kept.old) }
    requires unit { IsUnitOf (shared_of kept.old) name.now moved }
    requires asks { IsAsking moved }
    ensures { HoldsOr (shared_of kept.old) name.now request (shared_of kept.new) result }
{
    let going = prepare(kept, alloc, name, moved, request)?;
    go_on(&mut kept.units, name, going);
    Ok(Given::Held)
}

/// The turn holds the request as its last, and all memory is taken for it to go on.
pub(crate) fn prepare(
    kept: &mut Kept,
    alloc: Global,
    name: &Name,
    moved: Machine,
    request: Request,
) -> Result<Going, AllocError>
    requires asks { IsAsking moved }
    ensures going { IfOk result (IsGoingAt (shared_of kept.old) name.now moved request) }
    ensures held { OnOk result (HoldsLast name.now request (shared_of kept.old).aheads (shared_of kept.new).aheads) }
    ensures same { OnErr result (shared_of kept.new ≡ shared_of kept.old) }
    ensures others { kept.new ≡ record kept.old { aheads = kept.new.aheads } }
{
    let going = going_at(kept, alloc, name, moved, &request)?;
    hold_last(&mut kept.aheads, alloc, name, request)?;
    Ok(going)
}

/// How the turn goes on with the answer to the request.
fn going_at(
    kept: &Kept,
    alloc: Global,
    name: &Name,
    moved: Machine,
    request: &Request,
) -> Result<Going, AllocError>
    requires asks { IsAsking moved }
    ensures { IfOk result (IsGoingAt (shared_of kept.now) name.now moved request.now) }
{
    let definite = check_definite(kept, name)?;
    match kept.units.unit(name) {
        Some(unit) => going_with(alloc, name, unit, moved, request, definite),
        None => {
            machine_goes(moved);
            Err(AllocError)
        }
    }
}

/// How the unit goes on with the answer to the request.
fn going_with(
    alloc: Global,
    name: &Name,
    unit: &Unit,
    moved: Machine,
    request: &Request,
    definite: bool,
) -> Result<Going, AllocError>
    requires asks { IsAsking moved }
    ensures going { IfOk result (IsGoing name.now unit.now moved request.now) }
    ensures definite { IfOk result (λ going. going.definite ≡ definite) }
{
    let told = told_ahead(alloc, name, unit, request)?;
    let machine = answered(alloc, moved, told)?;
    let made = unit
        .made
        .checked_add(count_made(request))
        .ok_or(AllocError)?;
    let becomes = next_becomes(request)?;
    Ok(Going {
        machine,
        made,
        becomes,
        definite,
    })
}

/// What the unit is answered ahead to the request. Where that has to be looked up, or the unit is no turn, it is taken for want of
/// memory.
fn told_ahead(
    alloc: Global,
    name: &Name,
    unit: &Unit,
    request: &Request,
) -> Result<Value, AllocError>
    ensures { IfOk result (IsTold name.now unit.now request.now) }
{
    match &unit.kind {
        UnitKind::Turn(actor) => told_value(foretell(alloc, name, actor, unit.made, request)?),
        UnitKind::Main | UnitKind::Plain => Err(AllocError),
    }
}

/// The value that is answered.
fn told_value(answer: Option<Answer>) -> Result<Value, AllocError>
    ensures { IfOk result (λ value. answer ≡ Some (answers.Value value)) }
{
    match answer {
        Some(Answer::Value(value)) => Ok(value),
        _ => Err(AllocError),
    }
}

/// The turn of that name holds the request as its last.
fn hold_last(
    aheads: &mut BTreeMap<Name, TurnAhead>,
    alloc: Global,
    name: &Name,
    request: Request,
) -> Result<(), AllocError>
    requires begins { ¬ IsDosync request }
    requires look_up { ¬ IsLookUp request }
    ensures held { OnOk result (HoldsLast name.now request (each_as ahead_of aheads.old.entries) (each_as ahead_of aheads.new.entries)) }
    ensures same { OnErr result (aheads.new.entries ≡ aheads.old.entries) }
{
    match aheads.get_mut(name) {
        Some(turn) => hold_in(turn, alloc, request),
        None => Err(AllocError),
    }
}

/// The turn holds the request as its last.
fn hold_in(turn: &mut TurnAhead, alloc: Global, request: Request) -> Result<(), AllocError>
    requires begins { ¬ IsDosync request }
    requires look_up { ¬ IsLookUp request }
    ensures held { OnOk result (ahead_of turn.new ≡ record (ahead_of turn.old) { held = (ahead_of turn.old).held ++ request ∷ []; waits = false }) }
    ensures same { OnErr result (turn.new ≡ turn.old) }
{
    let ahead = turn.go(alloc, request)?;
    answer_goes(ahead);
    Ok(())
}

/// The unit goes on so. It takes no memory.
pub(crate) fn go_on(units: &mut Units, name: &Name, going: Going)
    requires { IsSome (unit_at units.old name.now) }
    ensures { IfSome (unit_at units.old name.now) (λ x. GoesOn name.now x going units.old units.new) }
{
    let Going {
        machine,
        made,
        becomes,
        definite,
    } = going;
    turn_into(units, name, becomes);
    let mark = mark_ahead(definite, Mark::Ready(Work::Eval));
    move_to(units, name, machine, made, mark);
}

/// The actor of the unit becomes that at its end, where it is said. It takes no memory.
fn turn_into(units: &mut Units, name: &Name, becomes: Option<Becoming>)
    requires { IsSome (unit_at units.old name.now) }
    ensures turned { IfSome (unit_at units.old name.now) (λ x. IsPutAt name.now (Some (pieces.Unit (record x { becomes = becomes_or becomes x.becomes }))) units.old units.new) }
    ensures claims { SameClaims units.old units.new }
    ensures places { (other : Called) → HasPlace units.old other → HasPlace units.new other }
{
    if let Some(next) = becomes {
        units.turn_into(name, next);
    }
}

/// Drops a machine.
fn machine_goes(_machine: Machine) {}

/// Drops what was foretold.
fn answer_goes(_ahead: Ahead) {}
