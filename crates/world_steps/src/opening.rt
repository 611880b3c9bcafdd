// What is kept before the first entry.
ghost use Rattle.std.specs.Prelude.{◌≡◌, IfOk, None, OnOk};
ghost use Rattle.std.specs.Arc.{arc_value};
ghost use Rattle.core_syntax.specs.WellFormed.{IsWellFormed};
ghost use Rattle.world_steps.specs.Kept.{shared_of};
ghost use Rattle.world_steps.specs.Opening.{before_all};
ghost use Rattle.shared_world.specs.Opening.{IsOpening};
ghost use Rattle.shared_world.specs.Shared.{claimed};
ghost use Rattle.unit_table.specs.Board.{lent_to};
ghost use Rattle.value_core.specs.declared.ticket.Ticket.{Ticket};

use crate::kept::Kept;
use actor_mails::Mails;
use core_syntax::Program;
use eval_step::Machine;
use ref_store::Store;
use serial_model::{History, Limits};
use std::alloc::{AllocError, Global};
use std::collections::BTreeMap;
use std::sync::Arc;
use unit_table::{UnitKind, Units};
use value_core::{Name, Places, Values};

impl Kept {
    /// Main alone, before the first entry.
    pub fn opening(alloc: Global, program: Arc<Program>, limits: Limits) -> Result<Self, AllocError>
        ensures opens { IfOk result (λ kept. IsOpening (record { program = arc_value program; limits = limits }) (shared_of kept)) }
        ensures unclaimed { IfOk result (λ kept. (ticket : Ticket) → claimed (shared_of kept) ticket ≡ None) }
        ensures formed { OnOk result (IsWellFormed (arc_value program)) }
    {
        let units = main_alone(alloc, &program, limits)?;
        Ok(Kept {
            program,
            limits,
            history: History::new(alloc),
            store: Store::new(alloc),
            units,
            mails: Mails::new(alloc),
            taken: Places::new(alloc),
            aheads: BTreeMap::new(alloc),
            begun: BTreeMap::new(alloc),
            attempts: BTreeMap::new(alloc),
            owners: Places::new(alloc),
            output: Vec::new(alloc),
            made: 1,
            end: None,
        })
    }
}

/// The table of main alone, which can go on.
fn main_alone(alloc: Global, program: &Program, limits: Limits) -> Result<Units, AllocError>
    ensures opens { IfOk result (λ units. IsOpening (record { program = program.now; limits = limits }) (before_all (record { program = program.now; limits = limits }) units)) }
    ensures unclaimed { IfOk result (λ units. (ticket : Ticket) → lent_to units ticket ≡ None) }
    ensures formed { OnOk result (IsWellFormed program.now) }
{
    let body = program.main();
    let name = Name::main(alloc)?;
    let values = Values::new(alloc);
    let machine = Machine::start(alloc, body, values, false, limits.fuel())?;
    let mut units = Units::new(alloc);
    units.add_unit(alloc, name, UnitKind::Main, machine)?;
    Ok(units)
}
