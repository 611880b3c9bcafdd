ghost use Rattle.std.specs.Prelude.{◌⊎◌, ℕ, List};
ghost use Rattle.value_core.specs.Place.{Spot};
ghost use Rattle.core_syntax.specs.Table.{Table};
ghost use Rattle.plan_errors.specs.declared.error.PlanKind.{PlanKind};
ghost use Rattle.resolved_forms.specs.declared.top.Top.{Top};
ghost use Rattle.program_plan.specs.Planned.{IsPlanned, IsUnplanned};

/// The law that all resolved forms have a program, or are refused with some kind at some place.
pub fn every_plan()
    ensures { (tops : List Top) (globals : ℕ) → ((table : Table) × IsPlanned tops globals table) ⊎ ((kind : PlanKind) × (at : Spot) × IsUnplanned tops globals kind at) }
{}
