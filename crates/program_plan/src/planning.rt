ghost use Rattle.std.specs.Prelude.{◌≡◌, IfOk, IfErr};
ghost use Rattle.core_syntax.specs.Fits.{IsFitting};
ghost use Rattle.resolved_forms.specs.FormsInRange.{FormsInRange};
ghost use Rattle.resolved_forms.specs.Units.{all_units};
ghost use Rattle.program_plan.specs.Planned.{IsPlanned, IsUnplanned, Reached, RefusedAs};
ghost use Rattle.resolved_forms.specs.Reach.{AreReached};
ghost use Rattle.resolved_forms.specs.TopSurvey.{tops_surveyed};
ghost use Rattle.value_core.specs.primitives.Words.{takes_of};

use crate::lower::lower;
use core_syntax::Program;
use early_globals::first_early;
use plan_errors::{PlanKind, PlanNo, refused};
use resolved_forms::{TopForms, TopSurvey, all_units, lay_out, reached, survey_tops};
use std::alloc::{AllocError, Global};
use value_core::Seq;

/// The program of top-level forms whose names are resolved and that bind so many globals.
///
/// `EarlyGlobal` comes first, at the first such form, and only where there is none `TooManyNodes`. Want of memory can
/// come at any time.
#[tactic(auto, using(crate::proofs::Fitting::plan_fits))]
pub fn plan(alloc: Global, tops: &TopForms, globals: u32) -> Result<Program, PlanNo>
    ensures program { IfOk result (IsPlanned tops.now globals) }
    // of forms in range, the nodes have frames in which each name lies, and each call has as many arguments as are taken
    ensures fits { FormsInRange tops.now globals → IfOk result (IsFitting takes_of) }
    ensures refused { IfErr result (RefusedAs (IsUnplanned tops.now globals)) }
{
    let survey = survey_tops(alloc, tops)?;
    let lists = reached_in(alloc, &survey, globals)?;
    program_with(alloc, tops, globals, &survey, &lists)
}

// The globals that each unit of code reaches.
fn reached_in(alloc: Global, survey: &TopSurvey, globals: u32) -> Result<Seq<Seq<u32>>, AllocError>
    ensures { IfOk result (AreReached (all_units survey.now) globals) }
{
    let units = all_units(alloc, survey)?;
    reached(alloc, &units, globals)
}

// The program, where the forms have this survey and their units reach these globals.
#[tactic(auto, using(crate::proofs::Rising::layout_rises))]
fn program_with(
    alloc: Global,
    tops: &TopForms,
    globals: u32,
    survey: &TopSurvey,
    lists: &Seq<Seq<u32>>,
) -> Result<Program, PlanNo>
    requires survey { survey.now ≡ tops_surveyed tops.now }
    requires reached { Reached tops.now globals lists.now }
    ensures program { IfOk result (IsPlanned tops.now globals) }
    ensures refused { IfErr result (RefusedAs (IsUnplanned tops.now globals)) }
{
    if let Some(at) = first_early(survey, lists) {
        return Err(refused(PlanKind::EarlyGlobal, at));
    }
    let layout = lay_out(alloc, survey, lists)?;
    lower(alloc, tops, &layout)
}
