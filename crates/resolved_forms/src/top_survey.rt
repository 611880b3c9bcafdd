ghost use Rattle.std.specs.Prelude.{◌≡◌, [], ◌∷◌, ◌++◌, IfOk, ◌+◌};
ghost use Rattle.resolved_forms.specs.Survey.{surveyed};
ghost use Rattle.resolved_forms.specs.TopSurvey.{is_behaviour, behaviours_among, no_tops, form_at, both_tops, top_survey, tops_surveyed};

use crate::expr::Expr;
use crate::survey::{LoopSurvey, Survey, survey_expr};
use crate::top::{Top, TopForms, TopKind};
use crate::uses::Uses;
use core_syntax::{as_number, sum_of};
use std::alloc::{AllocError, Global};
use std::mem;
use value_core::lists::add;
use value_core::{Place, Seq};

/// What the code of a program names: that of its behaviours, of the functions of the top level, of its loops, and the
/// forms that main evaluates. Each kind stands in the order of the file.
#[derive(Drop)]
pub struct TopSurvey {
    /// How many globals there are.
    pub globals: u32,
    pub behaviours: Seq<Uses>,
    pub functions: Seq<Uses>,
    pub loops: Seq<LoopSurvey>,
    pub forms: Seq<FormSurvey>,
}

/// What a form that main evaluates names, its place, and how many globals are bound before it.
#[derive(Drop)]
pub struct FormSurvey {
    pub at: Place,
    pub before: u32,
    pub uses: Uses,
}

/// What the code of the top-level forms names. The error is want of memory.
pub fn survey_tops(alloc: Global, tops: &TopForms) -> Result<TopSurvey, AllocError>
    ensures { IfOk result (λ survey. survey ≡ tops_surveyed tops.now) }
{
    let behaviours = count_behaviours(tops.items())?;
    let mut survey = TopSurvey::new(alloc);
    for top in tops.items() {
        survey.add(alloc, behaviours, top)?;
    }
    Ok(survey)
}

impl TopSurvey {
    fn new(alloc: Global) -> Self
        ensures { result ≡ no_tops 0 }
    {
        TopSurvey {
            globals: 0,
            behaviours: Seq::new(alloc),
            functions: Seq::new(alloc),
            loops: Seq::new(alloc),
            forms: Seq::new(alloc),
        }
    }

    fn add(&mut self, alloc: Global, behaviours: u32, top: &Top) -> Result<(), AllocError>
        ensures { IfOk result (λ _. self.new ≡ both_tops self.old (top_survey behaviours self.old.globals top.now.at top.now.kind)) }
    {
        match &top.kind {
            TopKind::Global(value) => {
                self.add_form(alloc, behaviours, top.at, value)?;
                self.count_global()
            }
            TopKind::Value(value) => self.add_form(alloc, behaviours, top.at, value),
            TopKind::Function(_, body) => {
                let uses = survey_code(alloc, behaviours, body, &mut self.loops)?;
                add(&mut self.functions, uses)
            }
            TopKind::Behaviour(_, body) => {
                let uses = survey_code(alloc, behaviours, body, &mut self.loops)?;
                add(&mut self.behaviours, uses)
            }
        }
    }

    // Adds a form that main evaluates.
    fn add_form(
        &mut self,
        alloc: Global,
        behaviours: u32,
        at: Place,
        value: &Expr,
    ) -> Result<(), AllocError>
        ensures { IfOk result (λ _. self.new ≡ both_tops self.old (form_at at self.old.globals self.old.globals (surveyed behaviours value.now))) }
    {
        let uses = survey_code(alloc, behaviours, value, &mut self.loops)?;
        let form = FormSurvey {
            at,
            before: self.globals,
            uses,
        };
        add(&mut self.forms, form)
    }

    // More globals than 32 bits can count are want of memory.
    fn count_global(&mut self) -> Result<(), AllocError>
        ensures { IfOk result (λ _. self.new ≡ record self.old { globals = self.old.globals + 1 }) }
    {
        self.globals = sum_of(self.globals, 1)?;
        Ok(())
    }
}

// What a piece of code names. Its loops are added.
fn survey_code(
    alloc: Global,
    behaviours: u32,
    code: &Expr,
    loops: &mut Seq<LoopSurvey>,
) -> Result<Uses, AllocError>
    ensures uses { IfOk result (λ uses. uses ≡ (surveyed behaviours code.now).uses) }
    ensures loops { IfOk result (λ _. loops.new ≡ loops.old ++ (surveyed behaviours code.now).loops) }
{
    let mut found = Survey::new(alloc);
    mem::swap(&mut found.loops, loops);
    survey_expr(alloc, behaviours, code, &mut found)?;
    mem::swap(&mut found.loops, loops);
    Ok(found.uses)
}

// How many of the forms are behaviours.
fn count_behaviours(tops: &[Top]) -> Result<u32, AllocError>
    ensures { IfOk result (λ count. count ≡ behaviours_among tops.now) }
{
    let count = tops
        .iter()
        .filter(|top| matches!(top.kind, TopKind::Behaviour(..)))
        .count();
    as_number(count)
}
