ghost use Rattle.std.specs.Prelude.{◌≡◌, if◌then◌else◌, [], ◌∷◌, ◌++◌, ◌-◌, length, take, map, filter, nat_lt, IfOk};
ghost use Rattle.resolved_forms.specs.Survey.{nothing, of_units, both, all_of, of_loop_parts, own_survey, body_of, surveyed};
ghost use Rattle.resolved_forms.specs.Uses.{no_uses, function_unit, head_units};

use crate::expr::{Expr, ExprKind, Looping};
use crate::head::Head;
use crate::uses::Uses;
use core_syntax::sum_of;
use std::alloc::{AllocError, Global};
use std::mem;
use value_core::Seq;
use value_core::lists::add;

/// What code names: globals and units, and the levels of locals, in the order of the code and as often as they are
/// named; and its loops, in the order of their numbers.
#[derive(Drop)]
pub struct Survey {
    pub uses: Uses,
    pub levels: Seq<u32>,
    pub loops: Seq<LoopSurvey>,
}

/// What the body of a loop names, and the levels of the locals among it that are bound round the loop. They rise.
#[derive(Drop)]
pub struct LoopSurvey {
    pub uses: Uses,
    pub levels: Seq<u32>,
}

impl Survey {
    /// The survey of no code. It takes no memory.
    pub fn new(alloc: Global) -> Self
        ensures { result ≡ nothing }
    {
        Survey {
            uses: Uses::none(alloc),
            levels: Seq::new(alloc),
            loops: Seq::new(alloc),
        }
    }
}

impl LoopSurvey {
    // What stands for a loop until its body is surveyed.
    fn empty(alloc: Global) -> Self
        ensures { result ≡ record { uses = no_uses; levels = [] } }
    {
        LoopSurvey {
            uses: Uses::none(alloc),
            levels: Seq::new(alloc),
        }
    }
}

/// Adds what the expression names, in a program of so many behaviours. The error is want of memory, and then there is
/// no telling what was added.
#[cycle(survey)]
pub fn survey_expr(
    alloc: Global,
    behaviours: u32,
    expr: &Expr,
    found: &mut Survey,
) -> Result<(), AllocError>
    ensures { IfOk result (λ _. found.new ≡ both found.old (surveyed behaviours expr.now)) }
{
    match &expr.kind {
        ExprKind::Local(level) => add(&mut found.levels, *level),
        ExprKind::Global(number) => add(&mut found.uses.globals, *number),
        ExprKind::Apply(head, parts) => {
            survey_head(behaviours, *head, found)?;
            survey_parts(alloc, behaviours, parts.items(), found)
        }
        ExprKind::Let(parts)
        | ExprKind::Cond(parts)
        | ExprKind::And(_, parts)
        | ExprKind::Or(_, parts) => survey_parts(alloc, behaviours, parts.items(), found),
        ExprKind::Loop(own, parts) => survey_loop(alloc, behaviours, own, parts.items(), found),
        _ => Ok(()),
    }
}

#[cycle(survey)]
fn survey_parts(
    alloc: Global,
    behaviours: u32,
    parts: &[Expr],
    found: &mut Survey,
) -> Result<(), AllocError>
    ensures { IfOk result (λ _. found.new ≡ both found.old (all_of (map (surveyed behaviours) parts.now))) }
{
    for part in parts {
        survey_expr(alloc, behaviours, part, found)?;
    }
    Ok(())
}

// The loop's own survey stands before those of the loops in it.
#[cycle(survey)]
fn survey_loop(
    alloc: Global,
    behaviours: u32,
    own: &Looping,
    parts: &[Expr],
    found: &mut Survey,
) -> Result<(), AllocError>
    ensures { IfOk result (λ _. found.new ≡ both found.old (of_loop_parts behaviours own.now (map (surveyed behaviours) parts.now))) }
{
    let place = found.loops.items().len();
    add(&mut found.loops, LoopSurvey::empty(alloc))?;
    survey_initial(alloc, behaviours, parts, found)?;
    add(
        &mut found.uses.units,
        function_unit(behaviours, own.number)?,
    )?;
    let done = survey_body(alloc, behaviours, own, parts, &mut found.loops)?;
    found.levels.extend(done.levels.items())?;
    found.loops.set(place, done);
    Ok(())
}

// Adds what the initial expressions among the parts of a loop name.
#[cycle(survey)]
fn survey_initial(
    alloc: Global,
    behaviours: u32,
    parts: &[Expr],
    found: &mut Survey,
) -> Result<(), AllocError>
    ensures { IfOk result (λ _. found.new ≡ both found.old (all_of (map (surveyed behaviours) (take (length parts.now - 1) parts.now)))) }
{
    for index in 0..parts.len().saturating_sub(1) {
        survey_expr(alloc, behaviours, &parts[index], found)?;
    }
    Ok(())
}

// The survey of a loop with these parts, of which the last is its body. The loops in the body are added.
#[cycle(survey)]
fn survey_body(
    alloc: Global,
    behaviours: u32,
    own: &Looping,
    parts: &[Expr],
    loops: &mut Seq<LoopSurvey>,
) -> Result<LoopSurvey, AllocError>
    ensures survey { IfOk result (λ done. done ≡ own_survey own.now (body_of (map (surveyed behaviours) parts.now))) }
    ensures loops { IfOk result (λ _. loops.new ≡ loops.old ++ (body_of (map (surveyed behaviours) parts.now)).loops) }
{
    let mut inner = Survey::new(alloc);
    mem::swap(&mut inner.loops, loops);
    survey_last(alloc, behaviours, parts, &mut inner)?;
    mem::swap(&mut inner.loops, loops);
    let levels = below(alloc, inner.levels.items(), own.base)?;
    Ok(LoopSurvey {
        uses: inner.uses,
        levels,
    })
}

// Adds what the last part names, where there is one.
#[cycle(survey)]
fn survey_last(
    alloc: Global,
    behaviours: u32,
    parts: &[Expr],
    found: &mut Survey,
) -> Result<(), AllocError>
    ensures { IfOk result (λ _. found.new ≡ both found.old (body_of (map (surveyed behaviours) parts.now))) }
{
    match parts {
        [] => Ok(()),
        [.., body] => survey_expr(alloc, behaviours, body, found),
    }
}

fn survey_head(behaviours: u32, head: Head, found: &mut Survey) -> Result<(), AllocError>
    ensures { IfOk result (λ _. found.new ≡ both found.old (of_units (head_units behaviours head))) }
{
    match head {
        Head::Call(number) => add(&mut found.uses.units, function_unit(behaviours, number)?),
        Head::Spawn(number) | Head::Become(number) => add(&mut found.uses.units, number),
        _ => Ok(()),
    }
}

// The unit that the function is. A number of more than 32 bits counts as want of memory.
fn function_unit(behaviours: u32, number: u32) -> Result<u32, AllocError>
    ensures { IfOk result (λ unit. unit ≡ function_unit behaviours number) }
{
    sum_of(behaviours, number)
}

// Those of the levels that are below the base.
fn below(alloc: Global, levels: &[u32], base: u32) -> Result<Seq<u32>, AllocError>
    ensures { IfOk result (λ below. below ≡ filter (λ level. nat_lt level base) levels.now) }
{
    let mut below = Seq::new(alloc);
    for level in levels {
        push_below(&mut below, *level, base)?;
    }
    Ok(below)
}

fn push_below(below: &mut Seq<u32>, level: u32, base: u32) -> Result<(), AllocError>
    ensures { IfOk result (λ _. below.new ≡ below.old ++ (if nat_lt level base then level ∷ [] else [])) }
{
    if level < base {
        return add(below, level);
    }
    Ok(())
}
