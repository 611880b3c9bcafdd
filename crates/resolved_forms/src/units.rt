ghost use Rattle.std.specs.Prelude.{◌≡◌, ◌≤◌, ◌+◌, ◌-◌, [], ◌∷◌, ◌++◌, get_or, map, replicate, IfOk};
ghost use Rattle.resolved_forms.specs.Units.{all_units, layout_of, hidden_of, hidden_from, rising};

use crate::layout::{Hidden, Layout};
use crate::survey::LoopSurvey;
use crate::top_survey::TopSurvey;
use crate::uses::Uses;
use core_syntax::{as_number, sum_of};
use std::alloc::{AllocError, Global};
use std::collections::BTreeSet;
use value_core::Seq;
use value_core::lists::add;

/// What each unit of code names: the behaviours, then the functions of the top level, then those of loops. The error is
/// want of memory.
pub fn all_units(alloc: Global, survey: &TopSurvey) -> Result<Seq<Uses>, AllocError>
    ensures { IfOk result (λ units. units ≡ all_units survey.now) }
{
    let mut units = Seq::new(alloc);
    push_all(alloc, &mut units, survey.behaviours.items())?;
    push_all(alloc, &mut units, survey.functions.items())?;
    for one in survey.loops.items() {
        push_copy(alloc, &mut units, &one.uses)?;
    }
    Ok(units)
}

fn push_all(alloc: Global, units: &mut Seq<Uses>, more: &[Uses]) -> Result<(), AllocError>
    ensures { IfOk result (λ _. units.new ≡ units.old ++ more.now) }
{
    for one in more {
        push_copy(alloc, units, one)?;
    }
    Ok(())
}

fn push_copy(alloc: Global, units: &mut Seq<Uses>, one: &Uses) -> Result<(), AllocError>
    ensures { IfOk result (λ _. units.new ≡ units.old ++ one.now ∷ []) }
{
    let copy = Uses {
        globals: one.globals.copy(alloc)?,
        units: one.units.copy(alloc)?,
    };
    add(units, copy)
}

/// The hidden arguments of each behaviour and function, where each unit reaches these globals. A unit without a list
/// reaches none. The error is want of memory.
pub fn lay_out(
    alloc: Global,
    survey: &TopSurvey,
    reached: &Seq<Seq<u32>>,
) -> Result<Layout, AllocError>
    ensures { IfOk result (λ layout. layout ≡ layout_of survey.now reached.now) }
{
    let reached = reached.items();
    let first_function = as_number(survey.behaviours.items().len())?;
    let first_loop = number_after(first_function, survey.functions.items().len())?;
    let behaviours = plain(alloc, reached, 0, first_function)?;
    let mut functions = plain(alloc, reached, first_function, first_loop)?;
    push_loops(
        alloc,
        &mut functions,
        reached,
        first_loop,
        survey.loops.items(),
    )?;
    Ok(Layout {
        functions,
        behaviours,
    })
}

// The hidden arguments of the units from one up to another, where those are no loops.
fn plain(
    alloc: Global,
    reached: &[Seq<u32>],
    first: u32,
    end: u32,
) -> Result<Seq<Hidden>, AllocError>
    requires { first ≤ end }
    ensures { IfOk result (λ hidden. hidden ≡ hidden_from reached.now first (replicate (end - first) [])) }
{
    let mut hidden = Seq::new(alloc);
    for unit in first..end {
        push_hidden(alloc, &mut hidden, reached, unit, &[])?;
    }
    Ok(hidden)
}

// Adds those of loops, of which the first is that unit.
fn push_loops(
    alloc: Global,
    hidden: &mut Seq<Hidden>,
    reached: &[Seq<u32>],
    first: u32,
    loops: &[LoopSurvey],
) -> Result<(), AllocError>
    ensures { IfOk result (λ _. hidden.new ≡ hidden.old ++ hidden_from reached.now first (map (λ one. one.levels) loops.now)) }
{
    for (index, one) in loops.iter().enumerate() {
        let unit = number_after(first, index)?;
        push_hidden(alloc, hidden, reached, unit, one.levels.items())?;
    }
    Ok(())
}

fn push_hidden(
    alloc: Global,
    hidden: &mut Seq<Hidden>,
    reached: &[Seq<u32>],
    unit: u32,
    levels: &[u32],
) -> Result<(), AllocError>
    ensures { IfOk result (λ _. hidden.new ≡ hidden.old ++ hidden_of reached.now unit levels.now ∷ []) }
{
    let one = Hidden {
        globals: Seq::from_slice(alloc, list_of(reached, unit))?,
        levels: rising(alloc, levels)?,
    };
    add(hidden, one)
}

/// The globals that the unit with that number reaches, by these lists. A unit without a list reaches none.
pub fn list_of(reached: &[Seq<u32>], unit: u32) -> &[u32]
    ensures { result.now ≡ get_or reached.now unit [] }
{
    match reached.get(unit as usize) {
        Some(list) => list.items(),
        None => &[],
    }
}

/// The number that is so many behind that one.
pub fn number_after(number: u32, count: usize) -> Result<u32, AllocError>
    ensures { IfOk result (λ after. after ≡ number + count) }
{
    sum_of(number, as_number(count)?)
}

// The numbers in rising order, each of them once.
fn rising(alloc: Global, numbers: &[u32]) -> Result<Seq<u32>, AllocError>
    ensures { IfOk result (λ rises. rises ≡ rising numbers.now) }
{
    let set = set_of(alloc, numbers)?;
    let mut rises = Seq::new(alloc);
    for number in &set {
        add(&mut rises, *number)?;
    }
    Ok(rises)
}

fn set_of(alloc: Global, numbers: &[u32]) -> Result<BTreeSet<u32>, AllocError>
    ensures { IfOk result (λ set. set.keys ≡ rising numbers.now) }
{
    let mut set = BTreeSet::new(alloc);
    for number in numbers {
        set.insert(*number).map_err(|_| AllocError)?;
    }
    Ok(set)
}
