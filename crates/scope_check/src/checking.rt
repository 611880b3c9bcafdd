ghost use Rattle.std.specs.Prelude.{◌≡◌, IfOk, IfErr, None};
ghost use Rattle.core_syntax.specs.Fits.{IsFitting};
ghost use Rattle.resolved_forms.specs.FormsInRange.{FormsInRange};
ghost use Rattle.value_core.specs.primitives.Words.{takes_of};
ghost use Rattle.scope_check.specs.Check.{IsFound, IsProgram, IsRefused, RefusedAs};

use crate::declared::{Declared, declare_all};
use crate::error::{ScopeNo, refused, scope_no};
use crate::resolver::Resolver;
use core_syntax::Program;
use program_plan::plan;
use resolved_forms::TopForms;
use scope_names::Locals;
use scope_refusals::{Refusal, first};
use sexpr_reader::Forms;
use std::alloc::{AllocError, Global};
use sugar::expand;

/// What was found in the forms of a source: what they come to, how many globals they bind, and what is wrong with them.
#[derive(Drop)]
pub struct Found {
    pub tops: TopForms,
    pub globals: u32,
    pub wrong: Option<Refusal>,
}

/// The program of the forms of a source.
///
/// A refusal of the first four kinds comes before the others: that at the first place, and at one place the one of the
/// lowest number. Only where there is none of these comes `EarlyGlobal`, at the first such form, and only then
/// `TooManyNodes`. Want of memory can come at any time.
pub fn check(alloc: Global, forms: &Forms) -> Result<Program, ScopeNo>
    ensures program { IfOk result (IsProgram forms.now) }
    // its nodes have frames in which each name lies, and each call has as many arguments as are taken
    ensures fits { IfOk result (IsFitting takes_of) }
    ensures refused { IfErr result (RefusedAs (IsRefused forms.now)) }
{
    let Found {
        tops,
        globals,
        wrong,
    } = resolve(alloc, forms)?;
    match wrong {
        Some(refusal) => Err(refused(refusal.kind, refusal.at)),
        None => match plan(alloc, &tops, globals) {
            Ok(program) => Ok(program),
            Err(no) => Err(scope_no(no)),
        },
    }
}

/// What is found in the forms of a source. Where nothing is wrong with them, what they come to is in range.
fn resolve(alloc: Global, forms: &Forms) -> Result<Found, AllocError>
    ensures found { IfOk result (IsFound forms.now) }
    ensures in_range { IfOk result (λ found. found.wrong ≡ None → FormsInRange found.tops found.globals) }
{
    let cores = expand(alloc, forms)?;
    let Declared {
        definitions,
        functions,
        behaviours: _,
        globals,
        refusals,
    } = declare_all(alloc, &cores)?;
    let mut resolver = Resolver {
        alloc,
        definitions,
        locals: Locals::new(alloc),
        loops: functions,
        refusals,
    };
    let tops = resolver.tops(cores.items())?;
    let wrong = first(&resolver.refusals);
    Ok(Found {
        tops,
        globals,
        wrong,
    })
}
