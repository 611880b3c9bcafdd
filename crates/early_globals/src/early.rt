ghost use Rattle.std.specs.Prelude.{◌≡◌};
ghost use Rattle.early_globals.specs.Early.{some_unbound, reaches_unbound, is_early, first_early};

use resolved_forms::{FormSurvey, TopSurvey, list_of};
use value_core::{Place, Seq};

/// The place of the first form that main evaluates and that may need a global before it is bound: one that the form
/// names, or one that a unit of code reaches which the form names.
pub fn first_early(survey: &TopSurvey, reached: &Seq<Seq<u32>>) -> Option<Place>
    ensures { result ≡ first_early survey.now.forms reached.now }
{
    for form in survey.forms.items() {
        if is_early(form, reached.items()) {
            return Some(form.at);
        }
    }
    None
}

fn is_early(form: &FormSurvey, reached: &[Seq<u32>]) -> bool
    ensures { result ≡ is_early reached.now form.now }
{
    some_unbound(form.before, form.uses.globals.items()) || reaches_unbound(form, reached)
}

// Whether a unit that the form names reaches a global that is not bound before the form.
fn reaches_unbound(form: &FormSurvey, reached: &[Seq<u32>]) -> bool
    ensures { result ≡ reaches_unbound reached.now form.now.before form.now.uses.units }
{
    for unit in form.uses.units.items() {
        if some_unbound(form.before, list_of(reached, *unit)) {
            return true;
        }
    }
    false
}

// Whether some of the globals is not bound where so many are.
fn some_unbound(before: u32, globals: &[u32]) -> bool
    ensures { result ≡ some_unbound before globals.now }
{
    globals.iter().any(|global| before <= *global)
}
