ghost use Rattle.std.specs.Prelude.{◌≡◌, Some};
ghost use Rattle.scope_refusals.specs.First.{refusal_cmp, chosen, sooner, first_of};

use crate::refusal::{Refusal, Refusals};
use std::cmp::Ordering;

/// The first of the refusals, if there is one: that at the first place, and at one place the one with the lowest number.
pub fn first(refusals: &Refusals) -> Option<Refusal>
    ensures { result ≡ first_of refusals.now }
{
    let mut best = None;
    for refusal in refusals.items() {
        best = Some(sooner(best, *refusal));
    }
    best
}

fn sooner(best: Option<Refusal>, other: Refusal) -> Refusal
    ensures { result ≡ sooner best other }
{
    match best {
        None => other,
        Some(best) => chosen(other.cmp(&best), other, best),
    }
}

fn chosen(ordering: Ordering, other: Refusal, best: Refusal) -> Refusal
    ensures { result ≡ chosen ordering other best }
{
    match ordering {
        Ordering::Less => other,
        _ => best,
    }
}

impl Refusal {
    // How this refusal stands to the other: by line, then by column, then by number.
    #[tactic(auto, unfolding(crate::specs::First::refusal_cmp))]
    fn cmp(&self, other: &Refusal) -> Ordering
        ensures { result ≡ refusal_cmp self.now other.now }
    {
        self.at
            .line()
            .cmp(&other.at.line())
            .then(self.at.column().cmp(&other.at.column()))
            .then(self.kind.number().cmp(&other.kind.number()))
    }
}
