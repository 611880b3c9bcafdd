ghost use Rattle.std.specs.Prelude.{◌≡◌, ◌↔◌, ◌≤◌, ◌++◌, option_copied, IsTrue, Some};
ghost use Rattle.shared_chain.specs.Links.{from_link};
ghost use Rattle.answer_runs.specs.Rest.{first_of, left_of, rest_back};
ghost use Rattle.answer_runs.specs.Runs.{run_back, runs_back};

use crate::run::Run;
use crate::sameness::{Back, are_same};
use shared_chain::Link;

/// What is left of the answers, gone through from the last one on: of a run without so many that are passed, and of the
/// runs below it.
#[derive(Clone, Copy)]
pub struct Rest<'a> {
    pub run: &'a Run,
    pub passed: u32,
    pub below: Option<&'a Link<Run>>,
}

impl<'a> Rest<'a> {
    /// All answers of the runs from that link down.
    pub fn from(link: Option<&'a Link<Run>>) -> Option<Rest<'a>>
        ensures { rest_back result ≡ runs_back (from_link (option_copied link.entry)) }
    {
        let Some(link) = link else {
            return None;
        };
        let (run, below) = link.parts();
        Some(Rest {
            run,
            passed: 0,
            below,
        })
    }

    /// Whether the two stand at the same answer.
    pub fn is_at_same(&self, other: &Rest<'_>) -> bool
        ensures { IsTrue result ↔ (first_of self.now ≡ first_of other.now) }
    {
        are_same(&self.run.last, self.back(), &other.run.last, other.back())
    }

    // How far before the last answer of the run the rest stands.
    fn back(&self) -> Back
        ensures stride { result.stride ≡ self.now.run.now.stride }
        ensures steps { result.steps ≡ self.now.passed }
    {
        Back {
            stride: self.run.stride,
            steps: self.passed,
        }
    }

    // How many answers of the run come before that one.
    fn left(&self) -> u32
        ensures { result ≡ left_of self.now }
    {
        self.run.before.saturating_sub(self.passed)
    }

    /// How many answers before that one go alike in the two, where they stand at the same one.
    pub fn alike(&self, other: &Rest<'_>) -> u32
        ensures here { result ≤ left_of self.now }
        ensures there { result ≤ left_of other.now }
        ensures alike { first_of self.now ≡ first_of other.now →
            run_back self.now.run.now.stride (first_of self.now) result ≡ run_back other.now.run.now.stride (first_of other.now) result }
    {
        if self.run.stride == other.run.stride {
            self.left().min(other.left())
        } else {
            0
        }
    }

    /// What is left behind that answer and so many before it.
    pub fn behind(self, more: u32) -> Option<Rest<'a>>
        requires { more ≤ left_of self }
        ensures { rest_back (Some self.entry) ≡ run_back self.entry.run.now.stride (first_of self.entry) more ++ rest_back result }
    {
        let before = self.run.many_before();
        if more < before.saturating_sub(self.passed) {
            return Some(Rest {
                run: self.run,
                passed: self.passed + more + 1,
                below: self.below,
            });
        }
        Rest::from(self.below)
    }
}
