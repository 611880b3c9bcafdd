ghost use Rattle.std.specs.Prelude.{◌≡◌, ◌↔◌, [], ◌∷◌, ◌++◌, drop, IsTrue, IfOk, OnOk, OnErr, MatchResult};
ghost use Rattle.answer_runs.specs.Rest.{rest_back};
ghost use Rattle.answer_runs.specs.Runs.{run_back, runs_back};

use crate::rest::Rest;
use crate::run::Run;
use serial_model::Answer;
use shared_chain::Chain;
use std::alloc::{AllocError, Global};
use std::marker::Model;

/// Answers in runs. Contracts see the list, the last one first. Copies share what they hold.
pub struct Lane {
    runs: Chain<Run>,
}

impl Model for Lane {
    ghost use Rattle.std.specs.Prelude.{List};
    ghost use Rattle.std.specs.Coded.{coded_list};
    ghost use Rattle.serial_model.specs.contracts.answer.Answer as answer;
    ghost use Rattle.serial_model.specs.declared.answer.Answer.{Answer as Given};
    ghost use Rattle.answer_runs.specs.Runs.{runs_back};

    ghost Value = { List Given };

    ghost coded = { coded_list (answer.the_row).coded };

    ghost view = { λ a. runs_back a.runs };
}

impl Drop for Lane {
    fn drop(self) {
        let Lane { runs: _runs } = self;
    }
}

impl Lane {
    /// No answers. It takes no memory.
    pub fn new(alloc: Global) -> Self
        ensures { result ≡ [] }
    {
        Lane {
            runs: Chain::new(alloc),
        }
    }

    /// Equal answers, which are shared. It takes no memory, and fails only where there are too many copies to count.
    pub fn copy(&self) -> Result<Self, AllocError>
        ensures { IfOk result (λ copied. copied ≡ self.now) }
    {
        Ok(Lane {
            runs: self.runs.copy()?,
        })
    }

    /// Adds the answer behind the others. For want of memory the answers stay. No answers that share them change.
    pub fn add(&mut self, answer: Answer) -> Result<(), AllocError>
        ensures ok { OnOk result (self.new ≡ answer ∷ self.old) }
        ensures err { OnErr result (self.new ≡ self.old) }
    {
        match with_answer(&self.runs, answer) {
            Ok(run) => self.runs.set_first(run).map_err(|_| AllocError),
            Err(answer) => self.runs.push(Run::of(answer)).map_err(|_| AllocError),
        }
    }

    /// Whether the two hold the same answers. It takes no memory, and takes no longer than there are runs.
    pub fn same(&self, other: &Lane) -> bool
        ensures { IsTrue result ↔ (self.now ≡ other.now) }
    {
        are_same_rests(Rest::from(self.runs.top()), Rest::from(other.runs.top()))
    }
}

// The last of the runs with the answer behind it, where the two are one run. Else it hands the answer back.
fn with_answer(runs: &Chain<Run>, answer: Answer) -> Result<Run, Answer>
    ensures { MatchResult result
        (λ run. run_back run.stride run.last run.before ++ runs_back (drop 1 runs.now) ≡ answer ∷ runs_back runs.now)
        (λ back. back ≡ answer) }
{
    match runs.top() {
        Some(link) => {
            let (run, _) = link.parts();
            run.with(answer)
        }
        None => Err(answer),
    }
}

// Whether the same answers are left.
fn are_same_rests(left: Option<Rest<'_>>, right: Option<Rest<'_>>) -> bool
    ensures { IsTrue result ↔ (rest_back left.entry ≡ rest_back right.entry) }
{
    let mut left = left;
    let mut right = right;
    while let Some(one) = left {
        let Some(other) = right else {
            return false;
        };
        if !one.is_at_same(&other) {
            return false;
        }
        let more = one.alike(&other);
        left = one.behind(more);
        right = other.behind(more);
    }
    right.is_none()
}
