ghost use Rattle.std.specs.Prelude.{◌≡◌, ◌↔◌, ◌+◌, [], ◌∷◌, ◌++◌, IsTrue, IfOk, OnOk, OnErr};

use crate::lane::Lane;
use crate::lanes::{are_same_lanes, copies, deal};
use serial_model::Answer;
use std::alloc::{AllocError, Global};
use std::marker::Model;

/// How many answers are not dealt out, so that what was given few of them stays small.
const FIRST: u64 = 24;

/// Answers in their order: the first ones, and those behind them, which are dealt out to lanes. Contracts see the list.
/// Copies share what they hold.
pub struct Answers {
    alloc: Global,
    count: u64,
    first: Lane,
    lanes: Vec<Lane>,
}

impl Model for Answers {
    ghost use Rattle.std.specs.Prelude.{◌-◌, List, ◌++◌, reverse};
    ghost use Rattle.std.specs.Coded.{coded_list};
    ghost use Rattle.serial_model.specs.contracts.answer.Answer as answer;
    ghost use Rattle.serial_model.specs.declared.answer.Answer.{Answer as Given};
    ghost use Rattle.answer_runs.specs.Dealt.{woven, AreKept};

    ghost Value = { List Given };

    ghost coded = { coded_list (answer.the_row).coded };

    ghost view = { λ a. reverse (woven (a.count - 24) a.lanes.items ++ a.first) };

    ghost invariant = { λ a. AreKept a.count a.first a.lanes.items };
}

impl Drop for Answers {
    fn drop(self) {
        let Answers {
            alloc: _alloc,
            count: _,
            first: _first,
            lanes: _lanes,
        } = self;
    }
}

impl Answers {
    /// No answers. It takes no memory.
    pub fn new(alloc: Global) -> Self
        ensures { result ≡ [] }
    {
        Answers {
            alloc,
            count: 0,
            first: Lane::new(alloc),
            lanes: Vec::new(alloc),
        }
    }

    /// Equal answers, which are shared.
    pub fn copy(&self) -> Result<Self, AllocError>
        ensures { IfOk result (λ copied. copied ≡ self.now) }
    {
        Ok(Answers {
            alloc: self.alloc,
            count: self.count,
            first: self.first.copy()?,
            lanes: copies(self.alloc, &self.lanes)?,
        })
    }

    /// Appends the answer. For want of memory the answers stay. No answers that share them change.
    pub fn add(&mut self, answer: Answer) -> Result<(), AllocError>
        ensures ok { OnOk result (self.new ≡ self.old ++ answer ∷ []) }
        ensures err { OnErr result (self.new ≡ self.old) }
    {
        let count = counted(self.count)?;
        if self.count < FIRST {
            self.first.add(answer)?;
            self.count = count;
            return Ok(());
        }
        deal(self.alloc, &mut self.lanes, answer)?;
        self.count = count;
        Ok(())
    }

    /// Whether the two hold the same answers. It takes no memory, and takes no longer than there are runs.
    pub fn same(&self, other: &Answers) -> bool
        ensures { IsTrue result ↔ (self.now ≡ other.now) }
    {
        if self.count != other.count {
            return false;
        }
        self.first.same(&other.first) && are_same_lanes(&self.lanes, &other.lanes)
    }
}

// One more than so many.
fn counted(count: u64) -> Result<u64, AllocError>
    ensures { IfOk result (λ more. more ≡ count + 1) }
{
    count.checked_add(1).ok_or(AllocError)
}
