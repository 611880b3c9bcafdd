ghost use Rattle.std.specs.Prelude.{◌≡◌, ◌<◌, ◌+◌, ◌-◌, ◌^◌, [], ◌∷◌, IfSome, IsTrue, MatchResult};
ghost use Rattle.answer_runs.specs.Runs.{run_back};

use crate::sameness::{Back, are_same};
use serial_model::Answer;
use value_core::{Name, Value};

/// Answers in a row: the last one, how many are before it, and the stride from each to the next. Integers are so far apart,
/// and so are the numbers of refs, actors or futures that one unit or task made. All others are equal.
#[derive(Drop)]
pub struct Run {
    pub last: Answer,
    pub before: u32,
    pub stride: i64,
}

impl Run {
    /// A run of that answer alone.
    pub fn of(answer: Answer) -> Self
        ensures { run_back result.stride result.last result.before ≡ answer ∷ [] }
    {
        Run {
            last: answer,
            before: 0,
            stride: 0,
        }
    }

    /// How many answers are before the last one.
    pub fn many_before(&self) -> u32
        ensures { result ≡ self.now.before }
    {
        self.before
    }

    /// The run with the answer behind it, where the two are one run. Else it hands the answer back.
    pub fn with(&self, answer: Answer) -> Result<Run, Answer>
        ensures { MatchResult result
            (λ run. run_back run.stride run.last run.before ≡ answer ∷ run_back self.now.stride self.now.last self.now.before)
            (λ back. back ≡ answer) }
    {
        match self.goes_on_with(&answer) {
            Some(stride) => Ok(Run {
                last: answer,
                before: self.before + 1,
                stride,
            }),
            None => Err(answer),
        }
    }

    // The stride of the run with the answer behind it, where the two are one run.
    fn goes_on_with(&self, answer: &Answer) -> Option<i64>
        ensures fits { IfSome result (λ _. self.now.before < 2 ^ 32 - 1) }
        ensures value { IfSome result (λ stride. run_back stride answer.now (self.now.before + 1) ≡ answer.now ∷ run_back self.now.stride self.now.last self.now.before) }
    {
        if self.before == u32::MAX {
            return None;
        }
        let stride = stride_to(&self.last, answer);
        if self.is_one_run(answer, stride) {
            return Some(stride);
        }
        if self.is_one_run(answer, 0) {
            return Some(0);
        }
        None
    }

    // Whether the run and the answer behind it are one run with that stride.
    fn is_one_run(&self, answer: &Answer, stride: i64) -> bool
        ensures { IsTrue result → run_back stride answer.now (self.now.before + 1) ≡ answer.now ∷ run_back self.now.stride self.now.last self.now.before }
    {
        self.is_also(stride)
            && are_same(&self.last, Back::none(), answer, Back { stride, steps: 1 })
    }

    // Whether the run is the same as one with that stride.
    fn is_also(&self, stride: i64) -> bool
        ensures { IsTrue result → run_back stride self.now.last self.now.before ≡ run_back self.now.stride self.now.last self.now.before }
    {
        self.before == 0 || self.stride == stride
    }
}

// The stride from the one answer to the other, if there is one. It is a guess, and is looked at.
fn stride_to(last: &Answer, next: &Answer) -> i64 {
    match (last, next) {
        (Answer::Value(last), Answer::Value(next)) => stride_to_value(last, next),
        _ => 0,
    }
}

fn stride_to_value(last: &Value, next: &Value) -> i64 {
    match (last, next) {
        (Value::Int(last), Value::Int(next)) => next.wrapping_sub(*last),
        (Value::Ref(last), Value::Ref(next)) => stride_to_name(last, next),
        (Value::Actor(last), Value::Actor(next)) => stride_to_name(last, next),
        (Value::Future(last), Value::Future(next)) => stride_to_name(last, next),
        _ => 0,
    }
}

fn stride_to_name(last: &Name, next: &Name) -> i64 {
    match (last.parts().last(), next.parts().last()) {
        (Some(last), Some(next)) => i64::from(*next) - i64::from(*last),
        _ => 0,
    }
}
