ghost use Rattle.std.specs.Prelude.{◌≡◌, ◌↔◌, ◌++◌, map, IfOk, IfSome, IsTrue, Some};
ghost use Rattle.serial_model.specs.declared.answer.Answer.TheVariants.{Value as Answered};
ghost use Rattle.captured_values.specs.Told.{IsTold};

use crate::regular::are_regular;
use answer_runs::Answers;
use serial_model::Answer;
use std::alloc::{AllocError, Global};
use std::marker::Model;
use value_core::{Value, Values};

/// A value, with the runs of its items, where it is a vector that has few. Contracts see the value.
pub(crate) struct Entry {
    value: Value,
    runs: Option<Answers>,
}

impl Model for Entry {
    ghost use Rattle.captured_values.specs.Told.{IsTold};
    ghost use Rattle.value_core.specs.contracts.value.Value as datum;
    ghost use Rattle.value_core.specs.declared.value.Value.{Value as Datum};

    ghost Value = { Datum };

    ghost coded = { (datum.the_row).coded };

    ghost view = { λ e. e.value };

    ghost invariant = { λ e. IsTold e.runs e.value };
}

impl Drop for Entry {
    fn drop(self) {
        let Entry {
            value: _value,
            runs: _runs,
        } = self;
    }
}

impl Entry {
    /// An equal value, with its runs where they are few.
    pub(crate) fn of(alloc: Global, value: &Value) -> Result<Self, AllocError>
        ensures { IfOk result (λ entry. entry ≡ value.now) }
    {
        let runs = runs_of(alloc, value)?;
        let value = value.copy(alloc)?;
        Ok(Entry { value, runs })
    }

    /// Whether the two are the same value. It takes no memory.
    pub(crate) fn same(&self, other: &Entry) -> bool
        ensures { IsTrue result ↔ (self.now ≡ other.now) }
    {
        match (&self.runs, &other.runs) {
            (Some(runs), Some(others)) => runs.same(others),
            _ => self.value.equal(&other.value),
        }
    }
}

// The runs of its items, where the value is a vector that has few.
fn runs_of(alloc: Global, value: &Value) -> Result<Option<Answers>, AllocError>
    ensures { IfOk result (λ runs. IsTold runs value.now) }
{
    match value {
        Value::Vector(items) => runs_in(alloc, items),
        _ => Ok(None),
    }
}

// The runs of the items, where they are few.
fn runs_in(alloc: Global, items: &Values) -> Result<Option<Answers>, AllocError>
    ensures { IfOk result (λ found. IfSome found (λ runs. runs ≡ map Answered items.now)) }
{
    if are_regular(items) {
        Ok(Some(as_answers(alloc, items)?))
    } else {
        Ok(None)
    }
}

// The items as answers, which are kept in runs.
fn as_answers(alloc: Global, items: &Values) -> Result<Answers, AllocError>
    ensures { IfOk result (λ runs. runs ≡ map Answered items.now) }
{
    let mut answers = Answers::new(alloc);
    for item in items.iter() {
        answers.add(Answer::Value(item.copy(alloc)?))?;
    }
    Ok(answers)
}

/// Whether the two are the same values. It takes no memory.
pub(crate) fn same_entries(left: &[Entry], right: &[Entry]) -> bool
    ensures { IsTrue result ↔ (left.now ≡ right.now) }
{
    if left.len() != right.len() {
        return false;
    }
    for (index, entry) in left.iter().enumerate() {
        if !entry.same(&right[index]) {
            return false;
        }
    }
    true
}
