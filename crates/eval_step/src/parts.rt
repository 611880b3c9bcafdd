ghost use Rattle.std.specs.Prelude.{◌≡◌, ◌↔◌, IsTrue, IsErr, IfOk};
ghost use Rattle.eval_step.specs.Evaluation.{IsFailed, IsSame};
ghost use Rattle.eval_step.specs.Parts.{evaluation_of};

use crate::copies::copy_walk;
use crate::walk::Walk;
use answer_runs::Answers;
use captured_values::Captured;
use core_syntax::NodeId;
use std::alloc::{AllocError, Global};

/// What a machine is to evaluate, and how far it has come.
#[derive(Drop)]
pub struct Parts {
    pub body: NodeId,
    pub values: Captured,
    pub inside: bool,
    pub fuel: u64,
    pub answers: Answers,
    pub inner: Walk,
}

/// Equal parts. Of those of a failed machine there are none.
pub fn copy_parts(alloc: Global, parts: &Parts) -> Result<Parts, AllocError>
    ensures copied { IfOk result (λ copied. copied ≡ parts.now) }
    ensures failed { IsFailed (evaluation_of parts.now) → IsErr result }
{
    Ok(Parts {
        body: parts.body,
        values: parts.values.copy()?,
        inside: parts.inside,
        fuel: parts.fuel,
        answers: parts.answers.copy()?,
        inner: copy_walk(alloc, &parts.inner)?,
    })
}

/// Whether both have the same body, frame and fuel, in or outside a transaction, and the same answers.
pub fn same_parts(left: &Parts, right: &Parts) -> bool
    ensures { IsTrue result ↔ IsSame (evaluation_of left.now) (evaluation_of right.now) }
{
    left.body == right.body
        && left.inside == right.inside
        && left.fuel == right.fuel
        && left.values.same(&right.values)
        && left.answers.same(&right.answers)
}
