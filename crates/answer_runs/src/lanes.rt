ghost use Rattle.std.specs.Prelude.{◌≡◌, ◌↔◌, ◌<◌, length, IsTrue, IfOk, OnOk, OnErr};
ghost use Rattle.answer_runs.specs.Dealt.{empty_lanes, opened, IsPassedOn};

use crate::lane::Lane;
use serial_model::Answer;
use std::alloc::{AllocError, Global};

/// To how many lanes answers are dealt out. It is a multiple of the numbers of answers that a loop is given most often in
/// each of its turns: then each lane is one run.
const LANES: usize = 12;

/// Deals the answer out to the last of the lanes, which is the first one then. Where there are no lanes they are made
/// first. For want of memory the lanes stay.
pub fn deal(alloc: Global, lanes: &mut Vec<Lane>, answer: Answer) -> Result<(), AllocError>
    ensures ok { OnOk result (IsPassedOn answer (opened lanes.old.items) lanes.new.items) }
    ensures err { OnErr result (lanes.new.items ≡ lanes.old.items) }
{
    if lanes.is_empty() {
        *lanes = first_dealt(alloc, answer)?;
        return Ok(());
    }
    pass_on(lanes, answer)
}

// Lanes of which the first one has the answer, and the others have none.
fn first_dealt(alloc: Global, answer: Answer) -> Result<Vec<Lane>, AllocError>
    ensures { IfOk result (λ lanes. IsPassedOn answer (empty_lanes 12) lanes.items) }
{
    let mut lanes = no_answers(alloc)?;
    pass_on(&mut lanes, answer)?;
    Ok(lanes)
}

// Lanes without an answer.
fn no_answers(alloc: Global) -> Result<Vec<Lane>, AllocError>
    ensures { IfOk result (λ lanes. lanes.items ≡ empty_lanes 12) }
{
    let mut lanes = Vec::with_capacity(alloc, LANES)?;
    for index in 0..LANES {
        lanes.push(Lane::new(alloc))?;
    }
    Ok(lanes)
}

// Adds the answer to the last lane, which is the first one then.
fn pass_on(lanes: &mut Vec<Lane>, answer: Answer) -> Result<(), AllocError>
    requires { 0 < length lanes.old.items }
    ensures ok { OnOk result (IsPassedOn answer lanes.old.items lanes.new.items) }
    ensures err { OnErr result (lanes.new.items ≡ lanes.old.items) }
{
    let last = lanes.len() - 1;
    lanes[last].add(answer)?;
    lanes.rotate_right(1);
    Ok(())
}

/// Equal lanes, which share their answers.
pub fn copies(alloc: Global, lanes: &[Lane]) -> Result<Vec<Lane>, AllocError>
    ensures { IfOk result (λ copies. copies.items ≡ lanes.now) }
{
    let mut copies = Vec::with_capacity(alloc, lanes.len())?;
    for lane in lanes {
        copies.push(lane.copy()?)?;
    }
    Ok(copies)
}

/// Whether the lanes hold the same answers.
pub fn are_same_lanes(left: &[Lane], right: &[Lane]) -> bool
    ensures { IsTrue result ↔ (left.now ≡ right.now) }
{
    if left.len() != right.len() {
        return false;
    }
    for (index, lane) in left.iter().enumerate() {
        if !lane.same(&right[index]) {
            return false;
        }
    }
    true
}
