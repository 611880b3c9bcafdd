//! Laws of what a task is answered.
ghost use Rattle.txn_snapshot.specs.Laws.{AnswersKeepRuns, AnswersRestOnReads, DerefsRestOnReads};

/// Stores that agree on the refs that a task has read give its derefs the same values.
#[tactic(auto, using(crate::proofs::ReadsAgree::derefs_rest_on_reads))]
pub fn derefs_rest_on_reads()
    ensures { DerefsRestOnReads }
{}

/// What a task is answered is what the serial meaning answers it, on each store that agrees with the snapshot on the refs
/// that the task has read.
#[tactic(auto, using(crate::proofs::ReadsAgree::answers_rest_on_reads))]
pub fn answers_rest_on_reads()
    ensures { AnswersRestOnReads }
{}

/// The tasks of an attempt, one of which is answered on the snapshot, still run their transaction on each store that agrees
/// with the snapshot on what was read.
pub fn answers_keep_runs()
    ensures { AnswersKeepRuns }
{}
