//! Laws of attempts.
ghost use Rattle.task_fork_join.specs.Running.{EndsAreOfTransactions, NewAttemptsRun, StepsKeepRuns};

/// An attempt of its root alone runs the transaction that its machine is to evaluate.
pub fn new_attempts_run()
    ensures { NewAttemptsRun }
{}

/// A step of a task keeps that an attempt runs its transaction, in whatever order the tasks step.
pub fn steps_keep_runs()
    ensures { StepsKeepRuns }
{}

/// An attempt that runs a transaction ends as the transaction does, on all refs that agree with its own on what was read.
pub fn ends_are_of_transactions()
    ensures { EndsAreOfTransactions }
{}
