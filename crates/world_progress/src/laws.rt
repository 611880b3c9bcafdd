//! The law of progress.
ghost use Rattle.world_progress.specs.Progress.{SomethingCanBeDone};

/// While a run goes on and is not at rest, something can be done with a piece, whether or not a claim on it is out.
pub fn something_can_be_done()
    ensures { SomethingCanBeDone }
{}
