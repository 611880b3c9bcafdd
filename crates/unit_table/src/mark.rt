ghost use Rattle.std.specs.Prelude.{◌≡◌};
ghost use Rattle.unit_table.specs.Piece.{says_dropped, says_finished, says_ready};

use value_core::{Name, Value};

/// What a piece is claimed for: to evaluate to its next request, to settle what is held or was waited for, or to begin a turn.
#[derive(Clone, Copy, Debug, PartialEq, Eq)]
pub enum Work {
    Eval,
    Settle,
    Begin,
}

/// What a piece waits for: that a unit or a task is finished, or that a turn is definite and holds nothing.
#[derive(Drop)]
pub enum WaitOn {
    Finish(Name),
    Definite(Name),
}

/// What can be done with a piece. An actor that has a turn, or has no mail, is resting.
pub enum Mark {
    Ready(Work),
    Waiting(WaitOn),
    Resting,
    Finished(Value),
    Dropped,
}

impl Drop for Mark {
    fn drop(self) {
        match self {
            Mark::Ready(_) => {}
            Mark::Waiting(_waiton) => {}
            Mark::Resting => {}
            Mark::Finished(_value) => {}
            Mark::Dropped => {}
        }
    }
}

impl Mark {
    /// Whether something can be done with a piece of this mark.
    pub fn is_ready(&self) -> bool
        ensures { result ≡ says_ready self.now }
    {
        match self {
            Mark::Ready(_) => true,
            Mark::Waiting(_) | Mark::Resting | Mark::Finished(_) | Mark::Dropped => false,
        }
    }

    /// Whether the piece is gone.
    pub fn is_dropped(&self) -> bool
        ensures { result ≡ says_dropped self.now }
    {
        match self {
            Mark::Dropped => true,
            Mark::Ready(_) | Mark::Waiting(_) | Mark::Resting | Mark::Finished(_) => false,
        }
    }

    /// Whether a piece of this mark is finished.
    pub fn is_finished(&self) -> bool
        ensures { result ≡ says_finished self.now }
    {
        match self {
            Mark::Finished(_) => true,
            Mark::Ready(_) | Mark::Waiting(_) | Mark::Resting | Mark::Dropped => false,
        }
    }
}
