//! Laws of the world as it is kept.
ghost use Rattle.shared_world.specs.Laws.{AbortsAreFew, AbortsAreLate, AttemptsAge, GaveAppends, GaveKeeps, GaveKeepsFew, GaveMarks, OpeningKeepsFew, OpeningMarks, OpeningStands, OthersAreReady, OverAtRest, UndoesAges, UndoesKeeps, UndoesMarks};
ghost use Rattle.shared_world.specs.rows.Resetting.{ResetsKeepFew, ResetsMark, ResetsStand};

/// Whatever a result that is given back comes to, what is kept stands for the replay of its history afterwards.
pub fn gave_keeps()
    ensures { GaveKeeps }
{}

/// Whatever a result that is given back comes to, just the entry that is answered is appended to the history.
pub fn gave_appends()
    ensures { GaveAppends }
{}

/// Main alone stands for the empty history.
pub fn opening_stands()
    ensures { OpeningStands }
{}

/// Whatever a result that is given back comes to, the marks of the pieces are right afterwards where they were before.
pub fn gave_marks()
    ensures { GaveMarks }
{}

/// The marks of main alone are right.
pub fn opening_marks()
    ensures { OpeningMarks }
{}

/// Whatever a result that is given back comes to, of each ref at most one version more is kept afterwards than there are live snapshots,
/// where that was so before.
pub fn gave_keeps_few()
    ensures { GaveKeepsFew }
{}

/// That is so of main alone.
pub fn opening_keeps_few()
    ensures { OpeningKeepsFew }
{}

/// Something can be done with each piece that is not claimed, not finished, and waits for nothing that is to come, but for an actor that
/// has a turn or no mail.
pub fn others_are_ready()
    ensures { OthersAreReady }
{}

/// While no end is set the run is over exactly where each unit is finished and nobody has mail.
pub fn over_at_rest()
    ensures { OverAtRest }
{}

/// An attempt is undone only for a version above its snapshot, of an entry that is there.
pub fn aborts_are_late()
    ensures { AbortsAreLate }
{}

/// An attempt that is undone is followed by one on more entries.
pub fn attempts_age()
    ensures { AttemptsAge }
{}

/// In a run the attempts of a unit are undone at most as often as entries are settled.
pub fn aborts_are_few()
    ensures { AbortsAreFew }
{}

/// Where an attempt is undone with all that hangs on it, what is kept stands for the replay of its history afterwards.
pub fn undoes_keeps()
    ensures { UndoesKeeps }
{}

/// Where an attempt is undone with all that hangs on it, the marks of the pieces are right afterwards.
pub fn undoes_marks()
    ensures { UndoesMarks }
{}

/// Where an attempt is undone with all that hangs on it, each one that goes is followed by one on no fewer entries.
pub fn undoes_ages()
    ensures { UndoesAges }
{}

/// Where everything is back where the history left it, what is kept stands for the replay of its history.
pub fn resets_stand()
    ensures { ResetsStand }
{}

/// And the marks of the pieces are right where they were before.
pub fn resets_mark()
    ensures { ResetsMark }
{}

/// And few versions are kept of each ref.
pub fn resets_keep_few()
    ensures { ResetsKeepFew }
{}
