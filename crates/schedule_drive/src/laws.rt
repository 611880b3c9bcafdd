//! Laws of drives.
ghost use Rattle.schedule_drive.specs.Laws.{DriveAppends};

/// A drive appends to the history just the entries that its report tells of, in their order.
pub fn drive_appends()
    ensures { DriveAppends }
{}
