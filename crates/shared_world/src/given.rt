use serial_model::Entry;
use unit_table::WaitOn;
use value_core::Name;

/// What a result that is given back comes to.
#[derive(Drop)]
pub enum Given {
    /// This entry is the last one of the history now.
    Settled(Entry),
    /// An effect is held, or a turn is begun ahead of the history.
    Held,
    /// A task of an attempt did a step that the history does not see.
    Local,
    /// An attempt began on the refs as they are after so many entries.
    Began {
        snapshot: u64,
    },
    /// The piece waits for this.
    Waiting(WaitOn),
    /// The attempt of this unit is undone: this ref has this version, which is above the attempt's snapshot.
    Aborted {
        unit: Name,
        name: Name,
        version: u64,
    },
    /// The claim is out no more, or what it lent is not what is kept.
    Stale,
}
