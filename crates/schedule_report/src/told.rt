use shared_world::Given;

/// What came of a line of a schedule.
#[derive(Drop)]
pub enum Told {
    /// The world answered this.
    Answered(Given),
    /// The result is kept.
    Kept,
    /// Nothing could be done, and nothing was.
    NotReady,
}
