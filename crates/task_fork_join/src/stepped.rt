use value_core::Name;

/// What a step of a task comes to.
#[derive(Drop)]
pub enum Stepped {
    /// The task was answered, and goes on.
    Now,
    /// It forked the child of this future, and goes on.
    Forked(Name),
    /// It waits for the task of this future, which has not finished.
    WaitJoin(Name),
    /// It waits for this ref, of which it has no value of its own and the snapshot has none.
    NotInSnapshot(Name),
    /// It ended.
    Finished,
}
