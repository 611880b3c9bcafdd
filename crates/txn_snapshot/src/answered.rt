use serial_model::Answer;
use value_core::Name;

/// What becomes of a request of a task.
#[derive(Drop)]
pub enum Answered {
    /// It is answered.
    Now(Answer),
    /// It names this ref, of which the task has no value of its own and the snapshot has none.
    NotInSnapshot(Name),
}
