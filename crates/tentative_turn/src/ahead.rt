use serial_model::{Answer, Request};

/// What becomes of a request of a turn that runs ahead.
#[derive(Drop)]
pub enum Ahead {
    /// It is answered so, and its effect is held.
    Answered(Answer),
    /// The request is handed back: its answer has to be looked up, so it waits until the turn is definite and holds
    /// nothing.
    MustWait(Request),
}
