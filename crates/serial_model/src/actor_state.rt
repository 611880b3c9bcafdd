use value_core::Values;

/// An actor: its behaviour by number, its state with the hidden arguments first, how many turns it began, and whether
/// the last one is not finished.
#[derive(Drop)]
pub struct ActorState {
    pub behaviour: u32,
    pub state: Values,
    pub turns: u32,
    pub busy: bool,
}
