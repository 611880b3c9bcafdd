/// A place in a pool, and which of the things that stood there in turn is meant.
#[derive(Clone, Copy, Debug, PartialEq, Eq)]
pub struct Ticket {
    pub slot: usize,
    pub generation: u32,
}
