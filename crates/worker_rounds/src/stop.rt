use interleave_core::World;
use world_lock::Seat;

/// Why a worker stopped.
#[derive(Clone, Copy, Debug, PartialEq, Eq)]
pub enum Stop {
    /// The run is over.
    Over,
    /// Memory is wanting.
    Memory,
}

/// A worker's seat, and why it stopped.
#[derive(Drop)]
pub struct Worked {
    pub seat: Seat<World>,
    pub stop: Stop,
}
