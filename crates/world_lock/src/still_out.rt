use crate::grows::Grows;
use crate::lock::WorldLock;
use crate::seat::Seat;

/// A lock that was not closed, since another seat of it is out, and the seat that tried.
#[derive(Drop)]
pub struct StillOut<T: Grows> {
    pub lock: WorldLock<T>,
    pub seat: Seat<T>,
}
