//! A lock round a value that only grows. Threads enter it by seats, and what a seat has seen of the value's history stays a
//! beginning of it.
#![tactic(auto)]

mod grows;
mod lends;
mod lock;
mod moves;
mod seat;
mod slots;
mod steps;
mod still_out;
mod turn;
mod view;

pub use grows::Grows;
pub use lock::WorldLock;
pub use seat::Seat;
pub use still_out::StillOut;
pub use turn::Turn;
