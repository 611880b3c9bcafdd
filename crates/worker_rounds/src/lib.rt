//! A worker of a world under its lock: it claims a piece, evaluates it outside of the lock, and gives it back, round by round.
#![tactic(auto)]

mod between;
mod gate;
mod holds;
mod pausing;
mod rounds;
mod stop;
mod working;

pub use between::{Between, NoBetween};
pub use gate::{Gate, NoGate};
pub use stop::{Stop, Worked};
pub use working::work;
