//! Workers that share a world under its lock, side by side, each with a seat of its own.
#![tactic(auto)]

mod beside;
mod spreading;
mod workers;

pub use worker_rounds::{Between, Gate, NoBetween, NoGate, Stop, Worked, work};
pub use workers::run_workers;
