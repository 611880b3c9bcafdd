//! The world that the threads share: what can be claimed in it, and what a result that is given back answers and changes.
#![tactic(auto)]

mod claiming;
mod error;
mod grows;
mod world;

pub use error::{ClaimNo, NamedNo, StepNo};
pub use world::World;
