//! What the step of a task of an attempt does to what the world keeps.
#![tactic(auto)]

mod tasks;
mod waiting;

pub use tasks::{settle_task, step_task};
