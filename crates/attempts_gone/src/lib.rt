//! Attempts that are gone from what the world keeps, with their tasks, and the versions of refs that those which are left still read.
#![tactic(auto)]

mod dropping;
mod snapshots;

pub use dropping::{drop_attempt, drop_tasks, forget_tasks, prune, prune_by_walk};
pub use snapshots::{room_for_snapshots, take_named};
