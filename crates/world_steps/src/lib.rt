//! What the world keeps, and what the step of a unit does to it.
#![tactic(auto)]

mod actors;
mod attempts;
mod kept;
mod opening;
mod requests;
mod units;

pub use actors::{add_actor, count_taken, idle, rouse, rouse_unless};
pub use attempts::add_task;
pub use kept::{Kept, Marks, Ready, answered, append, move_to};
pub use units::value_of;
