//! Threads that append numbers to one list under a lock.
#![tactic(auto)]

mod list;
mod pairs;
mod runs;
mod workers;

pub use list::{Listed, Numbers};
pub use pairs::{Pair, append_by_four, append_by_two};
pub use runs::{appended_by_four, appended_by_two};
pub use workers::{Done, Worker, append, append_many};
