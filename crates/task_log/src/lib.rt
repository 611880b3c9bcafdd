//! What a task of a transaction has done so far: its writes and effects, the tasks that it joined, and the merge of a child.
#![tactic(auto)]

pub mod acts;
mod log;
mod send_counts;
mod shared_list;

pub use log::TaskLog;
pub use shared_list::{SharedList, list_effects};
