//! Which slot waits for which: the slots that wait for one are linked through the slots, so that no change takes memory.
#![tactic(auto)]

mod links;
mod wait_lists;

pub use wait_lists::WaitLists;
