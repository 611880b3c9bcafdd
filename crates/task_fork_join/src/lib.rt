//! The tasks of an attempt at a transaction, stepped in any order: what a step is, and what it keeps.
#![tactic(auto)]

mod answering;
mod closing;
mod copies;
mod following;
mod forking;
mod joining;
mod known;
mod laws;
mod stepped;
mod task;
mod task_end;
mod task_names;
mod tasks;
mod tree;

pub use laws::{ends_are_of_transactions, new_attempts_run, steps_keep_runs};
pub use stepped::Stepped;
pub use task_end::TaskEnd;
pub use task_names::TaskNames;
pub use tree::Tree;
